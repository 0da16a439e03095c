//! A turn of one bus: what comes over its bridges is received, and then each of its initiators that
//! presents something is served once.
mod lines;
mod receiving;
mod serving;
mod worker;

pub use worker::Worker;
