//! What each master knows of all writes in a run on bridges that keep no local master, event by
//! event: of each author one number, as many operations of its program as are known. PCI Local Bus
//! Specification 2.2, appendix E (from memory).
mod knowers;
mod learned;
mod started;
mod words;

pub use knowers::Knowers;
