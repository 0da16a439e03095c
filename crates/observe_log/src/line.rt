//! A line of a log behind `log`, word by word.
mod cut;
mod data;
mod heading;
mod initiators;
mod number;
mod words;

pub(crate) use cut::LineWords;
pub(crate) use data::{data_fault, read_data};
pub(crate) use heading::read_heading;
pub(crate) use initiators::Initiators;
