//! The strips of a picture of a run, of 32 rows each: what passes each of them, found in one pass
//! over all elements.
mod print;
mod strip;

pub(crate) use print::print_strips;
