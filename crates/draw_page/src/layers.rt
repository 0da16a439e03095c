//! The layers of a picture of a run: what is to be known of each row, and all elements in the order
//! in which they are drawn over one another.
mod layers;
mod rows;

pub(crate) use layers::layers_of;
pub(crate) use rows::rows_of;
