//! Which items of one lane a board discards or drops when they arrive (PCI Local Bus Specification
//! 2.2, section 3.3.3.3.3, from memory; a delayed transaction may be discarded). The lines of the
//! board name them by their number among those of their kind on the lane, from 1 on.
mod lane_marks;

pub use lane_marks::LaneMarks;
