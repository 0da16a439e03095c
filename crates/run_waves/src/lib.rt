//! The waves of a run: a value change dump of what each bus does, what is on each lane, and how far
//! each master is, for a viewer such as GTKWave. Time is the number of the event. That viewers read
//! the bytes so is not proved. That a master waits exactly where it presented its turn before rests
//! on the order of programs.
#![tactic(auto)]

mod blocks;
mod code;
mod dump;
mod head;
mod homes;
mod laws;
mod lines;
mod reading;
mod scene;
mod signal;
mod signals;
mod touched;
mod watch;

pub use dump::waves;
pub use laws::{codes_are_apart, dumps_are_lines, dumps_tell, widths_fit};
