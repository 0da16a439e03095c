//! Bytes in and out: a source and a sink that say what they hold and took and count their faults,
//! over memory for tests and over `std::io` for programs. Each read gives the next bytes and
//! their number, 0 for a buffer that is not empty only at the end; each write appends what it
//! says; a failure gives or takes no byte, and comes only where the count of faults rose or
//! stands at its last value. Ports in memory fail exactly at the calls that they were told. A
//! file tells nothing, so what a `WritePort` tells is what it passed on and the writer took,
//! which the clause `passed` ties to every writer that tells its own bytes. A source is read to its
//! end, and a text written to a sink, as far as either goes.
#![tactic(auto)]

mod counts;
mod failed;
mod held_source;
mod memory_sink;
mod memory_source;
mod port;
mod read_port;
mod reading;
mod sure_sink;
mod sure_source;
mod told;
mod write_port;
mod writing;

pub use failed::Failed;
pub use held_source::HeldSource;
pub use memory_sink::MemorySink;
pub use memory_source::MemorySource;
pub use port::{Bytes, Sink, Source};
pub use read_port::ReadPort;
pub use reading::{ReadError, read_all};
pub use sure_sink::SureSink;
pub use sure_source::SureSource;
pub use write_port::WritePort;
pub use writing::write_all;
