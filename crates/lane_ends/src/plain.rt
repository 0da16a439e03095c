//! The ends of a bridge's lanes where all buses are worked on one thread: what is sent in a phase
//! crosses at its end.
mod laws;
mod plain_end;

pub use laws::got_in_order;
pub use plain_end::PlainEnd;
