use thiserror::Error;

/// A call of a port failed, and its count of faults rose. No byte was given or taken.
#[derive(Clone, Copy, Debug, PartialEq, Eq, Error)]
#[error("failed")]
pub struct Failed;
