use std::fmt;
use thiserror::Error;

/// A fault of a line of a text. Lines are numbered from 1.
#[derive(Clone, Copy, Debug, PartialEq, Eq, Drop, Error)]
#[error("line {line}: {fault}")]
#[error_bound(F: fmt::Display)]
pub struct AtLine<F> {
    pub line: u32,
    pub fault: F,
}
