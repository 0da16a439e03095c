/// The name of an operation: its master and its index there, both from 0 in the order of the
/// board, and the try of a poll, from 0 (0 for all but polls).
#[derive(Clone, Copy, Debug, Default, PartialEq, Eq, Hash)]
pub struct OpId {
    pub master: u16,
    pub index: u16,
    pub attempt: u32,
}

/// How an operation ended.
#[derive(Clone, Copy, Debug, Default, PartialEq, Eq)]
pub enum Outcome {
    /// A read gave this dword.
    Value(u32),
    /// A write was taken.
    #[default]
    Written,
    /// Target abort (PCI Local Bus 2.2, section 3.3.3.2.1, from memory).
    Aborted,
    /// Master abort: nobody claimed it (PCI Local Bus 2.2, section 3.3.3.1, from memory).
    Nobody,
}
