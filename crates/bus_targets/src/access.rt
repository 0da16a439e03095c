/// What a target answers to an access that it claims.
#[derive(Clone, Copy, Debug, PartialEq, Eq)]
pub enum Access {
    /// Retry, while it has stall tokens: one is used, and the operation stays.
    Stall,
    /// Target-Abort: the address is in an abort range.
    Abort,
    /// The word that a read returns.
    Value(u32),
    /// So many data phases of a write landed; then it disconnects, and the rest of the write stays.
    Part(u8),
    /// All data phases of a write landed.
    Landed,
}
