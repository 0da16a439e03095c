use thiserror::Error;

/// Why a header is refused. Of several causes the first in this order is named.
#[derive(Clone, Copy, Debug, PartialEq, Eq, Error)]
pub enum HeaderFault {
    /// The header type, without its highest bit, is not 1.
    #[error("the header type is not 1")]
    H1,
    /// I/O space, memory space or bus master is disabled in the command register, or ISA enable,
    /// VGA enable or secondary bus reset is set in the bridge control register.
    #[error("a command bit is clear, or an ISA, VGA or reset bit is set")]
    H2,
    /// The bus numbers are not primary < secondary <= subordinate.
    #[error("the bus numbers are not primary < secondary <= subordinate")]
    H3,
}
