use thiserror::Error;

/// What keeps the buses of a well-formed board from being a tree in which each address has one
/// owner.
#[derive(Clone, Copy, Debug, PartialEq, Eq, Error)]
pub enum TreeFault {
    #[error("the primary bus of a bridge, the bus of an agent, or the bridge of a discard or a drop is not there")]
    LacksABus,
    #[error("bus numbers that are not those of a tree")]
    NoTree,
    #[error("windows of two bridges on one bus that share an address")]
    WindowsMeet,
    #[error("a range or a window behind a bridge that lies in no one window of that bridge")]
    OutOfReach,
    #[error("a range that shares an address with a window of a bridge below its bus")]
    RangeInWindow,
    #[error("two ranges on one bus that share an address")]
    RangesMeet,
    #[error("two devices on one bus that have one number")]
    DevicesMeet,
    #[error("a configuration write that names a bridge")]
    WritesAHeader,
}

impl TreeFault {
    ghost use Rattle.std.specs.Prelude.{◌≡◌};
    ghost use Rattle.text_faults.specs.Tree.{code_of};

    /// Its number in what is printed, from V1 on.
    pub fn code(self) -> u8
        ensures { result ≡ code_of self }
    {
        match self {
            TreeFault::LacksABus => 1,
            TreeFault::NoTree => 2,
            TreeFault::WindowsMeet => 3,
            TreeFault::OutOfReach => 4,
            TreeFault::RangeInWindow => 5,
            TreeFault::RangesMeet => 6,
            TreeFault::DevicesMeet => 7,
            TreeFault::WritesAHeader => 8,
        }
    }
}
