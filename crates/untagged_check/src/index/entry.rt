use pci_command::OpId;

/// A write, and how many events there were before it landed whole; `usize::MAX` where it did not.
#[derive(Clone, Copy)]
pub(crate) struct Write {
    pub op: OpId,
    pub landed: usize,
}

/// A write by its place in the program of its master, from 0 on, and how many events there were
/// before it and the earlier writes of the list had all landed whole; `usize::MAX` where one of
/// them did not.
#[derive(Clone, Copy, Debug)]
pub(crate) struct Entry {
    pub index: u16,
    pub landed: usize,
}
