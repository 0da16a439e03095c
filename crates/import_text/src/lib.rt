//! What `lspci -vvxxx` wrote of a machine, read as its functions.
#![tactic(auto)]

mod capability;
mod digits;
mod entry;
mod fault;
mod function;
mod lines;
mod read;
mod region;
mod row;
mod slot;

pub use capability::CapabilityKind;
pub use fault::ReadFault;
pub use function::Function;
pub use read::read_functions;
pub use slot::DeviceAddress;
