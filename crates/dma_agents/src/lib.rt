//! Devices that write in memory by themselves, ring doorbells and interrupt by messages: a text of
//! such devices on a board is read as the board with their masters, whose flags are clear. The
//! bytes of a put are written each once and in order.
#![tactic(auto)]

mod add;
mod clear;
mod fault;
mod forms;
mod laws;
mod line;
mod making;
mod marks;
mod messages;
mod parts;
mod put;
mod text;
mod unclear;
mod written;

pub use fault::MakeFault;
pub use laws::{
    made_boards_are_well_formed, made_flags_are_clear, put_is_written_once,
    puts_stand_on_the_board, waited_flags_are_clear, worked, worked_devices,
};
pub use line::Flag;
pub(crate) use line::{DeviceLine, DeviceOwner, Waiting};
pub use messages::message;
pub use parts::begins_devices;
pub(crate) use put::{Put, cut};
pub use text::make;
pub use unclear::{OpPlace, Unclear};
