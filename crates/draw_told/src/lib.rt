//! What a picture of a run tells beside its drawing: the lines of the audit, where each write
//! landed and was read by a master that was told, which operations and events belong to that, and
//! the brackets beside the list; how the events end, and what one that is not allowed stands
//! behind; and the top of the page.
#![tactic(auto)]

mod ahead;
mod brackets;
mod close;
mod ends;
mod told;
mod top;
mod touches;

pub use ahead::ahead_in;
pub use brackets::{Brackets, brackets_of};
pub use close::{Close, allowed_in};
pub use told::{Span, Told, told_of};
pub use top::{Title, print_told, print_top};
