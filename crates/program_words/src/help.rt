//! What the program says of itself: how it is called, with a help line for each way, and its
//! version.
mod call;
mod help;
mod nearest;
mod own;
mod shown;
mod topic;
mod usage;
mod wanted;
mod word;

pub use help::{Help, VERSION};
pub(crate) use nearest::near;
pub use own::{OWN_WORDS, OwnWord};
pub(crate) use shown::Shown;
pub use topic::TOPICS;
pub use usage::{UsageHelp, usage_help};
pub(crate) use wanted::{Wanted, wanted_at};
pub(crate) use word::begins;
pub use word::{WordHelp, is_one_of, word_help};
