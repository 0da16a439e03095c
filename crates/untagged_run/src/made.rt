use crate::got::Got;
use crate::origins::Key;

/// What an event makes of origins.
#[derive(Clone, Copy)]
pub(crate) struct EventMade {
    /// The slot whose delayed request it answers, if it answers one.
    pub(crate) slot: Option<Key>,
    /// Where its value is from.
    pub(crate) source: Option<Got>,
    /// What the read got that it ends at its master.
    pub(crate) given: Option<Got>,
}
