//! Bytes that only clauses read: they take no memory and no time.
ghost use Rattle.std.specs.Prelude.{◌≡◌, ℕ, List, [], ◌++◌};
ghost use Rattle.std.specs.Borrow.{ftrue};

use std::marker::{Model, PhantomData};

/// What a port took so far, in order.
#[derive(Drop)]
pub(crate) struct TakenBytes {
    marker: PhantomData<u8>,
    pub ghost bytes: { List ℕ },
}

impl Model for TakenBytes {
    ghost also_owns = { λ _. ftrue };
}

impl TakenBytes {
    pub(crate) fn new() -> TakenBytes
        ensures { result.bytes ≡ [] }
    {
        TakenBytes {
            marker: PhantomData,
        }
    }

    /// These bytes stand behind the others.
    pub(crate) fn more(&mut self, _piece: &[u8])
        ensures { self.new.bytes ≡ self.old.bytes ++ _piece.now }
    {}
}
