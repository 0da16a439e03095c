ghost use Rattle.std.specs.Prelude.{◌≡◌, ◌+◌, ◌<◌, ◌≤◌, ◌↔◌, [], ◌∷◌, ◌++◌, length, drop, IsNone};

use arrayvec::ArrayVec;
use pci_command::OpId;
use std::marker::Model;

/// A posted memory write that stands: its operation, and the number of its arrival at this half.
#[derive(Clone, Copy, Debug, Default, PartialEq, Eq)]
pub struct Post {
    pub op: OpId,
    pub arrival: u64,
}

/// The posted memory writes that stand, in the order in which they came: at most `depth`, which is
/// from 1 to 8 (PCI Local Bus 2.2, section 3.2.5, from memory). It takes no memory.
#[derive(Debug, Drop)]
pub struct PostedTable {
    limit: u8,
    standing: ArrayVec<Post, 8>,
}

impl Model for PostedTable {
    ghost use Rattle.lane_items.specs.posts.Posted.{Posted, IsWithinDepth};

    ghost Value = { Posted };

    ghost view = { λ t. record { depth = t.limit; posts = t.standing.items } };

    ghost invariant = { λ t. IsWithinDepth (record { depth = t.limit; posts = t.standing.items }) };
}

impl PostedTable {
    ghost use Rattle.lane_items.specs.posts.Posted.{IsWithinDepth, first_of};

    /// A table without posted writes that has room for `depth` of them.
    pub fn new(depth: u8) -> PostedTable
        requires at_least_one { 1 ≤ depth }
        requires at_most_eight { depth ≤ 8 }
        ensures { result ≡ record { depth = depth; posts = [] } }
    {
        PostedTable {
            limit: depth,
            standing: ArrayVec::new(),
        }
    }

    /// For how many more posted writes there is room.
    pub fn room(&self) -> u8
        ensures value { result + length self.now.posts ≡ self.now.depth }
        ensures within { IsWithinDepth self.now }
    {
        self.limit - self.standing.len() as u8
    }

    /// One more posted write stands, behind the others.
    pub fn push(&mut self, op: OpId, arrival: u64)
        requires { length self.old.posts < self.old.depth }
        ensures { self.new ≡
            record self.old {
              posts = self.old.posts ++ record { op = op; arrival = arrival } ∷ [];
            } }
    {
        self.standing.push(Post { op, arrival });
    }

    /// Operation and arrival of the posted write that came first; none exactly where none stands.
    pub fn head(&self) -> Option<(OpId, u64)>
        ensures first { result ≡ first_of self.now.posts }
        ensures empty { IsNone result ↔ (self.now.posts ≡ []) }
        ensures within { IsWithinDepth self.now }
    {
        self.standing
            .as_slice()
            .first()
            .map(|post| (post.op, post.arrival))
    }

    /// The posted write that came first leaves, and the others keep their order.
    pub fn pop(&mut self)
        requires { 0 < length self.old.posts }
        ensures { self.new ≡ record self.old { posts = drop 1 self.old.posts } }
    {
        self.standing.remove(0);
    }
}
