ghost use Rattle.std.specs.Prelude.{◌≡◌, ◌≤◌};
ghost use Rattle.traffic_generator.specs.Generated.{rounds_in};

use std::marker::Model;

/// How many rounds of operations each master of a generated board has: 1 to 300.
#[derive(Debug, Drop)]
pub struct Rounds {
    count: u16,
}

impl Model for Rounds {
    ghost use Rattle.std.specs.Prelude.{ℕ, ◌≤◌};

    ghost Value = { ℕ };

    ghost view = { λ rounds. rounds.count };

    ghost invariant = { λ rounds. (1 ≤ rounds.count) × (rounds.count ≤ 300) };
}

impl Rounds {
    /// So many rounds. There are none exactly where the number is not from 1 to 300.
    pub fn new(count: u32) -> Option<Rounds>
        ensures { result ≡ rounds_in count }
    {
        if (1..=300).contains(&count) {
            Some(Rounds {
                count: count as u16,
            })
        } else {
            None
        }
    }

    /// How many they are.
    pub fn count(&self) -> u16
        ensures value { result ≡ self.now }
        ensures some { 1 ≤ self.now }
        ensures few { self.now ≤ 300 }
    {
        self.count
    }
}
