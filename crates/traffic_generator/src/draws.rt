ghost use Rattle.std.specs.Prelude.{◌≡◌, ◌≤◌};
ghost use Rattle.traffic_generator.specs.Draws.{drawn, draw, word, words, words_drawn};

use pci_command::{Phase, Phases};

/// A linear congruential generator modulo 2^32: each draw gives the upper half of its state.
#[derive(Drop)]
pub(crate) struct Draws {
    pub(crate) state: u32,
}

impl Draws {
    /// The next 16 bits.
    pub(crate) fn draw(&mut self) -> u16
        ensures value { result ≡ draw self.old.state }
        ensures state { self.new.state ≡ drawn self.old.state }
    {
        let product = u64::from(self.state) * 1_103_515_245;
        self.state = ((product + 12_345) % 0x1_0000_0000) as u32;
        (self.state >> 16) as u16
    }

    /// The next two draws as one dword, the high half first.
    pub(crate) fn word(&mut self) -> u32
        ensures value { result ≡ word self.old.state }
        ensures state { self.new.state ≡ drawn (drawn self.old.state) }
    {
        let high = u32::from(self.draw());
        let low = u32::from(self.draw());
        high * 0x1_0000 + low
    }

    /// The next words as the data phases of a write of at most eight.
    pub(crate) fn words(&mut self, count: u8) -> Phases
        requires { count ≤ 8 }
        ensures value { result ≡ words count self.old.state }
        ensures state { self.new.state ≡ words_drawn count self.old.state }
    {
        let mut phases = Phases::new();
        for _place in 0..count {
            phases.push(Phase {
                value: self.word(),
                enables: 15,
            });
        }
        phases
    }
}
