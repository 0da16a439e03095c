use pci_command::Phase;
use std::fmt;

/// A number of 32 bits in eight hexadecimal digits.
#[derive(Clone, Copy, Debug, PartialEq, Eq)]
pub struct HexWord(pub u32);

/// A number of 16 bits in four hexadecimal digits.
#[derive(Clone, Copy, Debug, PartialEq, Eq)]
pub struct HexHalf(pub u16);

/// An address, a size or a limit: eight hexadecimal digits below 2^32, and from there on eight for
/// each half, with a colon between them.
#[derive(Clone, Copy, Debug, PartialEq, Eq)]
pub struct Address(pub u64);

/// A data phase: its dword, and behind a slash the digit of its byte enables, unless all four are
/// set.
#[derive(Clone, Copy, Debug, PartialEq, Eq)]
pub struct DataWord(pub Phase);

impl fmt::Display for HexWord {
    ghost use Rattle.std.specs.Prelude.{Some};
    ghost use Rattle.board_printer.specs.Numbers.{word_text};

    ghost output = { λ word. Some (word_text word.0) };

    #[tactic(auto, using(crate::proofs::HexLemmas::eight_digits))]
    fn fmt<W: fmt::Write>(&self, f: &mut fmt::Formatter<W>) -> fmt::Result {
        let number = self.0;
        write!(f, "{number:08x}")
    }
}

impl fmt::Display for HexHalf {
    ghost use Rattle.std.specs.Prelude.{Some};
    ghost use Rattle.board_printer.specs.Numbers.{half_text};

    ghost output = { λ half. Some (half_text half.0) };

    #[tactic(auto, using(crate::proofs::HexLemmas::four_digits))]
    fn fmt<W: fmt::Write>(&self, f: &mut fmt::Formatter<W>) -> fmt::Result {
        let number = self.0;
        write!(f, "{number:04x}")
    }
}

impl fmt::Display for Address {
    ghost use Rattle.std.specs.Prelude.{Some};
    ghost use Rattle.board_printer.specs.Numbers.{address_text};

    ghost output = { λ address. Some (address_text address.0) };

    #[tactic(auto, unfolding(crate::specs::Numbers::address_text))]
    fn fmt<W: fmt::Write>(&self, f: &mut fmt::Formatter<W>) -> fmt::Result {
        let lower = HexWord((self.0 & 0xffff_ffff) as u32);
        let upper = (self.0 >> 32) as u32;
        if upper == 0 {
            write!(f, "{lower}")
        } else {
            write!(f, "{}:{lower}", HexWord(upper))
        }
    }
}

impl fmt::Display for DataWord {
    ghost use Rattle.std.specs.Prelude.{Some};
    ghost use Rattle.board_printer.specs.Numbers.{phase_text};

    ghost output = { λ word. Some (phase_text word.0) };

    #[tactic(auto, using(crate::proofs::HexLemmas::one_digit), unfolding(crate::specs::Numbers::phase_text))]
    fn fmt<W: fmt::Write>(&self, f: &mut fmt::Formatter<W>) -> fmt::Result {
        let value = HexWord(self.0.value);
        let enables = self.0.enables % 16;
        if enables == 15 {
            write!(f, "{value}")
        } else {
            write!(f, "{value}/{enables:x}")
        }
    }
}
