use std::fmt;

/// A byte in two hexadecimal digits.
#[derive(Clone, Copy, Debug, PartialEq, Eq)]
pub(crate) struct HexByte(pub(crate) u8);

impl fmt::Display for HexByte {
    ghost use Rattle.std.specs.Prelude.{Some};
    ghost use Rattle.board_printer.specs.headers.Headers.{byte_text};

    ghost output = { λ byte. Some (byte_text byte.0) };

    #[tactic(auto, using(std::proofs::lemmas::Fmt::hex_byte), unfolding(crate::specs::headers::Headers::byte_text))]
    fn fmt<W: fmt::Write>(&self, f: &mut fmt::Formatter<W>) -> fmt::Result {
        let number = self.0;
        write!(f, "{number:02x}")
    }
}
