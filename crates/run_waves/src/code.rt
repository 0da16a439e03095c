ghost use Rattle.std.specs.Prelude.{◌≡◌, ◌+◌, ◌%◌};

use std::fmt;

/// The code of the signal of this number: its digits in base 94, the lowest first, each as a
/// printing character.
#[derive(Clone, Copy, PartialEq, Eq)]
pub(crate) struct Code(pub(crate) usize);

impl fmt::Display for Code {
    ghost use Rattle.std.specs.Prelude.{Some};
    ghost use Rattle.run_waves.specs.Dump.{code_of};

    ghost output = { λ code. Some (code_of code.0) };

    fn fmt<W: fmt::Write>(&self, f: &mut fmt::Formatter<W>) -> fmt::Result {
        let number = self.0;
        f.write_char(glyph(number))?;
        if number < 94 {
            return Ok(());
        }
        f.write_char(glyph(number / 94))?;
        if number / 94 < 94 {
            return Ok(());
        }
        f.write_char(glyph(number / 94 / 94))
    }
}

/// The lowest digit.
fn glyph(number: usize) -> char
    ensures { result ≡ 33 + number % 94 }
{
    char::from((33 + number % 94) as u8)
}
