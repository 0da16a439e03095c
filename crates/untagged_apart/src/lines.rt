ghost use Rattle.std.specs.Prelude.{◌≡◌, ◌++◌, OnOk, string_bytes};
ghost use Rattle.board_printer.specs.Lines.{line_text};
ghost use Rattle.untagged_apart.specs.Lines.{apart_line};

use std::alloc::AllocError;

/// The line that says whether masters are apart, behind a text.
pub fn print_apart(text: &mut String, apart: bool) -> Result<(), AllocError>
    ensures { OnOk result (string_bytes text.new
        ≡ string_bytes text.old ++ line_text (apart_line apart)) }
{
    if apart {
        writeln!(text, "apart yes")
    } else {
        writeln!(text, "apart no")
    }
}
