ghost use Rattle.std.specs.Prelude.{◌≡◌, nat_lt, length};
ghost use Rattle.board_text.specs.Tokens.{words_of};
ghost use Rattle.board_statements.specs.Statements.{statement_of, first_line_of};
ghost use Rattle.board_parser.specs.draft.Steps.{Answers, Changes};
ghost use Rattle.board_parser.specs.OneLine.{read_line, read_words, read_statement};

use crate::draft::{AddFault, Sheet};
use board_statements::{first_line, has_words, statement_of};
use board_text::check_line;
use std::alloc::Global;
use text_faults::LineFault;

/// The sheet is what it is behind one more line. There is none before the first line that has
/// words.
pub(crate) fn read_line(
    alloc: Global,
    sheet: &mut Option<Sheet>,
    line: &[u8],
) -> Result<(), AddFault>
    ensures { Changes result sheet.new (read_line sheet.old line.now) }
{
    if let Err(fault) = check_line(line) {
        return Err(AddFault::Fault(fault));
    }
    if has_words(line) {
        *sheet = read_words(alloc, sheet.take(), line)?;
    }
    Ok(())
}

fn read_words(alloc: Global, sheet: Option<Sheet>, line: &[u8]) -> Result<Option<Sheet>, AddFault>
    ensures { Answers result (read_words sheet (words_of line.now)) }
{
    match sheet {
        None => match first_line(line) {
            None => Err(AddFault::Fault(LineFault::NoFirstLine)),
            Some(wide) => Ok(Some(Sheet::new(alloc, wide))),
        },
        Some(sheet) => Ok(Some(read_statement(alloc, sheet, line)?)),
    }
}

fn read_statement(alloc: Global, sheet: Sheet, line: &[u8]) -> Result<Sheet, AddFault>
    ensures { Answers result (read_statement sheet (words_of line.now)) }
{
    let statement = statement_of(sheet.is_wide(), line)?;
    sheet.add(alloc, statement)
}
