use crate::help::OWN_WORDS;
use crate::help::call::Call;
use crate::{FORMS, Group};
use std::fmt;

/// The version of the program, and of the kit that it is proved with.
pub const VERSION: &str = "pcitree 0.3.0~next (rattle-kit-13f logic dac8208d650f15bf)";

/// What forms are for, in the order of the help, with its heading.
const GROUPS: [(Group, &str); 5] = [
    (Group::EveryRun, "Every run of a board or device file"),
    (Group::MakeRun, "Make a run"),
    (Group::JudgeRun, "Judge a run"),
    (Group::LookAtRun, "Look at a run"),
    (Group::Boards, "Boards and machines"),
];

/// What `help` prints: each way to call the program with its help line, by what it is for.
#[derive(Clone, Copy, Debug)]
pub struct Help;

impl fmt::Display for Help {
    fn fmt<W: fmt::Write>(&self, f: &mut fmt::Formatter<W>) -> fmt::Result {
        f.write_str("usage: pcitree COMMAND ..\n")?;
        for (group, title) in GROUPS {
            write!(f, "\n{title}\n")?;
            for form in &FORMS {
                let row = form.row();
                if row.group == group {
                    Call::of_row(row).write_row(f)?;
                }
            }
        }
        f.write_str("\nHelp\n")?;
        for own in &OWN_WORDS {
            Call::of_own(own).write_row(f)?;
        }
        f.write_str("\nFILE is a path, or - for standard input.\n")
    }
}
