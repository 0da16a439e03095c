ghost use Rattle.std.specs.Prelude.{Some};
ghost use Rattle.program_status.specs.CountText.{further_text, counts_text};

use std::fmt;

/// How many faults `safe` lists of a board, by their kinds.
#[derive(Clone, Copy, Debug, PartialEq, Eq)]
pub struct SafeCounts {
    /// Reads that are not safe.
    pub unsafe_reads: u32,
    /// Writes that are lost.
    pub lost: u32,
    /// Polls that are met in no run.
    pub vain: u32,
    /// Reads and polls that read no word.
    pub nowhere: u32,
}

/// A count that is told only where it is not 0.
#[derive(Drop)]
struct Further {
    count: u32,
    name: &'static str,
}

impl fmt::Display for Further {
    ghost output = { λ further. Some (further_text further.count further.name.now) };

    fn fmt<W: fmt::Write>(&self, f: &mut fmt::Formatter<W>) -> fmt::Result {
        let Further { count, name } = self;
        if *count == 0 {
            Ok(())
        } else {
            write!(f, ", {count} {name}")
        }
    }
}

impl fmt::Display for SafeCounts {
    ghost output = { λ counts. Some (counts_text counts) };

    fn fmt<W: fmt::Write>(&self, f: &mut fmt::Formatter<W>) -> fmt::Result {
        let SafeCounts {
            unsafe_reads,
            lost,
            vain,
            nowhere,
        } = self;
        let nowhere = Further {
            count: *nowhere,
            name: "nowhere",
        };
        write!(
            f,
            "{unsafe_reads} unsafe, {lost} lost, {vain} vain{nowhere}"
        )
    }
}
