ghost use Rattle.std.specs.Prelude.{[]};
ghost use Rattle.observe_log.specs.Reading.{KnowsEnds, TellsEnd};

use crate::fault::{AtWord, LineStop};
use crate::line::{Initiators, LineWords, data_fault, read_data, read_heading};
use observe_told::Seen;
use pci_command::{List, Phase};
use std::alloc::Global;
use std::marker::Model;
use text_faults::LogLineFault;

/// What was read of a log so far. Clauses see its lines and the data phases of them all.
#[derive(Drop)]
pub(crate) struct Reading {
    lines: Vec<Seen>,
    phases: Vec<Phase>,
    // When the last line of each bus ended.
    ends: [u64; 256],
}

impl Model for Reading {
    ghost use Rattle.observe_log.specs.Lines.{Read};
    ghost use Rattle.observe_log.specs.Reading.{KnowsEnds};

    ghost Value = { Read };

    ghost view = { λ reading.
        record { lines = reading.lines.items; phases = reading.phases.items } };

    ghost invariant = { λ reading. KnowsEnds reading.ends reading.lines.items };
}

impl Reading {
    ghost use Rattle.std.specs.Prelude.{◌≡◌, ◌+◌, ◌<◌, ◌≤◌, ◌^◌, length, OnOk};
    ghost use Rattle.observe_log.specs.Lines.{nothing_read, line_read};
    ghost use Rattle.observe_log.specs.Reading.{Adds};

    /// Nothing yet.
    pub(crate) fn new(alloc: Global) -> Reading
        ensures { result ≡ nothing_read }
    {
        Reading {
            lines: Vec::new(alloc),
            phases: Vec::new(alloc),
            ends: no_ends(),
        }
    }

    /// The lines, and their data phases.
    pub(crate) fn into_lists(self) -> (List<Seen>, List<Phase>)
        ensures lines { result.0 ≡ self.lines }
        ensures phases { result.1 ≡ self.phases }
    {
        let Reading { lines, phases, .. } = self;
        (List::from_vec(lines), List::from_vec(phases))
    }

    /// Reads the line of this number, by its words.
    pub(crate) fn read<'a>(
        &mut self,
        initiators: &mut Initiators<'a>,
        number: u32,
        words: &mut LineWords<'a>,
    ) -> Result<(), LineStop>
        requires few { length words.old ≤ 257 }
        requires fits { length self.old.phases < 2 ^ 32 }
        ensures read { Adds result self.new
            (line_read initiators.old number self.old words.old) }
        ensures board { initiators.new ≡ initiators.old }
        ensures few { OnOk result
            (length self.new.phases ≤ length self.old.phases + length words.old) }
    {
        let heading = read_heading(initiators, words)?;
        let first = self.phases.len() as u32;
        let (count, ending) = read_data(words, &mut self.phases)?;
        let phases = usize::from(count);
        if let Some(fault) = data_fault(heading.command, heading.address, phases, ending) {
            return Err(LineStop::Fault(fault));
        }
        let seen = Seen {
            start: heading.start,
            end: heading.end,
            address: heading.address,
            line: number,
            first,
            who: heading.who,
            count,
            bus: heading.bus,
            command: heading.command,
            ending,
        };
        add(&mut self.lines, &mut self.ends, seen)
    }
}

/// That no line of any bus ended.
fn no_ends() -> [u64; 256]
    ensures { KnowsEnds result [] }
{
    [0; 256]
}

/// Puts a line behind the others, unless it begins before the last one of its bus ended.
fn add(lines: &mut Vec<Seen>, ends: &mut [u64; 256], seen: Seen) -> Result<(), LineStop>
    requires { KnowsEnds ends.old lines.old.items }
    ensures told { TellsEnd result lines.old.items lines.new.items seen }
    ensures ends { KnowsEnds ends.new lines.new.items }
{
    let bus = usize::from(seen.bus);
    if seen.start < ends[bus] {
        return Err(LineStop::Fault(AtWord {
            word: 0,
            fault: LogLineFault::TooEarly,
        }));
    }
    lines.push(seen)?;
    ends[bus] = seen.end;
    Ok(())
}
