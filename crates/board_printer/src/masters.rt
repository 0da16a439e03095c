ghost use Rattle.std.specs.Prelude.{◌≡◌, [], ◌∷◌, ◌++◌, map, OnOk, string_bytes};
ghost use Rattle.std.specs.List.{flat_map};
ghost use Rattle.board_printer.specs.Lines.{spaced, line_text, text_of};
ghost use Rattle.board_printer.specs.Numbers.{phase_text};
ghost use Rattle.board_printer.specs.Masters.{write_line, op_line, master_line, master_lines};

use crate::spaces::{command_word, poll_word};
use crate::{Address, DataWord, HexWord};
use board_model::{Master, Op};
use pci_command::{Command, Phase};
use std::alloc::AllocError;

/// The lines of the masters, in order.
pub(crate) fn print_masters(text: &mut String, masters: &[Master]) -> Result<(), AllocError>
    ensures { OnOk result
        (string_bytes text.new
        ≡ string_bytes text.old ++ text_of (flat_map master_lines masters.now)) }
{
    for master in masters {
        print_master(text, master)?;
    }
    Ok(())
}

fn print_master(text: &mut String, master: &Master) -> Result<(), AllocError>
    ensures { OnOk result
        (string_bytes text.new ≡ string_bytes text.old ++ text_of (master_lines master.now)) }
{
    writeln!(text, "master {} on {}", master.name.as_str(), master.bus)?;
    print_ops(text, master.ops.as_slice())
}

fn print_ops(text: &mut String, ops: &[Op]) -> Result<(), AllocError>
    ensures { OnOk result
        (string_bytes text.new ≡ string_bytes text.old ++ text_of (map op_line ops.now)) }
{
    for op in ops {
        print_op(text, op)?;
    }
    Ok(())
}

fn print_op(text: &mut String, op: &Op) -> Result<(), AllocError>
    ensures { OnOk result
        (string_bytes text.new ≡ string_bytes text.old ++ line_text (op_line op.now)) }
{
    match op {
        Op::Read { command, address } => writeln!(
            text,
            "{} {}",
            command_word(*command),
            Address(*address)
        ),
        Op::Write {
            command,
            address,
            phases,
        } => { print_write(text, *command, *address, phases.as_slice()) }
        Op::CfgRead {
            bus,
            device,
            register,
        } => {
            writeln!(
                text,
                "{} {bus} {device} {register}",
                command_word(Command::CfgRead)
            )
        }
        Op::CfgWrite {
            bus,
            device,
            register,
            phase,
        } => {
            let word = command_word(Command::CfgWrite);
            writeln!(
                text,
                "{word} {bus} {device} {register} {}",
                DataWord(*phase)
            )
        }
        Op::Poll {
            space,
            address,
            want,
            tries,
        } => writeln!(
            text,
            "{} {} {} {} {tries}",
            poll_word(*space, want.differs),
            Address(*address),
            HexWord(want.mask),
            HexWord(want.wanted)
        ),
    }
}

fn print_write(
    text: &mut String,
    command: Command,
    address: u64,
    phases: &[Phase],
) -> Result<(), AllocError>
    ensures { OnOk result
        (string_bytes text.new
        ≡ string_bytes text.old ++ line_text (write_line command address phases.now)) }
{
    write!(text, "{} {}", command_word(command), Address(address))?;
    print_phases(text, phases)?;
    writeln!(text)
}

fn print_phases(text: &mut String, phases: &[Phase]) -> Result<(), AllocError>
    ensures { OnOk result
        (string_bytes text.new ≡ string_bytes text.old ++ spaced (map phase_text phases.now) []) }
{
    for phase in phases {
        print_phase(text, phase)?;
    }
    Ok(())
}

fn print_phase(text: &mut String, phase: &Phase) -> Result<(), AllocError>
    ensures { OnOk result
        (string_bytes text.new ≡ string_bytes text.old ++ 32 ∷ phase_text phase.now) }
{
    write!(text, " {}", DataWord(*phase))
}
