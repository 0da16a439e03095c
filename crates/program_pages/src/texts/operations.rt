use board_model::{Board, Master, Op};
use board_text::decimal;
use pci_command::NoMemory;
use std::alloc::Global;

/// What is said of an operation that the board does not have, if it is something.
pub fn operation_text(alloc: Global, board: &Board, op: &[u8]) -> Result<Option<String>, NoMemory> {
    let mut parts = op.split(|byte| *byte == b'.');
    let name = parts.next().unwrap_or(b"");
    let index = parts.next().unwrap_or(b"");
    let has_try = parts.next().is_some();
    let Some(master) = master_of(board, name) else {
        let text = String::from_str(alloc, "no master of the board has this name")?;
        return Ok(Some(text));
    };
    match op_at(master, index) {
        None => Ok(Some(operations_of(alloc, master)?)),
        Some((index, op)) => tries_text(alloc, master.name.as_str(), index, op, has_try),
    }
}

/// The master of this name.
pub fn master_of<'a>(board: &'a Board, name: &[u8]) -> Option<&'a Master> {
    let masters = board.masters.as_slice();
    masters.iter().find(|master| master.name.bytes() == name)
}

/// The operation of this index, in decimal, of a master; and the index.
pub fn op_at<'a>(master: &'a Master, index: &[u8]) -> Option<(u32, &'a Op)> {
    let index = decimal(index).ok()?;
    let op = master.ops.as_slice().get(index as usize)?;
    Some((index, op))
}

/// Which operations a master has.
pub fn operations_of(alloc: Global, master: &Master) -> Result<String, NoMemory> {
    let name = master.name.as_str();
    match master.ops.as_slice().len() {
        0 => Ok(format!(in alloc; "{name} has no operations")?),
        count => {
            let last = count - 1;
            Ok(format!(in alloc; "{name} has operations 0 to {last}")?)
        }
    }
}

/// Which tries an operation has.
fn tries_text(
    alloc: Global,
    name: &str,
    index: u32,
    op: &Op,
    has_try: bool,
) -> Result<Option<String>, NoMemory> {
    match op {
        Op::Poll { tries, .. } => {
            let last = tries.saturating_sub(1);
            let poll = format!(in alloc; "{name}.{index}")?;
            Ok(Some(format!(in alloc; "{poll} is a poll: {poll}.TRY, TRY from 0 to {last}")?))
        }
        _ if has_try => {
            Ok(Some(format!(in alloc; "{name}.{index} is no poll, and has no tries")?))
        }
        _ => Ok(None),
    }
}
