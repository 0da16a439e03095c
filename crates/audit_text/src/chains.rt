ghost use Rattle.std.specs.Prelude.{◌≡◌, [], ◌∷◌, ◌++◌, IfOk, OnOk};
ghost use Rattle.law_audit.specs.Chains.{joined};
ghost use Rattle.audit_text.specs.Found.{since_of, shown_to, chain_to, chain_from};
ghost use Rattle.audit_text.specs.Search.{TellsAlways};

use crate::ledger::Ledger;
use crate::search::first_shown;
use pci_command::{NoMemory, OpId, same_op};
use std::alloc::Global;

fn shown_to(ledger: &Ledger, write: OpId, op: OpId) -> Option<OpId>
    requires { TellsAlways ledger.now write }
    ensures { result ≡ shown_to ledger.now write op }
{
    match ledger.got(op) {
        None => None,
        Some(reading) => first_shown(ledger, &reading, write),
    }
}

/// The chain from the write to the operation with which its master came to know of it, over at most
/// so many masters.
fn chain_to(
    ledger: &Ledger,
    masters: usize,
    write: OpId,
    op: OpId,
    chain: &mut Vec<OpId>,
) -> Result<(), NoMemory>
    requires { TellsAlways ledger.now write }
    ensures { OnOk result
        (chain.new.items ≡ chain.old.items ++ chain_to masters ledger.now write op) }
{
    if masters == 0 {
        return Ok(());
    }
    if same_op(op, write) {
        return push(chain, write);
    }
    match shown_to(ledger, write, op) {
        None => push(chain, op),
        Some(seen) => match ledger.since(write, seen.master) {
            None => push_two(chain, seen, op),
            Some(first) => {
                chain_to(ledger, masters - 1, write, first, chain)?;
                push_joined(chain, first, seen)?;
                push(chain, op)
            }
        },
    }
}

fn push(chain: &mut Vec<OpId>, op: OpId) -> Result<(), NoMemory>
    ensures { OnOk result (chain.new.items ≡ chain.old.items ++ op ∷ []) }
{
    chain.push(op)?;
    Ok(())
}

fn push_two(chain: &mut Vec<OpId>, first: OpId, second: OpId) -> Result<(), NoMemory>
    ensures { OnOk result (chain.new.items ≡ chain.old.items ++ first ∷ second ∷ []) }
{
    chain.push(first)?;
    chain.push(second)?;
    Ok(())
}

/// An operation behind a chain that ends with the last; one that would follow itself is written
/// once.
fn push_joined(chain: &mut Vec<OpId>, last: OpId, op: OpId) -> Result<(), NoMemory>
    ensures { OnOk result (chain.new.items ≡ joined chain.old.items last op) }
{
    if same_op(last, op) {
        Ok(())
    } else {
        push(chain, op)
    }
}

/// How the read was told of the write.
pub(crate) fn chain_from(
    alloc: Global,
    ledger: &Ledger,
    masters: usize,
    write: OpId,
    read: OpId,
) -> Result<Vec<OpId>, NoMemory>
    requires { TellsAlways ledger.now write }
    ensures { IfOk result (λ chain. chain.items ≡
        chain_from masters ledger.now write read (since_of ledger.now write read.master)) }
{
    let mut chain = Vec::new(alloc);
    match ledger.since(write, read.master) {
        None => Ok(chain),
        Some(first) => {
            chain_to(ledger, masters, write, first, &mut chain)?;
            push_joined(&mut chain, first, read)?;
            Ok(chain)
        }
    }
}
