//! The ordering table of a bridge, after appendix E of the PCI Local Bus Specification 2.2: which
//! transaction may pass which older one that goes the same way through the bridge. Yes/No is read
//! as Yes (`specs/Order.antt`).
#![tactic(auto)]

ghost use Rattle.std.specs.Prelude.{◌≡◌, ◌↔◌, IsTrue, IsNone, All, false, not, position};
ghost use Rattle.pci_command.specs.declared.command.Kind.{Kind};
ghost use Rattle.pci_command.specs.declared.command.Kind.TheVariants.{Pmw};
ghost use Rattle.order_table.specs.Order.{columns, table, may_pass};

use pci_command::Kind;

/// An entry of the table: the row must not, must be able to, or may but need not pass the column.
#[derive(Clone, Copy, Debug, PartialEq, Eq)]
pub enum Entry {
    No,
    Yes,
    YesOrNo,
}

/// The entry of the table for a transaction of the row and an older one of the column, both going
/// the same way through one bridge (PCI Local Bus Specification 2.2, appendix E).
pub fn entry_at(row: Kind, column: Kind) -> Entry
    ensures { result ≡ table row column }
{
    const NO: Entry = Entry::No;
    const YES: Entry = Entry::Yes;
    const MAY: Entry = Entry::YesOrNo;
    match row {
        Kind::Pmw => in_column(column, NO, YES, YES, YES, YES),
        Kind::Drr => in_column(column, NO, MAY, MAY, MAY, MAY),
        Kind::Dwr => in_column(column, NO, MAY, MAY, MAY, MAY),
        Kind::Drc => in_column(column, NO, YES, YES, MAY, MAY),
        Kind::Dwc => in_column(column, MAY, YES, YES, MAY, MAY),
    }
}

/// The entry of a row in this column; the row's entries stand from left to right.
fn in_column(column: Kind, pmw: Entry, drr: Entry, dwr: Entry, drc: Entry, dwc: Entry) -> Entry
    ensures { result ≡ columns pmw drr dwr drc dwc column }
{
    match column {
        Kind::Pmw => pmw,
        Kind::Drr => drr,
        Kind::Dwr => dwr,
        Kind::Drc => drc,
        Kind::Dwc => dwc,
    }
}

/// Whether a transaction of the row may pass an older one of the column, where the table's Yes/No
/// is read as Yes.
pub fn may_pass(row: Kind, column: Kind) -> bool
    ensures { result ≡ may_pass row column }
{
    match entry_at(row, column) {
        Entry::No => false,
        Entry::Yes | Entry::YesOrNo => true,
    }
}

/// The place, from 0, of the first of the older transactions that the item may not pass. No word of
/// the program calls it.
pub fn first_blocker(item: Kind, older: &[Kind]) -> Option<usize>
    ensures place { result ≡ position (λ kind. not (may_pass item kind)) older.now }
    ensures none { IsNone result ↔ All (λ kind. IsTrue (may_pass item kind)) older.now }
{
    older.iter().position(|kind| !may_pass(item, *kind))
}

/// What a transaction may not pass is a posted write: whoever looks at the older posted writes has
/// looked at all that may be in the way. A function with an empty body states a law; who needs it
/// calls it.
pub fn posted_writes_alone_are_in_the_way()
    ensures { (row column : Kind) → may_pass row column ≡ false → column ≡ Pmw }
{}
