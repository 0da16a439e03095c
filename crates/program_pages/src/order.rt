//! The ordering table, as it is shown.
use order_table::{Entry, entry_at};
use pci_command::Kind;
use std::fmt;

/// Who may pass whom, both going the same way through one bridge.
pub(crate) fn put_order<W: fmt::Write>(f: &mut fmt::Formatter<W>) -> fmt::Result {
    f.write_str("May a transaction of the row pass an older one of the column?\n\n")?;
    f.write_str("                                PMW     DRR     DWR     DRC     DWC\n")?;
    put_row(f, "PMW posted memory write         ", Kind::Pmw)?;
    put_row(f, "DRR delayed read request        ", Kind::Drr)?;
    put_row(f, "DWR delayed write request       ", Kind::Dwr)?;
    put_row(f, "DRC delayed read completion     ", Kind::Drc)?;
    put_row(f, "DWC delayed write completion    ", Kind::Dwc)
}

fn put_row<W: fmt::Write>(f: &mut fmt::Formatter<W>, name: &str, row: Kind) -> fmt::Result {
    f.write_str(name)?;
    f.write_str(wide(entry_at(row, Kind::Pmw)))?;
    f.write_str(wide(entry_at(row, Kind::Drr)))?;
    f.write_str(wide(entry_at(row, Kind::Dwr)))?;
    f.write_str(wide(entry_at(row, Kind::Drc)))?;
    f.write_str(last(entry_at(row, Kind::Dwc)))
}

/// An entry in its column.
fn wide(entry: Entry) -> &'static str {
    match entry {
        Entry::No => "No      ",
        Entry::Yes => "Yes     ",
        Entry::YesOrNo => "Yes/No  ",
    }
}

/// An entry in the last column.
fn last(entry: Entry) -> &'static str {
    match entry {
        Entry::No => "No\n",
        Entry::Yes => "Yes\n",
        Entry::YesOrNo => "Yes/No\n",
    }
}
