use crate::Page;
use crate::page::tables;
use std::fmt;

/// All codes, a line each, with its sentence: of boards, of devices, of traces, of what `lspci`
/// wrote, and of logs.
#[derive(Clone, Copy, Debug)]
pub struct Codes;

impl fmt::Display for Codes {
    fn fmt<W: fmt::Write>(&self, f: &mut fmt::Formatter<W>) -> fmt::Result {
        for pages in tables() {
            write_all(pages, f)?;
        }
        Ok(())
    }
}

fn write_all<W: fmt::Write>(pages: &[Page], f: &mut fmt::Formatter<W>) -> fmt::Result {
    for page in pages {
        writeln!(f, "{}: {}", page.code, page.fault)?;
    }
    Ok(())
}
