ghost use Rattle.std.specs.Prelude.{◌≡◌, IsTrue, IfSome, find};
ghost use Rattle.std.specs.Option.{option_map};
ghost use Rattle.program_pages.specs.Pages.{has_code};

use crate::order::put_order;
use crate::{DEVICE_PAGES, Fault, LINE_PAGES, LOG_PAGES, MACHINE_PAGES, TRACE_PAGES, TREE_PAGES};
use history_model::Why;
use std::fmt;

/// What one code means.
#[derive(Clone, Copy, Debug)]
pub struct Page {
    /// The code as the program tells it: a letter and a number.
    pub code: &'static str,
    /// The fault: its text is one sentence.
    pub fault: Fault,
    /// The rule that is broken.
    pub rule: &'static str,
    /// A text that has this fault first: empty where none of a few lines is known.
    pub example: &'static str,
}

/// The page of a code, in upper or lower case. None exactly where there is none.
pub fn explain(code: &str) -> Option<&'static Page>
    ensures { IfSome result (λ page. IsTrue (has_code code.now page.now)) }
{
    for pages in tables() {
        if let Some(page) = find_page(pages, code) {
            return Some(page);
        }
    }
    None
}

/// All pages: of lines and trees of boards, of devices, of traces, of what `lspci` wrote, and of
/// logs.
pub(crate) fn tables() -> [&'static [Page]; 6] {
    [
        line_pages(),
        tree_pages(),
        device_pages(),
        trace_pages(),
        machine_pages(),
        log_pages(),
    ]
}

/// The pages of lines, as a slice: what names a table itself takes long to prove, by the square of
/// its length.
fn line_pages() -> &'static [Page] {
    &LINE_PAGES
}

fn tree_pages() -> &'static [Page] {
    &TREE_PAGES
}

fn device_pages() -> &'static [Page] {
    &DEVICE_PAGES
}

fn trace_pages() -> &'static [Page] {
    &TRACE_PAGES
}

fn machine_pages() -> &'static [Page] {
    &MACHINE_PAGES
}

fn log_pages() -> &'static [Page] {
    &LOG_PAGES
}

/// The first of the pages that has this code, in upper or lower case.
pub fn find_page<'a>(pages: &'a [Page], code: &str) -> Option<&'a Page>
    ensures first { option_map (λ page. page.now) result ≡ find (has_code code.now) pages.now }
    ensures found { IfSome result (λ page. IsTrue (has_code code.now page.now)) }
{
    match pages {
        [] => None,
        [page, rest @ ..] => {
            if has_code(page, code) {
                Some(page)
            } else {
                find_page(rest, code)
            }
        }
    }
}

#[tactic(auto, unfolding(crate::specs::Pages::has_code))]
fn has_code(page: &Page, code: &str) -> bool
    ensures { result ≡ has_code code.now page.now }
{
    page.code.eq_ignore_ascii_case(code)
}

impl Page {
    /// Whether who may pass whom decides it.
    fn has_table(&self) -> bool {
        matches!(
            self.fault,
            Fault::Cause(Why::NotPresented) | Fault::Cause(Why::GetsRetry)
        )
    }
}

impl fmt::Display for Page {
    fn fmt<W: fmt::Write>(&self, f: &mut fmt::Formatter<W>) -> fmt::Result {
        writeln!(f, "{}: {}\n\n{}", self.code, self.fault, self.rule)?;
        if !self.example.is_empty() {
            write!(f, "\nExample:\n\n{}", self.example)?;
        }
        if self.has_table() {
            f.write_str("\n")?;
            put_order(f)?;
        }
        Ok(())
    }
}
