//! `import`: the board text of a machine of which `lspci` wrote, or why what it wrote is refused.
mod answer;

pub use answer::answer_import;
