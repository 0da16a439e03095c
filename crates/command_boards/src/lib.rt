//! The words that write a board, its headers or its outline: `headers`, `combine`, `import`,
//! `tree`.
#![tactic(auto)]

mod combine;
mod headers;
pub mod import;
mod tree;

pub use combine::answer_combine;
pub use headers::answer_headers;
pub use import::answer_import;
pub use tree::answer_tree;
