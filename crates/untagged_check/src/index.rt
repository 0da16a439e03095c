//! Of each dword and each master the writes of the master's program that name the dword, so that
//! the first of them that had not landed before an event is found by a binary search.
mod author;
mod authors;
mod boards;
mod entry;
mod index;
mod words;

pub use index::WriteIndex;
