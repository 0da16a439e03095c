ghost use Rattle.std.specs.Prelude.{◌≡◌, ℕ, ◌<◌, ◌≤◌, ◌↔◌, length};
ghost use Rattle.std.specs.Prelude.{slice_index, IsTrue, IsSome, IfSome};
ghost use Rattle.std.specs.List.{list_all};
ghost use Rattle.board_model.specs.Names.{is_name, is_name_start, is_name_byte};

use arrayvec::ArrayString;
use std::marker::Model;

/// The name of a target or a master: 1 to 16 letters, digits, `_` and `-`, a letter first.
#[derive(Debug, Drop)]
pub struct Name {
    text: ArrayString<16>,
}

impl Model for Name {
    ghost use Rattle.std.specs.Prelude.{ℕ, List, IsTrue};
    ghost use Rattle.board_model.specs.Names.{is_name};

    ghost Value = { List ℕ };

    ghost view = { λ name. name.text.bytes };

    ghost invariant = { λ name. IsTrue (is_name name.text.bytes) };
}

impl Name {
    /// The name of these bytes, if they have the form of a name.
    pub fn new(bytes: &[u8]) -> Option<Name>
        ensures exact { IsSome result ↔ IsTrue (is_name bytes.now) }
        ensures value { IfSome result (λ name. name ≡ bytes.now) }
    {
        if !is_well_formed(bytes) {
            return None;
        }
        Some(Name {
            text: ascii_text(bytes),
        })
    }

    /// Its bytes, which are ASCII.
    pub fn bytes(&self) -> &[u8]
        ensures value { result.now ≡ self.now }
        ensures form { IsTrue (is_name self.now) }
    {
        self.text.as_str().as_bytes()
    }

    /// Its text.
    pub fn as_str(&self) -> &str
        ensures value { result.now ≡ self.now }
        ensures form { IsTrue (is_name self.now) }
    {
        self.text.as_str()
    }
}

fn is_well_formed(bytes: &[u8]) -> bool
    ensures { result ≡ is_name bytes.now }
{
    match bytes.split_first() {
        None => false,
        Some((first, rest)) => is_first(*first) && rest.len() <= 15 && are_later(rest),
    }
}

fn is_first(byte: u8) -> bool
    ensures { result ≡ is_name_start byte }
{
    byte.is_ascii_alphabetic()
}

fn are_later(bytes: &[u8]) -> bool
    ensures { result ≡ list_all is_name_byte bytes.now }
{
    bytes.iter().all(|byte| is_later(*byte))
}

fn is_later(byte: u8) -> bool
    ensures { result ≡ is_name_byte byte }
{
    byte.is_ascii_alphanumeric() || byte == b'_' || byte == b'-'
}

fn ascii_text(bytes: &[u8]) -> ArrayString<16>
    requires short { length bytes.now ≤ 16 }
    requires ascii { (k : ℕ) → slice_index bytes.now k < 128 }
    ensures { result.bytes ≡ bytes.now }
{
    let mut text = ArrayString::new();
    for byte in bytes {
        text.push(char::from(*byte));
    }
    text
}
