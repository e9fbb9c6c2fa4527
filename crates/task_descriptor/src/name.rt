//! Names of labels and tasks.

use std::marker::Model;

/// The most bytes of a name.
pub const MOST_NAME: usize = 32;

/// A name: a letter or `_`, then letters, digits and `_`; 1 to 32 bytes.
// The bytes after the name are 0, so that equal names have equal fields.
#[derive(Clone, Copy, Debug, PartialEq, Eq, Hash)]
pub struct Name {
    padded: [u8; 32],
    len: usize,
}

impl Model for Name {
    ghost use Rattle.std.specs.Prelude.{ℕ, List, length, replicate, take, ◌++◌, ◌-◌, ◌≡◌};
    ghost use Rattle.std.specs.Coded.{coded_ℕ, coded_list};

    ghost Value = { List ℕ };

    ghost coded = { coded_list coded_ℕ };

    ghost use Rattle.task_descriptor.specs.Names.{NameFields};
    ghost use Rattle.task_descriptor.specs.NameFacts.{same_inside};

    ghost view = { λ a. take a.len a.padded };

    ghost invariant = { λ a. NameFields a.padded a.len };

    ghost inverse = { λ n. record { padded = n ++ replicate (32 - length n) 0; len = length n } };

    ghost inverse_ok = { λ a h. same_inside a.padded a.len h };
}

impl Name {
    ghost use Rattle.std.specs.Prelude.{◌≡◌, ◌↔◌, IsSome, IfSome, IsTrue};
    ghost use Rattle.task_descriptor.specs.Names.{is_name};

    /// The name that these bytes spell; `None` if they spell no name.
    pub fn new(bytes: &[u8]) -> Option<Name>
        ensures some { IsSome result ↔ IsTrue (is_name bytes.now) }
        ensures value { IfSome result (λ name. name ≡ bytes.now) }
    {
        if !is_name(bytes) {
            return None;
        }
        let mut padded = [0; 32];
        padded[..bytes.len()].copy_from_slice(bytes);
        Some(Name {
            padded,
            len: bytes.len(),
        })
    }

    /// The bytes of the name, 1 to 32 of them.
    pub fn bytes(&self) -> &[u8]
        ensures bytes { result.now ≡ self.now }
        ensures name { IsTrue (is_name self.now) }
    {
        &self.padded[..self.len]
    }

    /// The name as text: its bytes are ASCII.
    pub fn as_str(&self) -> &str
        ensures text { result.now ≡ self.now }
    {
        match str::from_utf8(self.bytes()) {
            Ok(text) => text,
            Err(_) => unreachable!(),
        }
    }
}

ghost use Rattle.std.specs.Prelude.{◌≡◌};
ghost use Rattle.std.specs.List.{list_all};
ghost use Rattle.task_descriptor.specs.Names.{is_name as is_name_of, begins as begins_of, begins_name as begins_name_of, continues_name as continues_name_of};

fn is_name(bytes: &[u8]) -> bool
    ensures { result ≡ is_name_of bytes.now }
{
    bytes.len() <= MOST_NAME && begins(bytes.first().copied()) && all_continue(bytes)
}

fn begins(first: Option<u8>) -> bool
    ensures { result ≡ begins_of first }
{
    match first {
        Some(byte) => begins_name(byte),
        None => false,
    }
}

fn all_continue(bytes: &[u8]) -> bool
    ensures { result ≡ list_all continues_name_of bytes.now }
{
    let mut all = true;
    for byte in bytes {
        all &= continues_name(*byte);
    }
    all
}

/// Whether a name may begin with this byte: an ASCII letter or `_`.
pub fn begins_name(byte: u8) -> bool
    ensures { result ≡ begins_name_of byte }
{
    byte.is_ascii_alphabetic() || byte == b'_'
}

/// Whether a name may have this byte after its first: an ASCII letter, a digit or `_`.
pub fn continues_name(byte: u8) -> bool
    ensures { result ≡ continues_name_of byte }
{
    byte.is_ascii_alphanumeric() || byte == b'_'
}
