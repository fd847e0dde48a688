// Names of functions and variables.

ghost use Rattle.std.specs.Prelude.{◌≡◌, IsSome, IfSome, IfOk, ◌↔◌};
ghost use Rattle.std.specs.List.{list_all};
ghost use Rattle.br_base.specs.Name.{IsName, is_name, starts_name, continues_name};

use crate::failure::NoMemory;
use std::alloc::Global;
use std::marker::Model;

/// A name of a source text or an image: a letter or `_`, and then letters, digits and `_`.
/// Contracts see the list of its bytes.
#[derive(Debug, Drop)]
pub struct Name {
    bytes: Vec<u8>,
}

impl Model for Name {
    ghost use Rattle.std.specs.Prelude.{ℕ, List};
    ghost use Rattle.std.specs.Coded.{coded_list, coded_ℕ};

    ghost Value = { List ℕ };

    ghost coded = { coded_list coded_ℕ };

    ghost use Rattle.br_base.specs.Name.{IsName};

    ghost view = { λ n. n.bytes.items };

    ghost invariant = { λ n. IsName n.bytes.items };
}

impl Name {
    /// The name of these bytes. None where they are no name, and then the bytes are dropped.
    pub fn from_bytes(bytes: Vec<u8>) -> Option<Name>
        ensures name { IsSome result ↔ IsName bytes.items }
        ensures value { IfSome result (λ n. n ≡ bytes.items) }
    {
        if is_name(&bytes) {
            Some(Name { bytes })
        } else {
            None
        }
    }

    /// The bytes of the name.
    pub fn bytes(&self) -> &[u8]
        ensures value { result.now ≡ self.now }
        ensures name { IsName self.now }
    {
        self.bytes.as_slice()
    }

    /// An equal name, on the same allocator.
    pub fn copy(&self) -> Result<Name, NoMemory>
        ensures { IfOk result (λ n. n ≡ self.now) }
    {
        Ok(Name {
            bytes: self.bytes.clone()?,
        })
    }
}

/// Whether a byte may stand first in a name.
pub fn starts_name(b: u8) -> bool
    ensures { result ≡ starts_name b }
{
    b.is_ascii_alphabetic() || b == b'_'
}

/// Whether a byte may stand in a name after its first.
pub fn continues_name(b: u8) -> bool
    ensures { result ≡ continues_name b }
{
    b.is_ascii_alphanumeric() || b == b'_'
}

/// Whether the bytes are a name.
pub fn is_name(bytes: &[u8]) -> bool
    ensures { result ≡ is_name bytes.now }
{
    match bytes.split_first() {
        None => false,
        Some((first, rest)) => starts_name(*first) && all_continue(rest),
    }
}

fn all_continue(bytes: &[u8]) -> bool
    ensures { result ≡ list_all continues_name bytes.now }
{
    bytes.iter().all(|b| continues_name(*b))
}
