// The kinds of trees that hold no command and no expression: names, sizes and bytes.

ghost use Rattle.std.specs.Prelude.{◌≡◌, IfOk, [], map};
ghost use Rattle.std.specs.List.{list_any};
ghost use Rattle.std.specs.Str.{bytes_eq};
ghost use Rattle.br_sexpr.specs.declared.tree.Tree.{out-Tree};
ghost use Rattle.br_syntax.specs.declared.faults.ShapeFault.TheVariants.{BadForm};
ghost use Rattle.br_syntax.specs.Shaped.{all};
ghost use Rattle.br_syntax.specs.Denotes.{offset_of, word_of, name, names, names_after};
ghost use Rattle.br_syntax.specs.Denotes.{name_among, buffer_size, bytes, byte};

use crate::faults::ShapeFault;
use crate::shaped::{Shaped, push};
use crate::word::{offset, word};
use br_base::{Name, NoMemory};
use br_sexpr::Tree;
use sqlite_items::Items;
use std::alloc::Global;

/// Up to this many names stand in a list of names, and arguments in a call or an interaction.
pub const MOST_NAMES: usize = 8;

// The largest size of a buffer.
const LARGEST_BUFFER: u32 = 65536;

pub fn bad_form(tree: &Tree) -> ShapeFault
    ensures { result ≡ BadForm (offset_of tree.now) }
{
    ShapeFault::BadForm(offset(tree))
}

/// A place that asks for a name.
pub fn name(tree: &Tree) -> Result<Shaped<Name>, NoMemory>
    ensures { IfOk result (λ r. r ≡ name tree.now) }
{
    match tree {
        Tree::Name { text, .. } => Ok(Ok(text.copy()?)),
        Tree::Number { at, .. } | Tree::List { at, .. } => Ok(Err(ShapeFault::BadForm(*at))),
    }
}

/// A place that asks for a list of names.
pub fn names(alloc: Global, tree: &Tree) -> Result<Shaped<Items<Name>>, NoMemory>
    ensures { IfOk result (λ r. r ≡ names tree.now) }
{
    match tree {
        Tree::List { items, .. } => name_items(alloc, items.as_slice()),
        Tree::Name { at, .. } | Tree::Number { at, .. } => Ok(Err(ShapeFault::BadForm(*at))),
    }
}

#[tactic(auto, using(crate::proofs::Joined::joins))]
fn name_items(alloc: Global, items: &[Tree]) -> Result<Shaped<Items<Name>>, NoMemory>
    ensures { IfOk result (λ r. r ≡ names_after [] items.now) }
{
    let mut found = Ok(Items::new(alloc));
    for (i, item) in items.iter().enumerate() {
        found = push(found, name_after(&items[..i], item)?)?;
    }
    Ok(found)
}

// An item of a list of names, after these items.
fn name_after(earlier: &[Tree], item: &Tree) -> Result<Shaped<Name>, NoMemory>
    ensures { IfOk result (λ r. r ≡ name_among earlier.now (out-Tree item.now)) }
{
    let Tree::Name { at, text } = item else {
        return Ok(Err(bad_form(item)));
    };
    if earlier.len() == MOST_NAMES {
        return Ok(Err(ShapeFault::TooMany(*at)));
    }
    if stands_among(text.bytes(), earlier) {
        return Ok(Err(ShapeFault::Repeated(*at)));
    }
    Ok(Ok(text.copy()?))
}

fn stands_among(name: &[u8], items: &[Tree]) -> bool
    ensures { result ≡ list_any (λ t. bytes_eq (word_of t) name.now) items.now }
{
    items.iter().any(|item| word(item) == name)
}

/// A place that asks for the size of a buffer.
pub fn buffer_size(tree: &Tree) -> Shaped<u32>
    ensures { result ≡ buffer_size tree.now }
{
    match tree {
        Tree::Number { at, value } => {
            if *value % 4 == 0 && *value <= LARGEST_BUFFER {
                Ok(*value)
            } else {
                Err(ShapeFault::BadSize(*at))
            }
        }
        Tree::Name { at, .. } | Tree::List { at, .. } => Err(ShapeFault::BadForm(*at)),
    }
}

/// A place that asks for the bytes of a table.
pub fn bytes(alloc: Global, tree: &Tree) -> Result<Shaped<Items<u8>>, NoMemory>
    ensures { IfOk result (λ r. r ≡ bytes tree.now) }
{
    match tree {
        Tree::List { items, .. } => byte_items(alloc, items.as_slice()),
        Tree::Name { at, .. } | Tree::Number { at, .. } => Ok(Err(ShapeFault::BadForm(*at))),
    }
}

#[tactic(auto, using(crate::proofs::Joined::joins))]
fn byte_items(alloc: Global, items: &[Tree]) -> Result<Shaped<Items<u8>>, NoMemory>
    ensures { IfOk result (λ r. r ≡ all (map byte items.now)) }
{
    let mut found = Ok(Items::new(alloc));
    for item in items {
        found = push(found, byte(item))?;
    }
    Ok(found)
}

fn byte(tree: &Tree) -> Shaped<u8>
    ensures { result ≡ byte tree.now }
{
    match tree {
        Tree::Number { at, value } => {
            if *value <= 255 {
                Ok(*value as u8)
            } else {
                Err(ShapeFault::BadByteValue(*at))
            }
        }
        Tree::Name { at, .. } | Tree::List { at, .. } => Err(ShapeFault::BadForm(*at)),
    }
}
