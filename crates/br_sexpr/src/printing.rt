// Printing: from trees to their one text.

ghost use Rattle.std.specs.Prelude.{◌≡◌, ◌∷◌, ◌++◌, [], IfOk, OnOk};
ghost use Rattle.std.specs.Fmt.{decimal};
ghost use Rattle.br_sexpr.specs.Canonical.{canonical, tree_text};

use crate::tree::Tree;
use br_base::NoMemory;
use std::alloc::Global;

/// The canonical text of trees: each tree and one line feed; a name as it is, a number in decimal,
/// a list in parentheses, its items with one space between. Offsets do not count.
pub fn print(alloc: Global, trees: &[Tree]) -> Result<Vec<u8>, NoMemory>
    ensures { IfOk result (λ text. text.items ≡ canonical trees.now) }
{
    let mut text = Vec::new(alloc);
    for tree in trees {
        push_tree(&mut text, tree)?;
        text.push(b'\n')?;
    }
    Ok(text)
}

fn push_tree(text: &mut Vec<u8>, tree: &Tree) -> Result<(), NoMemory>
    ensures { OnOk result (text.new.items ≡ text.old.items ++ tree_text tree.now) }
{
    match tree {
        Tree::Name { text: name, .. } => text.extend_from_slice(name.bytes())?,
        Tree::Number { value, .. } => push_decimal(text, *value)?,
        Tree::List { items, .. } => {
            text.push(b'(')?;
            if let Some((first, others)) = items.as_slice().split_first() {
                push_tree(text, first)?;
                for other in others {
                    text.push(b' ')?;
                    push_tree(text, other)?;
                }
            }
            text.push(b')')?;
        }
    }
    Ok(())
}

fn push_decimal(text: &mut Vec<u8>, value: u32) -> Result<(), NoMemory>
    ensures { OnOk result (text.new.items ≡ text.old.items ++ decimal value) }
{
    let digits = value.to_string(*text.allocator())?;
    text.extend_from_slice(digits.as_bytes())?;
    Ok(())
}
