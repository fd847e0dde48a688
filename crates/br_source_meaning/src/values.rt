// The words of expressions.

ghost use Rattle.std.specs.Prelude.{◌≡◌, IfOk};
ghost use Rattle.std.specs.Option.{option_map};
ghost use Rattle.br_words.specs.Size.{size_of};
ghost use Rattle.br_bytes.specs.Buffers.{table_number};
ghost use Rattle.br_source_meaning.specs.Values.{value, values};
ghost use Rattle.br_source_meaning.specs.Numbered.{named_expr, named_exprs};
ghost use Rattle.br_source_meaning.specs.Running.{names_of, locals_in};

use crate::numbered::NumberedExpr;
use crate::variables::Variables;
use br_base::NoMemory;
use br_bytes::ByteMap;
use br_words::{Size, op};
use std::alloc::Global;

/// The word that an expression stands for, where it stands for one.
pub(crate) fn value(variables: &Variables, memory: &ByteMap, e: &NumberedExpr) -> Option<u32>
    ensures { result ≡ value (locals_in variables.now) memory.now
        (named_expr (names_of variables.now) e.now) }
{
    match e {
        NumberedExpr::Literal(n) => Some(*n),
        NumberedExpr::Var(k) => variables.get(*k),
        NumberedExpr::Load(size, a) => {
            let a = value(variables, memory, a.get())?;
            memory.read(a, *size)
        }
        NumberedExpr::Table(size, bytes, i) => {
            let i = value(variables, memory, i.get())?;
            table_number(bytes, i, *size)
        }
        NumberedExpr::Op(o, a, b) => {
            let a = value(variables, memory, a.get())?;
            let b = value(variables, memory, b.get())?;
            Some(op(*o, a, b))
        }
        NumberedExpr::Ite(test, a, b) => {
            if value(variables, memory, test.get())? == 0 {
                value(variables, memory, b.get())
            } else {
                value(variables, memory, a.get())
            }
        }
    }
}

// The bytes at an offset of a table as a number, the lowest first, where all lie in the table.
fn table_number(bytes: &[u8], i: u32, size: Size) -> Option<u32>
    ensures { result ≡ table_number bytes.now i (size_of size) }
{
    let i = i as usize;
    match size {
        Size::One => match bytes.get(i..i + 1)? {
            [first] => Some(u32::from(*first)),
            _ => None,
        },
        Size::Two => match bytes.get(i..i + 2)? {
            [first, second] => Some(u32::from(*first) + 256 * u32::from(*second)),
            _ => None,
        },
        Size::Four => match bytes.get(i..i + 4)? {
            [first, second, third, fourth] => {
                let high = u32::from(*third) + 256 * u32::from(*fourth);
                Some(u32::from(*first) + 256 * (u32::from(*second) + 256 * high))
            }
            _ => None,
        },
    }
}

/// The words of expressions in turn, where each stands for one.
pub(crate) fn values(
    alloc: Global,
    variables: &Variables,
    memory: &ByteMap,
    es: &[NumberedExpr],
) -> Result<Option<Vec<u32>>, NoMemory>
    ensures { IfOk result (λ vs. option_map (λ v. v.items) vs
        ≡ values (locals_in variables.now) memory.now
        (named_exprs (names_of variables.now) es.now)) }
{
    let mut words = Vec::new(alloc);
    for e in es {
        match value(variables, memory, e) {
            Some(word) => words.push(word)?,
            None => return Ok(None),
        }
    }
    Ok(Some(words))
}
