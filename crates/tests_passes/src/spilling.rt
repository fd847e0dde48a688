// Programs in register form: where the words of names stand, and how words are passed.

use br_base::Name;
use br_flatimp::{FlatFunc, FlatProgram, Operand, Stmt, well_formed};
use br_spill::spill;
use br_words::BinOp;
use sqlite_items::Items;
use std::alloc::Global;
use std::process::Abort;
use std::test::Fail;

fn function(
    alloc: Global,
    name: &str,
    args: &[u32],
    results: &[u32],
    names: u32,
    s: Stmt,
) -> Result<FlatFunc, Fail> {
    let mut body = Items::new(alloc);
    body.push(s)?;
    Ok(FlatFunc {
        name: Name::from_bytes(Vec::from_slice(alloc, name.as_bytes())?).ok_or("no name")?,
        args: Items::from_slice(alloc, args)?,
        results: Items::from_slice(alloc, results)?,
        names,
        body,
    })
}

// The bytes of the buffer around the body of a function in register
// form, or 0, and the statements in it.
fn size_of(body: &[Stmt]) -> (u32, usize) {
    match body.first() {
        Some(Stmt::Stackalloc(_, bytes, inner)) => (*bytes, inner.len()),
        _ => (0, body.len()),
    }
}

fn registers_of(
    rt: &impl Abort,
    alloc: Global,
    funcs: Items<FlatFunc>,
) -> Result<FlatProgram, Fail> {
    let p = FlatProgram { funcs };
    let formed = well_formed(&p);
    assert!(rt; formed, "not well formed");
    Ok(spill(alloc, p)?)
}

// One argument, the first name, is added to the last name, which is the result. With 21 names at
// most the three statements are a copy, the sum and a copy. A word of the buffer is loaded, stored
// and passed by a statement each, and by three each past the first 512 words.
#[test]
fn names_in_registers_and_in_the_buffer(rt: HostRuntime) -> Result<(), Fail> {
    let alloc = rt.alloc();
    let rows = [
        (1, 0, 3),
        (18, 0, 3),
        (19, 0, 3),
        (21, 0, 3),
        (22, 16, 5),
        (26, 32, 5),
        (27, 36, 5),
        (40, 88, 5),
        (530, 2048, 5),
        (531, 2052, 11),
        (2000, 7928, 11),
    ];
    for (names, bytes, statements) in rows {
        assert!(rt; names > 0);
        let last = names - 1;
        let sum = Stmt::Op(last, BinOp::Add, 0, Operand::Name(last));
        let mut funcs = Items::new(alloc);
        funcs.push(function(alloc, "f", &[0], &[last], names, sum)?)?;
        let made = registers_of(&rt, alloc, funcs)?;
        let f = made.funcs.as_slice().first().ok_or("no function")?;
        assert_eq!(rt; size_of(f.body.as_slice()), (bytes, statements));
        assert_eq!(rt; f.names, 32);
    }
    Ok(())
}

// Eight words are copied to the registers that pass them, and eight are copied from them.
#[test]
fn eight_words_are_passed(rt: HostRuntime) -> Result<(), Fail> {
    let alloc = rt.alloc();
    let first: &[u32] = &[0, 1, 2, 3, 4, 5, 6, 7];
    let second: &[u32] = &[8, 9, 10, 11, 12, 13, 14, 15];
    let call = Stmt::Call(
        Items::from_slice(alloc, first)?,
        0,
        Items::from_slice(alloc, second)?,
    );
    let mut funcs = Items::new(alloc);
    funcs.push(function(alloc, "same", first, first, 8, Stmt::Copy(0, 0))?)?;
    funcs.push(function(alloc, "caller", &[], &[], 16, call)?)?;
    let made = registers_of(&rt, alloc, funcs)?;
    for f in made.funcs.as_slice() {
        assert_eq!(rt; size_of(f.body.as_slice()), (0, 17));
    }
    Ok(())
}
