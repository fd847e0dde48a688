// Texts and what their trees stand for.

use br_base::OrMemory;
use br_sexpr::{MOST_BYTES, Tree, print, read};
use br_syntax::{Cmd, Program, ShapeFault, from_tree, to_tree};
use sqlite_items::Items;
use std::alloc::Global;
use std::test::Fail;

fn trees_of(alloc: Global, text: &str) -> Result<Items<Tree>, Fail> {
    if text.len() > MOST_BYTES {
        return Err(Fail::new("a long text"));
    }
    Ok(read(alloc, text.as_bytes())?)
}

fn program_of(alloc: Global, text: &str) -> Result<Program, Fail> {
    Ok(from_tree(alloc, trees_of(alloc, text)?.as_slice())?)
}

// The fault of shape in a text, if there is one.
fn fault_in(alloc: Global, text: &str) -> Result<Option<ShapeFault>, Fail> {
    match from_tree(alloc, trees_of(alloc, text)?.as_slice()) {
        Ok(_) => Ok(None),
        Err(OrMemory::Fault(fault)) => Ok(Some(fault)),
        Err(OrMemory::Memory) => Err(Fail::new("no memory")),
    }
}

#[test]
fn texts_without_fault(rt: HostRuntime) -> Result<(), Fail> {
    for text in [
        "",
        "(fn f () ())",
        "(fn fn (if) (if) (set if seq))",
        "(fn f () () (stackalloc x 65536))",
        "(fn f () () (set x (table1 (255) 0)))",
        "(fn f (a b c d e f g h) () (call () g 0 0 0 0 0 0 0 0))",
        "(fn f () () (skip) (set x (load1 0)) (unset x) (store4 0 (srs x 1)) (while 0) (seq))",
        "(fn f () () (stackalloc b 8 (interact () g b)) (if 1 (then (skip)) (else)))",
        "(fn ite (ite) (r) (set ite (ite ite (load1 ite) (ite 1 2 3))))",
    ] {
        assert_eq!(rt; fault_in(rt.alloc(), text)?, None, "in {text}");
    }
    Ok(())
}

#[test]
fn the_lowest_fault(rt: HostRuntime) -> Result<(), Fail> {
    for (text, fault) in [
        ("x", ShapeFault::BadForm(0)),
        ("(fn f () () (set x))", ShapeFault::BadForm(12)),
        ("(fn f () () (then))", ShapeFault::BadForm(12)),
        ("(fn f () (r) (set r (ite 1 2)))", ShapeFault::BadForm(20)),
        (
            "(fn f () (r) (set r (ite 1 2 3 4)))",
            ShapeFault::BadForm(20),
        ),
        (
            "(fn f () (r) (set r (ite 1 () (x))))",
            ShapeFault::BadForm(27),
        ),
        ("(fn f () () (ite 1 2 3))", ShapeFault::BadForm(12)),
        ("(fn f () () (if 1 (then) (then)))", ShapeFault::BadForm(25)),
        ("(fn f () () (stackalloc x 6))", ShapeFault::BadSize(26)),
        ("(fn f () () (stackalloc x 65540))", ShapeFault::BadSize(26)),
        (
            "(fn f () () (set x (table1 (256) 0)))",
            ShapeFault::BadByteValue(28),
        ),
        ("(fn f (a b c d e f g h i) ())", ShapeFault::TooMany(23)),
        ("(fn f (a b c d e f g h 1) ())", ShapeFault::BadForm(23)),
        ("(fn f (a b c d e f g h a) ())", ShapeFault::TooMany(23)),
        ("(fn f (a b a) ())", ShapeFault::Repeated(11)),
        (
            "(fn f () () (call () g 0 0 0 0 0 0 0 0 0))",
            ShapeFault::TooMany(39),
        ),
        (
            "(fn f () () (call () g 0 0 0 0 0 0 0 0 ()))",
            ShapeFault::BadForm(39),
        ),
        ("(fn f (a a) () (skip 0))", ShapeFault::Repeated(9)),
        ("(fn f () () (stackalloc x 6) ())", ShapeFault::BadSize(26)),
        ("(fn f () () () (stackalloc x 6))", ShapeFault::BadForm(12)),
    ] {
        assert_eq!(rt; fault_in(rt.alloc(), text)?, Some(fault), "in {text}");
    }
    for (fault, message) in [
        (ShapeFault::BadForm(1), "no such form, at offset 1"),
        (ShapeFault::BadSize(2), "a buffer of this size, at offset 2"),
        (
            ShapeFault::BadByteValue(3),
            "a number above 255 in a table, at offset 3",
        ),
        (
            ShapeFault::TooMany(4),
            "a ninth name or argument, at offset 4",
        ),
        (
            ShapeFault::Repeated(5),
            "a name again in one list, at offset 5",
        ),
    ] {
        assert_eq!(rt; format!(in rt.alloc(); "{fault}")?.as_str(), message);
    }
    Ok(())
}

#[test]
fn offsets_need_not_rise(rt: HostRuntime) -> Result<(), Fail> {
    let mut trees = Items::new(rt.alloc());
    trees.push(Tree::Number { at: 7, value: 0 })?;
    trees.push(Tree::Number { at: 3, value: 0 })?;
    match from_tree(rt.alloc(), trees.as_slice()) {
        Err(OrMemory::Fault(fault)) => assert_eq!(rt; fault, ShapeFault::BadForm(3)),
        _ => return Err(Fail::new("no fault")),
    }
    Ok(())
}

#[test]
fn a_program_and_its_trees(rt: HostRuntime) -> Result<(), Fail> {
    let program = program_of(rt.alloc(), " (fn f (a) () (while a) (call () f a))")?;
    let Some(func) = program.funcs.get(0) else {
        return Err(Fail::new("no function"));
    };
    assert_eq!(rt; func.at, 5);
    assert_eq!(rt; func.name.bytes(), b"f".as_slice());
    match func.body.as_slice() {
        [Cmd::While(_, inner), Cmd::Call { at, .. }] => {
            assert_eq!(rt; (inner.len(), *at), (0, 33));
        }
        _ => return Err(Fail::new("another body")),
    }
    let trees = to_tree(rt.alloc(), &program)?;
    match trees.as_slice() {
        [Tree::List { at, items }] => assert_eq!(rt; (*at, items.len()), (0, 6)),
        _ => return Err(Fail::new("other trees")),
    }
    Ok(())
}

#[test]
fn programs_are_written_as_they_are_read(rt: HostRuntime) -> Result<(), Fail> {
    for (text, written) in [
        (
            "(fn  f (a)(r) ; note\n (set r (ite a 0x10 (load1 a))))",
            "(fn f (a) (r) (set r (ite a 16 (load1 a))))\n",
        ),
        (
            "(fn f () () (stackalloc b 8 (interact () g b)) (if 1 (then (skip)) (else)))",
            "(fn f () () (stackalloc b 8 (interact () g b)) (if 1 (then (skip)) (else)))\n",
        ),
        ("(fn f () ())(fn g () ())", "(fn f () ())\n(fn g () ())\n"),
    ] {
        let program = program_of(rt.alloc(), text)?;
        let trees = to_tree(rt.alloc(), &program)?;
        let printed = print(rt.alloc(), trees.as_slice())?;
        assert_eq!(rt; printed.as_slice(), written.as_bytes());
    }
    Ok(())
}
