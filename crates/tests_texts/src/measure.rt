// Programs and their faults.

use br_base::OrMemory;
use br_measure::{Checked, NameFault, check};
use br_syntax::from_tree;
use std::alloc::{AllocError, Global};
use std::fmt::Write;
use std::process::Abort;
use std::test::Fail;

// What check answers on the program of a text.
fn checked(
    rt: &impl Abort,
    alloc: Global,
    text: &[u8],
) -> Result<Result<Checked, OrMemory<NameFault>>, Fail> {
    assert!(rt; text.len() <= br_sexpr::MOST_BYTES);
    let trees = br_sexpr::read(alloc, text)?;
    let program = from_tree(alloc, trees.as_slice())?;
    Ok(check(alloc, program))
}

// The fault of the program of a text.
fn fault(rt: &impl Abort, alloc: Global, text: &[u8]) -> Result<Option<NameFault>, Fail> {
    match checked(rt, alloc, text)? {
        Ok(_) => Ok(None),
        Err(OrMemory::Fault(fault)) => Ok(Some(fault)),
        Err(OrMemory::Memory) => Err(Fail::from("no memory")),
    }
}

#[test]
fn texts_have_their_faults(rt: HostRuntime) -> Result<(), Fail> {
    let cases: [(&[u8], Option<NameFault>); 20] = [
        (b"", None),
        (b"(fn f () ())", None),
        (
            b"(fn f () ())(fn f () ())",
            Some(NameFault::DuplicateFunction(16)),
        ),
        (
            b"(fn f () () (call () g))",
            Some(NameFault::UnknownFunction(21)),
        ),
        (
            b"(fn f (a) ())(fn main () () (call () f))",
            Some(NameFault::WrongArguments(37)),
        ),
        (
            b"(fn f () ())(fn g () () (call (x) f))",
            Some(NameFault::WrongResults(34)),
        ),
        (
            b"(fn f () () (interact () HALT))",
            Some(NameFault::UnknownAction(25)),
        ),
        (
            b"(fn f () () (interact () MMIOREAD 0))",
            Some(NameFault::WrongResults(25)),
        ),
        (
            b"(fn f () () (interact () MMIOREAD))",
            Some(NameFault::WrongArguments(25)),
        ),
        (
            b"(fn f () () (interact (x) MMIOWRITE 0 0))",
            Some(NameFault::WrongResults(26)),
        ),
        (
            b"(fn f () () (interact () MMIOWRITE 0 0) (interact (x) MMIOREAD 0))",
            None,
        ),
        // an earlier and a later fault of a name
        (
            b"(fn f () () (call () g))(fn f () ())",
            Some(NameFault::UnknownFunction(21)),
        ),
        (
            b"(fn f () ())(fn f () () (call () h))",
            Some(NameFault::DuplicateFunction(16)),
        ),
        (
            b"(fn f () () (if 0 (then (seq (call () g))) (else (while 0 (call (x) f)))))",
            Some(NameFault::UnknownFunction(38)),
        ),
        // a name and a path of calls
        (
            b"(fn f () () (call () f) (call () g))",
            Some(NameFault::UnknownFunction(33)),
        ),
        // a call of itself, a function that only reaches one, and two that call each other
        (b"(fn f () () (call () f))", Some(NameFault::Recursion(0))),
        (
            b"(fn a () () (call () b))(fn b () () (call () b))",
            Some(NameFault::Recursion(1)),
        ),
        (
            b"(fn f () () (call () g)) (fn g () () (call () f))",
            Some(NameFault::Recursion(0)),
        ),
        // two callers of one function, and one that calls another nine times
        (
            b"(fn a () () (call () c)) (fn b () () (call () c)) (fn c () ())",
            None,
        ),
        (
            b"(fn a () () (call () b) (call () b) (call () b) (call () b) (call () b) (call () b)
                (call () b) (call () b) (call () b))(fn b () ())",
            None,
        ),
    ];
    for (text, wanted) in cases {
        assert_eq!(rt; fault(&rt, rt.alloc(), text)?, wanted);
    }
    for (fault, wanted) in [
        (
            NameFault::DuplicateFunction(1),
            "a second function of this name, at offset 1",
        ),
        (
            NameFault::UnknownFunction(2),
            "no function of this name, at offset 2",
        ),
        (
            NameFault::WrongArguments(3),
            "a wrong number of arguments, at offset 3",
        ),
        (
            NameFault::WrongResults(4),
            "a wrong number of results, at offset 4",
        ),
        (
            NameFault::UnknownAction(5),
            "no action of this name, at offset 5",
        ),
        (NameFault::TooLarge(6), "a program of bulk 6"),
        (
            NameFault::Recursion(7),
            "function 7 has a path of calls to itself",
        ),
        (
            NameFault::StackTooDeep(8, 9),
            "function 8 may need 9 bytes of stack",
        ),
    ] {
        assert_eq!(rt; format!(in rt.alloc(); "{fault}")?.as_str(), wanted);
    }
    Ok(())
}

// A text of a part that is repeated, between two others.
fn repeated(
    alloc: Global,
    before: &[u8],
    part: &[u8],
    times: usize,
    after: &[u8],
) -> Result<Vec<u8>, AllocError> {
    let mut text = Vec::from_slice(alloc, before)?;
    for _ in 0..times {
        text.extend_from_slice(part)?;
    }
    text.extend_from_slice(after)?;
    Ok(text)
}

// A function whose buffers are nested in one another: fifteen of 65,536 bytes, and the ones in
// which they begin.
fn nested(alloc: Global, outer: &[u8]) -> Result<Vec<u8>, AllocError> {
    let mut text = repeated(alloc, outer, b"(stackalloc p 65536 ", 15, b"")?;
    for _ in 0..17 {
        text.push(b')')?;
    }
    Ok(text)
}

#[test]
fn sizes_have_limits(rt: HostRuntime) -> Result<(), Fail> {
    let alloc = rt.alloc();
    for (text, bulk) in [
        (b"(fn f () ())".as_slice(), 8),
        (b"(fn f (a) (r) (set r (ite a (add a 2) 7)))".as_slice(), 17),
        (
            b"(fn f () (r) (set r (ite (ite 1 2 3) (table1 (1 2 3 4 5) 0) 0)))".as_slice(),
            20,
        ),
    ] {
        let kept = checked(&rt, alloc, text)?.expect(&rt, "a small program");
        assert_eq!(rt; kept.bulk(), bulk);
    }
    let skips = repeated(alloc, b"(fn f () () ", b"(skip)", 32760, b")")?;
    assert_eq!(rt; fault(&rt, alloc, &skips)?, None);
    let more = repeated(alloc, b"(fn f () () ", b"(skip)", 32761, b")")?;
    assert_eq!(rt; fault(&rt, alloc, &more)?, Some(NameFault::TooLarge(32769)));
    let sixteen = nested(alloc, b"(fn f () () (stackalloc p 65536 ")?;
    assert_eq!(rt;
        fault(&rt, alloc, &sixteen)?,
        Some(NameFault::StackTooDeep(0, 1048928))
    );
    let recursive = nested(alloc, b"(fn f () () (call () f) (stackalloc p 65536 ")?;
    assert_eq!(rt;
        fault(&rt, alloc, &recursive)?,
        Some(NameFault::Recursion(0))
    );
    let deepest = nested(alloc, b"(fn f () () (stackalloc p 65184 ")?;
    assert_eq!(rt; fault(&rt, alloc, &deepest)?, None);
    let deeper = nested(alloc, b"(fn f () () (stackalloc p 65188 ")?;
    assert_eq!(rt;
        fault(&rt, alloc, &deeper)?,
        Some(NameFault::StackTooDeep(0, 1048580))
    );
    Ok(())
}

// Functions of which each calls the next, or each later one.
fn callers(alloc: Global, count: usize, all: bool) -> Result<String, AllocError> {
    let mut text = String::new(alloc);
    for i in 0..count {
        write!(text, "(fn f{i} () ()")?;
        let end = if all {
            count
        } else {
            count.min(i.saturating_add(2))
        };
        for j in i + 1..end {
            write!(text, " (call () f{j})")?;
        }
        text.push_str(")\n")?;
    }
    Ok(text)
}

#[test]
fn many_functions_call_later_ones(rt: HostRuntime) -> Result<(), Fail> {
    let alloc = rt.alloc();
    let chain = callers(alloc, 3591, false)?;
    let kept = checked(&rt, alloc, chain.as_bytes())?.expect(&rt, "a chain of 3,591 functions");
    assert_eq!(rt; kept.bulk(), 32318);
    assert_eq!(rt; kept.find(b"f3590"), Some(3590));
    assert_eq!(rt; kept.find(b"g"), None);
    assert_eq!(rt; kept.program().funcs.len(), 3591);
    assert_eq!(rt; kept.measure(0), 1048568);
    for (count, wanted) in [
        (3592, NameFault::StackTooDeep(0, 1048860)),
        (3641, NameFault::StackTooDeep(0, 1063168)),
        (3642, NameFault::TooLarge(32777)),
    ] {
        let longer = callers(alloc, count, false)?;
        assert_eq!(rt; fault(&rt, alloc, longer.as_bytes())?, Some(wanted));
    }
    let dense = callers(alloc, 248, true)?;
    assert_eq!(rt; fault(&rt, alloc, dense.as_bytes())?, None);
    Ok(())
}
