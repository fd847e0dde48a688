use br_compile::{Refusal, compile, lower};
use br_measure::NameFault;
use br_sexpr::TextFault;
use br_syntax::ShapeFault;
use br_words::Layout;
use std::test::Fail;

#[test]
fn every_function_has_an_entry(rt: HostRuntime) -> Result<(), Fail> {
    let text = b"(fn a () () (call () c)) (fn b (x y) (z) (call () c) (set z x)) (fn c () ())";
    let image = compile(rt.alloc(), text)?;
    let [a, b, c] = image.entries.as_slice() else {
        panic!(rt; "three entries");
    };
    for (entry, name, args, results) in [(a, b"a", 0, 0), (b, b"b", 2, 1), (c, b"c", 0, 0)] {
        assert_eq!(rt; entry.name.bytes(), name.as_slice());
        assert_eq!(rt; (entry.args, entry.results), (args, results));
    }
    assert_eq!(rt; image.layout, Layout::Two);
    // The functions have the bulks 9, 14 and 8.
    assert!(rt; image.code.len() > 0 && image.code.len() <= 24 * 31);
    Ok(())
}

#[test]
fn empty_text(rt: HostRuntime) -> Result<(), Fail> {
    let image = compile(rt.alloc(), b"")?;
    assert!(rt; image.entries.is_empty() && image.code.is_empty());
    assert_eq!(rt; image.layout, Layout::Two);
    Ok(())
}

#[test]
fn a_lowered_text(rt: HostRuntime) -> Result<(), Fail> {
    // The function counts 10, the command 1, and the sum 3.
    let lowered = lower(rt.alloc(), b"(fn main (a) (r) (set r (add a 5)))")?;
    assert_eq!(rt; lowered.bulk, 14);
    let [f] = lowered.flat.funcs.as_slice() else {
        panic!(rt; "one function");
    };
    assert_eq!(rt; f.name.bytes(), b"main".as_slice());
    assert_eq!(rt; f.args.as_slice(), [10].as_slice());
    assert_eq!(rt; f.results.as_slice(), [10].as_slice());
    let [need] = lowered.needs.as_slice() else {
        panic!(rt; "one need");
    };
    assert!(rt; *need >= 8 && *need <= 4 * 14 + 256);
    Ok(())
}

#[test]
fn refusals_say_why(rt: HostRuntime) -> Result<(), Fail> {
    for (refusal, message) in [
        (
            Refusal::InputTooLong,
            "the text has more than 1,048,576 bytes",
        ),
        (
            Refusal::Text(TextFault::BadByte(1)),
            "a byte that begins no token, at offset 1",
        ),
        (
            Refusal::Shape(ShapeFault::BadForm(2)),
            "no such form, at offset 2",
        ),
        (
            Refusal::Names(NameFault::Recursion(3)),
            "function 3 has a path of calls to itself",
        ),
    ] {
        assert_eq!(rt; format!(in rt.alloc(); "{refusal}")?.as_str(), message);
    }
    Ok(())
}
