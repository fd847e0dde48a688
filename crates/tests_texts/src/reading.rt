// Reading: the fault of a text, its offsets, and the deepest texts.

ghost use Rattle.std.specs.Prelude.{◌≤◌, length};
ghost use Rattle.br_sexpr.specs.Reads.{most_bytes};

use br_base::OrMemory;
use br_sexpr::{TextFault, Tree, read};
use std::alloc::{AllocError, Global};
use std::test::Fail;

// What is wrong with a text, and None where it reads.
fn fault(alloc: Global, text: &[u8]) -> Result<Option<TextFault>, AllocError>
    requires { length text.now ≤ most_bytes }
{
    match read(alloc, text) {
        Ok(_) => Ok(None),
        Err(OrMemory::Fault(fault)) => Ok(Some(fault)),
        Err(OrMemory::Memory) => Err(AllocError),
    }
}

#[test]
fn faults(rt: HostRuntime) -> Result<(), Fail> {
    let table: [(&str, Option<TextFault>); 30] = [
        ("", None),
        ("(fn main () ()", Some(TextFault::Unclosed(0))),
        ("(fn main () (r) (set r 4294967295))", None),
        (
            "(fn main () (r) (set r 4294967296))",
            Some(TextFault::BadNumber(23)),
        ),
        ("()", None),
        (")", Some(TextFault::ExtraClose(0))),
        ("(a))(", Some(TextFault::ExtraClose(3))),
        ("(a (b) (c", Some(TextFault::Unclosed(0))),
        ("(a) (b", Some(TextFault::Unclosed(4))),
        ("(( & 00 )))", Some(TextFault::BadByte(3))),
        ("( 00 & )) ", Some(TextFault::BadNumber(2))),
        ("a ) 00 (", Some(TextFault::ExtraClose(2))),
        ("0", None),
        ("00", Some(TextFault::BadNumber(0))),
        ("01", Some(TextFault::BadNumber(0))),
        ("1a", Some(TextFault::BadNumber(0))),
        ("1_", Some(TextFault::BadNumber(0))),
        ("0x", Some(TextFault::BadNumber(0))),
        ("0xFFFFffff", None),
        ("0x00000000", None),
        ("0x123456789", Some(TextFault::BadNumber(0))),
        ("0x012345678", Some(TextFault::BadNumber(0))),
        ("0xg", Some(TextFault::BadNumber(0))),
        ("0X1", Some(TextFault::BadNumber(0))),
        ("4294967295", None),
        ("4294967296", Some(TextFault::BadNumber(0))),
        ("a;)&\r 00", None),
        ("a;)\n &", Some(TextFault::BadByte(5))),
        ("-1", Some(TextFault::BadByte(0))),
        ("_a\t9\r\nA(9 b_9)", None),
    ];
    for (text, answer) in table {
        assert!(rt; text.len() < 100);
        let found = fault(rt.alloc(), text.as_bytes())?;
        assert_eq!(rt; found, answer, "{text:?}");
    }
    for (fault, message) in [
        (
            TextFault::BadByte(1),
            "a byte that begins no token, at offset 1",
        ),
        (TextFault::BadNumber(2), "no number below 2^32, at offset 2"),
        (
            TextFault::ExtraClose(3),
            "a closing parenthesis with no partner, at offset 3",
        ),
        (
            TextFault::Unclosed(4),
            "a parenthesis that is never closed, at offset 4",
        ),
        (
            TextFault::TooDeep(5),
            "a parenthesis inside 256 others, at offset 5",
        ),
    ] {
        assert_eq!(rt; format!(in rt.alloc(); "{fault}")?.as_str(), message);
    }
    Ok(())
}

#[test]
fn prefixes(rt: HostRuntime) -> Result<(), Fail> {
    let text = b"(fn main () () (interact () MMIOWRITE 0x1001200C (add 5 7)))";
    for len in 1..text.len() {
        let found = fault(rt.alloc(), &text[..len])?;
        let answer = if len == 40 {
            TextFault::BadNumber(38)
        } else {
            TextFault::Unclosed(0)
        };
        assert_eq!(rt; found, Some(answer), "{len}");
    }
    Ok(())
}

#[test]
fn depths(rt: HostRuntime) -> Result<(), Fail> {
    let mut text = vec![in rt.alloc(); b'('; 257]?;
    assert_eq!(rt;
        fault(rt.alloc(), &text[..256])?,
        Some(TextFault::Unclosed(0))
    );
    assert_eq!(rt; fault(rt.alloc(), &text)?, Some(TextFault::TooDeep(256)));
    text.resize(514, b')')?;
    assert!(rt; text.len() == 514);
    assert_eq!(rt; fault(rt.alloc(), &text[1..513])?, None);
    assert_eq!(rt; fault(rt.alloc(), &text)?, Some(TextFault::TooDeep(256)));
    Ok(())
}

#[test]
fn offsets(rt: HostRuntime) -> Result<(), Fail> {
    let Ok(trees) = read(rt.alloc(), b" (ab\n7)") else {
        return Err("not read".into());
    };
    let [Tree::List { at: 1, items }] = trees.as_slice() else {
        return Err("no list".into());
    };
    let [Tree::Name { at: 2, text }, Tree::Number { at: 5, value: 7 }] = items.as_slice() else {
        return Err("other items".into());
    };
    assert_eq!(rt; text.bytes(), b"ab".as_slice());
    Ok(())
}
