// The top call over ends in memory.

ghost use Rattle.std.specs.Prelude.{◌≢◌};

use crate::calling::{Failing, MOST, NEVER, ROOM, WRITES_A_WORD, answer, repeated};
use br_base::{MemSink, MemSource, Status, SureSink, SureSource};
use br_top::{tool, usage_line};
use std::alloc::{AllocError, Global};
use std::test::Fail;

#[test]
fn refusals(rt: HostRuntime) -> Result<(), Fail> {
    let cases: [(&str, &[u8], &[u8]); 13] = [
        ("compile", b"(fn main () ()", b"brc: refused Unclosed 0\n"),
        (
            "compile",
            b"(fn main () (r) (set r 4294967296))",
            b"brc: refused BadNumber 23\n",
        ),
        ("compile", b"# ", b"brc: refused BadByte 0\n"),
        ("compile", b"())", b"brc: refused ExtraClose 2\n"),
        (
            "compile",
            b"(fn main (a b c d e f g h i) ())",
            b"brc: refused TooMany 26\n",
        ),
        ("compile", b"()", b"brc: refused BadForm 0\n"),
        (
            "compile",
            b"(fn f () () (call () g)) (fn g () () (call () f))",
            b"brc: refused Recursion 0\n",
        ),
        (
            "compile",
            b"(fn f (a) ())(fn main () () (call () f))",
            b"brc: refused WrongArguments 37\n",
        ),
        ("print", b"(fn main () ()", b"brc: refused Unclosed 0\n"),
        (
            "print",
            b"(fn main (a b c d e f g h i) ())",
            b"brc: refused TooMany 26\n",
        ),
        (
            "list",
            b"brimage 1\nentry main 0 0 0 0\ncode 2\n00000297\n",
            b"brc: refused Truncated 5\n",
        ),
        (
            "list",
            b"brimage 1\nentry main 0 0 0 0\ncode 2\n00000297\nend\n",
            b"brc: refused BadOrder 5\n",
        ),
        (
            "list",
            b"brimage 1\nentry main 0 0 4 0\ncode 1\n00000073\nend\n",
            b"brc: refused BadOffset 2\n",
        ),
    ];
    for (word, bytes, line) in cases {
        let (status, out, err) = answer(rt.alloc(), word, bytes, NEVER)?;
        assert_eq!(rt; status, Status::Refused);
        assert_eq!(rt; out.held(), b"".as_slice());
        assert_eq!(rt; err.held(), line);
    }
    Ok(())
}

/// The image of two words, the second of which writes over the first.
const WRITES_ITS_CODE: &[u8] = b"brimage 1\nentry main 0 0 0 0\ncode 2\n00000297\n0052a023\nend\n";

#[test]
fn texts(rt: HostRuntime) -> Result<(), Fail> {
    let cases: [(&str, &[u8], &[u8]); 3] = [
        (
            "print",
            b"(fn  f (x)(y) ; note\n (set y 0x10))",
            b"(fn f (x) (y) (set y 16))\n",
        ),
        (
            "print",
            b"(fn f () () (call () f)) (fn f () () (call (a) g 1))",
            b"(fn f () () (call () f))\n(fn f () () (call (a) g 1))\n",
        ),
        (
            "list",
            WRITES_ITS_CODE,
            b"main:\n80000000 00000297 auipc x5, 0x00000\n80000004 0052a023 sw x5, 0(x5)\n",
        ),
    ];
    for (word, bytes, text) in cases {
        let (status, out, err) = answer(rt.alloc(), word, bytes, NEVER)?;
        assert_eq!(rt; status, Status::Done);
        assert_eq!(rt; out.held(), text);
        assert_eq!(rt; err.held(), b"".as_slice());
    }
    Ok(())
}

#[test]
fn image_prefixes(rt: HostRuntime) -> Result<(), Fail> {
    // By how many line feeds a prefix has.
    let lines: [&[u8]; 6] = [
        b"brc: refused Truncated 1\n",
        b"brc: refused Truncated 2\n",
        b"brc: refused Truncated 3\n",
        b"brc: refused Truncated 4\n",
        b"brc: refused Truncated 5\n",
        b"brc: refused Truncated 6\n",
    ];
    for len in 0..WRITES_ITS_CODE.len() {
        let prefix = WRITES_ITS_CODE.get(..len).ok_or("a prefix")?;
        let feeds = prefix.iter().filter(|byte| **byte == b'\n').count();
        let (status, _, err) = answer(rt.alloc(), "list", prefix, NEVER)?;
        assert_eq!(rt; status, Status::Refused);
        assert_eq!(rt; err.held(), *lines.get(feeds).ok_or("a line")?);
    }
    Ok(())
}

#[test]
fn other_words(rt: HostRuntime) -> Result<(), Fail> {
    let alloc = rt.alloc();
    let words = [
        String::from_str(alloc, "compile")?,
        String::from_str(alloc, "x")?,
    ];
    for count in [0, 2] {
        let mut input = MemSource::new(Vec::new(alloc), MOST, [0].to_vec(alloc)?);
        let mut err = MemSink::new(alloc, ROOM, MOST, Vec::new(alloc))?;
        let status = tool(
            alloc,
            &words[..count],
            &mut input,
            &mut SureSink::new(),
            &mut err,
        );
        assert_eq!(rt; status, Status::Usage);
        assert_eq!(rt; err.held(), usage_line());
    }
    Ok(())
}

#[test]
fn reads_that_fail(rt: HostRuntime) -> Result<(), Fail> {
    // The text takes eight reads, and the ninth is the end.
    for read in 0..9 {
        let failing = Failing {
            input: Some(read),
            ..NEVER
        };
        let (status, out, err) = answer(rt.alloc(), "compile", WRITES_A_WORD, failing)?;
        assert_eq!(rt; status, Status::ReadFault);
        assert_eq!(rt; out.held(), b"".as_slice());
        assert_eq!(rt; err.held(), b"brc: read fault\n".as_slice());
    }
    Ok(())
}

#[test]
fn writes_that_fail(rt: HostRuntime) -> Result<(), Fail> {
    let (status, whole, _) = answer(rt.alloc(), "compile", WRITES_A_WORD, NEVER)?;
    assert_eq!(rt; status, Status::Done);
    let whole = whole.held();
    assert!(rt; whole.starts_with(b"brimage 2\nentry main 0 0 "));
    for write in 0..whole.len().div_ceil(MOST) {
        let failing = Failing {
            out: Some(write as u64),
            ..NEVER
        };
        let (status, out, err) = answer(rt.alloc(), "compile", WRITES_A_WORD, failing)?;
        assert_eq!(rt; status, Status::WriteFault);
        assert_eq!(rt; out.held(), &whole[..write * MOST]);
        assert_eq!(rt; err.held(), b"brc: write fault\n".as_slice());
    }
    Ok(())
}

#[test]
fn lines_that_fail(rt: HostRuntime) -> Result<(), Fail> {
    let failing = Failing {
        err: Some(1),
        ..NEVER
    };
    let (status, out, err) = answer(rt.alloc(), "compile", b"(fn main () ()", failing)?;
    assert_eq!(rt; status, Status::WriteFault);
    assert_eq!(rt; out.held(), b"".as_slice());
    assert_eq!(rt; err.held(), b"brc: ref".as_slice());
    Ok(())
}

#[test]
fn empty_text(rt: HostRuntime) -> Result<(), Fail> {
    let (status, out, _) = answer(rt.alloc(), "compile", b"", NEVER)?;
    assert_eq!(rt; status, Status::Done);
    assert_eq!(rt; out.held(), b"brimage 2\ncode 0\nend\n".as_slice());
    let failing = Failing {
        out: Some(1),
        ..NEVER
    };
    let (status, out, err) = answer(rt.alloc(), "compile", b"", failing)?;
    assert_eq!(rt; status, Status::WriteFault);
    assert_eq!(rt; out.held(), b"brimage ".as_slice());
    assert_eq!(rt; err.held(), b"brc: write fault\n".as_slice());
    Ok(())
}

#[test]
fn prefixes(rt: HostRuntime) -> Result<(), Fail> {
    for len in 1..WRITES_A_WORD.len() {
        let text = WRITES_A_WORD.get(..len).ok_or("a prefix")?;
        let (status, _, err) = answer(rt.alloc(), "compile", text, NEVER)?;
        let line: &[u8] = if len == 40 {
            b"brc: refused BadNumber 38\n"
        } else {
            b"brc: refused Unclosed 0\n"
        };
        assert_eq!(rt; status, Status::Refused);
        assert_eq!(rt; err.held(), line);
    }
    Ok(())
}

#[test]
fn repeated_forms(rt: HostRuntime) -> Result<(), Fail> {
    let head = b"(fn f () () ".as_slice();
    let cases: [(&[u8], &[u8], usize, usize, &[u8]); 4] = [
        (head, b"(skip)", 32_761, 1, b"brc: refused TooLarge 32769\n"),
        (
            head,
            b"(stackalloc p 65536 ",
            16,
            17,
            b"brc: refused StackTooDeep 0 1048928\n",
        ),
        (b"", b"(", 256, 256, b"brc: refused BadForm 0\n"),
        (b"", b"(", 257, 257, b"brc: refused TooDeep 256\n"),
    ];
    for (first, second, times, closing, line) in cases {
        let text = repeated(rt.alloc(), first, (second, times), closing)?;
        let (status, _, err) = answer(rt.alloc(), "compile", &text, NEVER)?;
        assert_eq!(rt; status, Status::Refused);
        assert_eq!(rt; err.held(), line);
    }
    Ok(())
}

/// What the top call answers over ends that never fail, which is no fault.
fn sure_answer(alloc: Global, words: &[String], bytes: Vec<u8>) -> Status
    ensures read { result ≢ Status.ReadFault }
    ensures written { result ≢ Status.WriteFault }
{
    tool(
        alloc,
        words,
        &mut SureSource::new(bytes),
        &mut SureSink::new(),
        &mut SureSink::new(),
    )
}

#[test]
fn sure_ends(rt: HostRuntime) -> Result<(), Fail> {
    let words = [String::from_str(rt.alloc(), "compile")?];
    let cases: [(&[u8], Status); 2] = [
        (WRITES_A_WORD, Status::Done),
        (b"(fn main () ()", Status::Refused),
    ];
    for (text, status) in cases {
        let bytes = text.to_vec(rt.alloc())?;
        assert_eq!(rt; sure_answer(rt.alloc(), &words, bytes), status);
    }
    assert_eq!(rt;
        sure_answer(rt.alloc(), &[], Vec::new(rt.alloc())),
        Status::Usage
    );
    Ok(())
}

#[test]
fn long_texts(rt: HostRuntime) -> Result<(), Fail> {
    let alloc = rt.alloc();
    let words = [String::from_str(alloc, "compile")?];
    let cases: [(usize, &[u8]); 2] = [
        (1_048_576, b"brc: refused TooDeep 256\n"),
        (1_048_577, b"brc: refused InputTooLong\n"),
    ];
    for (len, line) in cases {
        let mut input = SureSource::new(vec![in alloc; b'('; len]?);
        let mut err = MemSink::new(alloc, ROOM, MOST, Vec::new(alloc))?;
        let status = tool(alloc, &words, &mut input, &mut SureSink::new(), &mut err);
        assert_eq!(rt; status, Status::Refused);
        assert_eq!(rt; err.held(), line);
    }
    Ok(())
}

#[test]
fn texts_of_every_length(rt: HostRuntime) -> Result<(), Fail> {
    let alloc = rt.alloc();
    let words = [String::from_str(alloc, "print")?];
    for len in 0..=9_000 {
        let mut input = SureSource::new(vec![in alloc; b' '; len]?);
        let (mut out, mut err) = (SureSink::new(), SureSink::new());
        let status = tool(alloc, &words, &mut input, &mut out, &mut err);
        assert_eq!(rt; status, Status::Done);
    }
    Ok(())
}
