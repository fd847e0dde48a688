// The commands `run` and `interp` over ends in memory.

use crate::calling::{MOST, NEVER, ROOM, WRITES_A_WORD, answer, repeated};
use br_base::{MemSink, Status, SureSink, SureSource};
use br_top::tool;
use std::alloc::{AllocError, Global};
use std::test::Fail;

/// These parts, one after the other.
fn joined(alloc: Global, parts: &[&[u8]]) -> Result<Vec<u8>, AllocError> {
    let mut whole = Vec::new(alloc);
    for part in parts {
        whole.extend_from_slice(part)?;
    }
    Ok(whole)
}

/// The lines of a run script after `call main` in most cases.
const PLAIN_RUN: &[u8] = b"args\njunk 00000000\nlimit 100000\nend\n";

/// The lines of an interp script after `call main` in most cases.
const PLAIN_INTERP: &[u8] = b"args\nlimit 100000\nend\n";

/// An image that writes 1 to one device word and reads another, which is the result.
const WRITES_AND_READS: &[u8] =
    b"brimage 1\nentry main 0 1 0 0\ncode 5\n100122b7\n00100313\n0062a423\n00c2a503\n00000073\n\
    end\n";

/// An image that keeps two bytes at an odd address of the data region and loads four from there.
const STORES_AND_LOADS: &[u8] =
    b"brimage 1\nentry main 0 1 0 0\ncode 6\n801002b7\n00001337\n23430313\n006290a3\n0012a503\n\
    00000073\nend\n";

/// An image that writes a word that it finds in the stack region to a device.
const SHOWS_THE_STACK: &[u8] =
    b"brimage 1\nentry main 0 0 0 0\ncode 5\n802002b7\n0002a303\n100123b7\n0063a623\n00000073\n\
    end\n";

/// An image whose only instruction ends the call.
const ENDS: &[u8] = b"brimage 1\nentry main 0 0 0 0\ncode 1\n00000073\nend\n";

#[test]
fn runs(rt: HostRuntime) -> Result<(), Fail> {
    let cases: [(&[u8], &[u8], &[u8]); 19] = [
        (
            PLAIN_RUN,
            b"brimage 1\nentry main 0 0 0 0\ncode 1\n00100073\nend\n",
            b"trapped illegal 80000000\n",
        ),
        (
            PLAIN_RUN,
            b"brimage 1\nentry main 0 0 0 0\ncode 1\n00000000\nend\n",
            b"trapped illegal 80000000\n",
        ),
        (
            PLAIN_RUN,
            b"brimage 1\nentry main 0 0 0 0\ncode 1\nffffffff\nend\n",
            b"trapped illegal 80000000\n",
        ),
        (
            PLAIN_RUN,
            b"brimage 2\nentry main 0 0 0 0\ncode 1\n00100073\nend\n",
            b"trapped illegal 80300000\n",
        ),
        (
            PLAIN_RUN,
            b"brimage 1\nentry main 0 0 0 0\ncode 2\n00000297\n0052a023\nend\n",
            b"trapped codewrite 80000004\n",
        ),
        (
            PLAIN_RUN,
            b"brimage 1\nentry main 0 0 0 0\ncode 1\n00008067\nend\n",
            b"trapped fetchoutside 00000000\n",
        ),
        (
            b"args\njunk ffffffff\nlimit 100000\nend\n",
            b"brimage 1\nentry main 0 0 0 0\ncode 1\n00008067\nend\n",
            b"trapped fetchmisaligned 80000000\n",
        ),
        (
            PLAIN_RUN,
            b"brimage 1\nentry main 0 0 0 0\ncode 1\n00002083\nend\n",
            b"trapped accessoutside 80000000\n",
        ),
        (
            PLAIN_RUN,
            b"brimage 1\nentry main 0 0 0 0\ncode 2\n100122b7\n00028283\nend\n",
            b"trapped deviceaccess 80000004\n",
        ),
        (
            PLAIN_RUN,
            b"brimage 1\nentry main 0 0 0 0\ncode 1\n0000006f\nend\n",
            b"running\n",
        ),
        (PLAIN_RUN, ENDS, b"halted\n"),
        (b"args\njunk 00000000\nlimit 1\nend\n", ENDS, b"halted\n"),
        (b"args\njunk 00000000\nlimit 0\nend\n", ENDS, b"running\n"),
        (
            PLAIN_RUN,
            WRITES_AND_READS,
            b"write 10012008 00000001\nwaiting 1001200c\n",
        ),
        (
            b"args\njunk 00000000\nanswer 00000005 1\nlimit 100000\nend\n",
            WRITES_AND_READS,
            b"write 10012008 00000001\nread 1001200c 00000005\nhalted 00000005\n",
        ),
        (
            b"args\njunk 00000000\nanswer 00000005 1\nlimit 4\nend\n",
            WRITES_AND_READS,
            b"write 10012008 00000001\nread 1001200c 00000005\nrunning\n",
        ),
        (
            b"args\nmem 80100000 0000000000000000\njunk 00000000\nlimit 100000\nend\n",
            STORES_AND_LOADS,
            b"halted 00001234\nmem 80100000 0034120000000000\n",
        ),
        (
            b"args\nmem 80100000 0000\nmem 80100002 00aa\njunk 00000000\nlimit 100000\nend\n",
            STORES_AND_LOADS,
            b"halted 00aa1234\nmem 80100000 0034\nmem 80100002 12aa\n",
        ),
        (
            b"args\njunk 11223344\nlimit 100000\nend\n",
            SHOWS_THE_STACK,
            b"write 1001200c 11223344\nhalted\n",
        ),
    ];
    for (lines, image, shown) in cases {
        let bytes = joined(rt.alloc(), &[b"brrun 1\ncall main\n", lines, image])?;
        let (status, out, err) = answer(rt.alloc(), "run", &bytes, NEVER)?;
        assert_eq!(rt; status, Status::Done);
        assert_eq!(rt; out.held(), shown);
        assert_eq!(rt; err.held(), b"".as_slice());
    }
    Ok(())
}

#[test]
fn interps(rt: HostRuntime) -> Result<(), Fail> {
    let cases: [(&[u8], &[u8], &[u8]); 19] = [
        (
            PLAIN_INTERP,
            WRITES_A_WORD,
            b"write 1001200c 0000000c\ndone\n",
        ),
        (
            PLAIN_INTERP,
            b"(fn main () (a b c) (set a (divu 7 0)) (set b (remu 7 0)) (set c (srs 0x80000000 \
            33)))",
            b"done ffffffff 00000007 c0000000\n",
        ),
        (
            b"args\nmem 801fffff 00\nlimit 100000\nend\n",
            b"(fn main () () (store4 0x801FFFFF 1))",
            b"undefined\n",
        ),
        (
            PLAIN_INTERP,
            b"(fn main () () (store4 0xFFFFFFFE 1))",
            b"undefined\n",
        ),
        (
            b"args\nmem 80100000 0000000000000000\nlimit 100000\nend\n",
            b"(fn main () (r) (store2 0x80100001 0x1234) (set r (load4 0x80100001)))",
            b"done 00001234\nmem 80100000 0034120000000000\n",
        ),
        (
            PLAIN_INTERP,
            b"(fn main () (r) (interact () MMIOWRITE 0x10012008 1) (interact (r) MMIOREAD \
            0x1001200C))",
            b"write 10012008 00000001\nwaiting 1001200c\n",
        ),
        (
            b"args\nanswer 00000005 1\nlimit 100000\nend\n",
            b"(fn main () (r) (interact () MMIOWRITE 0x10012008 1) (interact (r) MMIOREAD \
            0x1001200C))",
            b"write 10012008 00000001\nread 1001200c 00000005\ndone 00000005\n",
        ),
        (
            PLAIN_INTERP,
            b"(fn main () (r) (interact (r) MMIOREAD 0x80100000))",
            b"undefined\n",
        ),
        (
            PLAIN_INTERP,
            b"(fn main () (r) (interact (r) MMIOREAD 0x1001200E))",
            b"undefined\n",
        ),
        (
            PLAIN_INTERP,
            b"(fn main () () (stackalloc p 16 (interact () MMIOWRITE 0x1001200C (load4 p))))",
            b"nochoice\n",
        ),
        (
            b"args\nchoice 80200000 44332211443322114433221144332211\nlimit 100000\nend\n",
            b"(fn main () () (stackalloc p 16 (interact () MMIOWRITE 0x1001200C (load4 p))))",
            b"write 1001200c 11223344\ndone\n",
        ),
        (
            b"args\nlimit 1000\nend\n",
            b"(fn main () () (while 1))",
            b"outoffuel\n",
        ),
        (
            b"args 00000002\nlimit 100000\nend\n",
            b"(fn main (i) (r) (set r (table2 (1 2 3 4) i)))",
            b"done 00000403\n",
        ),
        (
            b"args 00000003\nlimit 100000\nend\n",
            b"(fn main (i) (r) (set r (table2 (1 2 3 4) i)))",
            b"undefined\n",
        ),
        (
            PLAIN_INTERP,
            b"(fn f () (r)) (fn main () (r) (set r 1) (call (r) f))",
            b"undefined\n",
        ),
        (
            b"args\nlimit 0\nend\n",
            b"(fn f () ()) (fn main () () (call () f))",
            b"outoffuel\n",
        ),
        (
            b"args\nlimit 1\nend\n",
            b"(fn f () ()) (fn main () () (call () f))",
            b"done\n",
        ),
        (
            b"args 00000005\nlimit 100000\nend\n",
            b"(fn main (a) (r) (set r (ite a (divu 100 a) (load4 0))))",
            b"done 00000014\n",
        ),
        (
            b"args 00000000\nlimit 100000\nend\n",
            b"(fn main (a) (r) (set r (ite a (divu 100 a) (load4 0))))",
            b"undefined\n",
        ),
    ];
    for (lines, text, shown) in cases {
        let bytes = joined(rt.alloc(), &[b"brinterp 1\ncall main\n", lines, text])?;
        let (status, out, err) = answer(rt.alloc(), "interp", &bytes, NEVER)?;
        assert_eq!(rt; status, Status::Done);
        assert_eq!(rt; out.held(), shown);
        assert_eq!(rt; err.held(), b"".as_slice());
    }
    Ok(())
}

#[test]
fn refused_scripts(rt: HostRuntime) -> Result<(), Fail> {
    let cases: [(&str, &[u8], &[u8], &[u8]); 17] = [
        ("run", b"", b"", b"brc: refused ScriptEnds 1\n"),
        (
            "run",
            b"brinterp 1\ncall main\n",
            PLAIN_INTERP,
            b"brc: refused BadScriptLine 1\n",
        ),
        (
            "run",
            b"brrun 1\ncall main\nargs\njunk 00000000\nanswer 00000000 1000000\n",
            b"answer 00000000 1000000\nlimit 1\nend\n",
            b"brc: refused BadScriptLine 6\n",
        ),
        // What stands after a script counts its lines from there.
        (
            "run",
            b"brrun 1\ncall main\n",
            PLAIN_RUN,
            b"brc: refused Truncated 1\n",
        ),
        (
            "run",
            b"brrun 1\ncall main\nargs\njunk 00000000\nlimit 0\nend\n",
            b"brimage 1\nentry main 0 0 4 0\ncode 1\n00000073\nend\n",
            b"brc: refused BadOffset 2\n",
        ),
        // A fault of the script comes before one of the image, and that before one of the entry.
        (
            "run",
            b"brrun 1\ncall other\nargs\nlimit 0\nend\n",
            b"# \n",
            b"brc: refused BadScriptLine 4\n",
        ),
        (
            "run",
            b"brrun 1\ncall other\nargs\njunk 00000000\nlimit 0\nend\n",
            b"brimage 1\nend\n",
            b"brc: refused BadOrder 2\n",
        ),
        (
            "run",
            b"brrun 1\ncall other\nargs\njunk 00000000\nlimit 0\nend\n",
            ENDS,
            b"brc: refused UnknownEntry\n",
        ),
        (
            "run",
            b"brrun 1\ncall main\nargs 00000001\njunk 00000000\nlimit 0\nend\n",
            ENDS,
            b"brc: refused WrongCount 0\n",
        ),
        (
            "run",
            b"brrun 1\ncall main\nargs 00000001\njunk 00000000\nlimit 0\nend\n",
            b"brimage 1\nentry main 2 0 0 0\ncode 1\n00000073\nend\n",
            b"brc: refused WrongCount 2\n",
        ),
        (
            "interp",
            b"brinterp 1\n",
            b"",
            b"brc: refused ScriptEnds 2\n",
        ),
        (
            "interp",
            b"brrun 1\ncall main\n",
            PLAIN_RUN,
            b"brc: refused BadScriptLine 1\n",
        ),
        (
            "interp",
            b"brinterp 1\ncall main\nargs\nlimit 0\nend\n",
            b"# ",
            b"brc: refused BadByte 0\n",
        ),
        (
            "interp",
            b"brinterp 1\ncall main\nargs\nlimit 0\nend\n",
            b"()",
            b"brc: refused BadForm 0\n",
        ),
        (
            "interp",
            b"brinterp 1\ncall other\nargs\nlimit 0\nend\n",
            b"(fn f () () (call () f))",
            b"brc: refused Recursion 0\n",
        ),
        (
            "interp",
            b"brinterp 1\ncall other\nargs\nlimit 0\nend\n",
            WRITES_A_WORD,
            b"brc: refused UnknownEntry\n",
        ),
        (
            "interp",
            b"brinterp 1\ncall main\nargs 00000001\nlimit 0\nend\n",
            b"(fn f (a) ()) (fn main (a b) ())",
            b"brc: refused WrongCount 2\n",
        ),
    ];
    for (word, script, text, line) in cases {
        let bytes = joined(rt.alloc(), &[script, text])?;
        let (status, out, err) = answer(rt.alloc(), word, &bytes, NEVER)?;
        assert_eq!(rt; status, Status::Refused);
        assert_eq!(rt; out.held(), b"".as_slice());
        assert_eq!(rt; err.held(), line);
    }
    Ok(())
}

#[test]
fn long_texts_after_a_script(rt: HostRuntime) -> Result<(), Fail> {
    let alloc = rt.alloc();
    let words = [String::from_str(alloc, "interp")?];
    let script = b"brinterp 1\ncall main\nargs\nlimit 0\nend\n".as_slice();
    let cases: [(usize, &[u8]); 3] = [
        (1_048_576, b"brc: refused UnknownEntry\n"),
        (1_048_577, b"brc: refused TextTooLong\n"),
        (16_777_216, b"brc: refused InputTooLong\n"),
    ];
    for (len, line) in cases {
        let bytes = repeated(alloc, script, (b" ", len), 0)?;
        let mut input = SureSource::new(bytes);
        let mut err = MemSink::new(alloc, ROOM, MOST, Vec::new(alloc))?;
        let status = tool(alloc, &words, &mut input, &mut SureSink::new(), &mut err);
        assert_eq!(rt; status, Status::Refused);
        assert_eq!(rt; err.held(), line);
    }
    Ok(())
}
