// Programs that are run.

use br_bytes::{ByteMap, Choice, Event, Outcome};
use br_sexpr::{MOST_BYTES, read};
use br_source_meaning::{Finished, Interp};
use br_syntax::from_tree;
use br_words::Size;
use sqlite_items::Items;
use std::alloc::Global;
use std::fmt::Write;
use std::test::Fail;

// What a run is given: the words of the arguments, bytes in memory from an address on, the words
// that devices are read as, the bytes of a buffer at the start of the stack region, and fuel.
#[derive(Clone, Copy)]
struct Given {
    args: &'static [u32],
    memory: (u32, &'static [u8]),
    answers: &'static [u32],
    buffer: &'static [u8],
    fuel: u32,
}

const NOTHING: Given = Given {
    args: &[],
    memory: (0, b""),
    answers: &[],
    buffer: b"",
    fuel: 1000,
};

// Runs the first function of a text to its end.
fn run(alloc: Global, text: &str, given: &Given) -> Result<Finished, Fail> {
    if text.len() > MOST_BYTES {
        return Err(Fail::new("a long text"));
    }
    let program = from_tree(alloc, read(alloc, text.as_bytes())?.as_slice())?;
    let mut memory = ByteMap::new(alloc);
    let (a, bytes) = given.memory;
    if a > 0x80300000 || bytes.len() > 100 || program.funcs.is_empty() {
        return Err(Fail::new("no such run"));
    }
    memory.add_range(a, bytes)?;
    let mut choices = Vec::new(alloc);
    if !given.buffer.is_empty() {
        choices.push(Choice {
            addr: 0x80200000,
            bytes: Items::from_slice(alloc, given.buffer)?,
        })?;
    }
    let interp = Interp::new(
        alloc,
        &program,
        0,
        given.args,
        memory,
        given.answers,
        choices.as_slice(),
    )?;
    Ok(interp.run(given.fuel)?)
}

// The events and the end of a run, separated by commas.
fn shown(alloc: Global, done: &Finished) -> Result<String, Fail> {
    let mut text = String::new(alloc);
    for event in done.trace.as_slice() {
        match event {
            Event::Read(a, v) => write!(text, "read {a:08x} {v:08x}, ")?,
            Event::Write(a, v) => write!(text, "write {a:08x} {v:08x}, ")?,
        }
    }
    match &done.outcome {
        Outcome::Done(words) => {
            write!(text, "done")?;
            for word in words.as_slice() {
                write!(text, " {word:08x}")?;
            }
        }
        Outcome::Waiting(a) => write!(text, "waiting {a:08x}")?,
        Outcome::OutOfFuel => write!(text, "outoffuel")?,
        Outcome::Undefined => write!(text, "undefined")?,
        Outcome::NoChoice => write!(text, "nochoice")?,
    }
    Ok(text)
}

#[test]
fn expressions_and_memory(rt: HostRuntime) -> Result<(), Fail> {
    let last_byte = Given {
        memory: (0x801fffff, b"\x00"),
        ..NOTHING
    };
    let at_two = Given {
        args: &[2],
        ..NOTHING
    };
    let at_three = Given {
        args: &[3],
        ..NOTHING
    };
    let eight_words = Given {
        args: &[1, 2, 3, 4, 5, 6, 7, 8],
        ..NOTHING
    };
    let rows = [
        (
            "(fn main () (a b c) (set a (divu 7 0)) (set b (remu 7 0))
                (set c (srs 0x80000000 33)))",
            NOTHING,
            "done ffffffff 00000007 c0000000",
        ),
        (
            "(fn main () () (store4 0x801FFFFF 1))",
            last_byte,
            "undefined",
        ),
        (
            "(fn main (i) (r) (set r (table2 (1 2 3 4) i)))",
            at_two,
            "done 00000403",
        ),
        (
            "(fn main (i) (r) (set r (table2 (1 2 3 4) i)))",
            at_three,
            "undefined",
        ),
        (
            "(fn main (a b c d e f g h) (h g f e d c b a))",
            eight_words,
            "done 00000008 00000007 00000006 00000005 00000004 00000003 00000002 00000001",
        ),
    ];
    for (text, given, expected) in rows {
        let done = run(rt.alloc(), text, &given)?;
        assert_eq!(rt; shown(rt.alloc(), &done)?.as_str(), expected, "in {text}");
    }
    let five = Given {
        args: &[5],
        ..NOTHING
    };
    let zero = Given {
        args: &[0],
        ..NOTHING
    };
    let selects = "(fn main (a) (r) (set r (ite a (divu 100 a) (load4 0))))";
    let counts = "(fn main () (r) (set r 0) (while (ite (ltu r 9) 1 0) (set r (add r 4))))";
    for (text, given, expected) in [
        (selects, five, "done 00000014"),
        (selects, zero, "undefined"),
        (counts, NOTHING, "done 0000000c"),
    ] {
        let done = run(rt.alloc(), text, &given)?;
        assert_eq!(rt; shown(rt.alloc(), &done)?.as_str(), expected, "in {text}");
    }
    let eight = Given {
        memory: (0x80100000, b"\x00\x00\x00\x00\x00\x00\x00\x00"),
        ..NOTHING
    };
    let store = "(fn main () (r) (store2 0x80100001 0x1234) (set r (load4 0x80100001)))";
    let done = run(rt.alloc(), store, &eight)?;
    assert_eq!(rt; shown(rt.alloc(), &done)?.as_str(), "done 00001234");
    assert_eq!(rt; done.memory.read(0x80100000, Size::Four), Some(0x00123400));
    assert_eq!(rt; done.memory.read(0x80100004, Size::Four), Some(0));
    Ok(())
}

#[test]
fn devices_and_buffers(rt: HostRuntime) -> Result<(), Fail> {
    let answered = Given {
        answers: &[5],
        ..NOTHING
    };
    let ready = Given {
        answers: &[0],
        ..NOTHING
    };
    let chosen = Given {
        buffer: b"\x44\x33\x22\x11\x44\x33\x22\x11\x44\x33\x22\x11\x44\x33\x22\x11",
        ..NOTHING
    };
    let devices =
        "(fn main () (r) (interact () MMIOWRITE 0x10012008 1) (interact (r) MMIOREAD 0x1001200C))";
    let buffer = "(fn main () () (stackalloc p 16 (interact () MMIOWRITE 0x1001200C (load4 p))))";
    let rows = [
        (
            devices,
            NOTHING,
            "write 10012008 00000001, waiting 1001200c",
        ),
        (
            devices,
            answered,
            "write 10012008 00000001, read 1001200c 00000005, done 00000005",
        ),
        (
            "(fn main () (r) (interact (r) MMIOREAD 0x80100000))",
            NOTHING,
            "undefined",
        ),
        (
            "(fn main () (r) (interact (r) MMIOREAD 0x1001200E))",
            NOTHING,
            "undefined",
        ),
        (
            "(fn main () (r) (interact () MMIOWRITE 0x10013000 65)
                (interact (r) MMIOREAD 0x10013004))",
            ready,
            "write 10013000 00000041, read 10013004 00000000, done 00000000",
        ),
        (buffer, NOTHING, "nochoice"),
        (buffer, chosen, "write 1001200c 11223344, done"),
        (
            "(fn main () (r) (set v0 0) (set v1 1) (set v2 2)
                (stackalloc p 16 (store4 (add p 12) 7) (set r (load4 (add p 12))))
                (set r (add r v0)) (set r (add r v1)) (set r (add r v2)))",
            chosen,
            "done 0000000a",
        ),
    ];
    for (text, given, expected) in rows {
        let done = run(rt.alloc(), text, &given)?;
        assert_eq!(rt; shown(rt.alloc(), &done)?.as_str(), expected, "in {text}");
    }
    Ok(())
}

#[test]
fn loops_and_calls(rt: HostRuntime) -> Result<(), Fail> {
    let no_fuel = Given { fuel: 0, ..NOTHING };
    let one_call = Given { fuel: 1, ..NOTHING };
    let call = "(fn main () () (call () f)) (fn f () ())";
    let missing = "(fn main () () (call () f)) (fn g () ())";
    let rows = [
        ("(fn main () () (while 1))", NOTHING, "outoffuel"),
        (
            "(fn main () (r) (set r 1) (call (r) f)) (fn f () (r))",
            NOTHING,
            "undefined",
        ),
        (call, no_fuel, "outoffuel"),
        (call, one_call, "done"),
        (missing, no_fuel, "outoffuel"),
        (missing, one_call, "undefined"),
        (
            "(fn f () (r) (call (r) g)) (fn g () (r) (set r 1)) (fn g () (r) (set r 2))",
            NOTHING,
            "done 00000001",
        ),
        (
            "(fn main () (n s) (set n 3) (set s 0) (while n (call (s) add n s) (set n (sub n 1))))
                (fn add (a b) (s) (set s (add a b)))",
            NOTHING,
            "done 00000000 00000006",
        ),
    ];
    for (text, given, expected) in rows {
        let done = run(rt.alloc(), text, &given)?;
        assert_eq!(rt; shown(rt.alloc(), &done)?.as_str(), expected, "in {text}");
    }
    Ok(())
}

// A text with a part so many times between two others.
fn repeated(alloc: Global, first: &str, part: &str, n: u32, last: &str) -> Result<String, Fail> {
    let mut text = String::new(alloc);
    write!(text, "{first}")?;
    for _ in 0..n {
        write!(text, "{part}")?;
    }
    write!(text, "{last}")?;
    Ok(text)
}

// Functions that each call the next inside a sequence, to the last.
fn chain(alloc: Global, calls: u32) -> Result<String, Fail> {
    let mut text = String::new(alloc);
    for i in 0..calls {
        write!(
            text,
            "(fn f{i} () (r) (seq (call (r) f{})))",
            u64::from(i) + 1
        )?;
    }
    write!(text, "(fn f{calls} () (r) (set r 7))")?;
    Ok(text)
}

#[test]
fn much_is_open(rt: HostRuntime) -> Result<(), Fail> {
    let alloc = rt.alloc();
    let functions = chain(alloc, 818)?;
    let done = run(alloc, functions.as_str(), &NOTHING)?;
    assert_eq!(rt; shown(alloc, &done)?.as_str(), "done 00000007");
    let open = repeated(alloc, "(fn main () (r) ", "(seq ", 250, "(set r 7)")?;
    let commands = repeated(alloc, open.as_str(), ")", 251, "")?;
    let done = run(alloc, commands.as_str(), &NOTHING)?;
    assert_eq!(rt; shown(alloc, &done)?.as_str(), "done 00000007");
    let fuel = Given {
        fuel: 100_000,
        ..NOTHING
    };
    let done = run(alloc, "(fn main () () (call () main))", &fuel)?;
    assert_eq!(rt; shown(alloc, &done)?.as_str(), "outoffuel");
    Ok(())
}
