// Scripts.

use br_base::{NoMemory, OrMemory};
use br_image::{ScriptFault, read_interp, read_run};
use std::alloc::Global;
use std::test::Fail;

/// The fault of a text as a run script, or as an interp script.
fn fault_of(alloc: Global, text: &[u8], run: bool) -> Result<Option<ScriptFault>, NoMemory> {
    if text.len() > 1_073_741_824 {
        return Err(NoMemory);
    }
    let fault = if run {
        read_run(alloc, text).err()
    } else {
        read_interp(alloc, text).err()
    };
    match fault {
        None => Ok(None),
        Some(OrMemory::Fault(fault)) => Ok(Some(fault)),
        Some(OrMemory::Memory) => Err(NoMemory),
    }
}

#[test]
fn a_run_script_is_read(rt: HostRuntime) -> Result<(), Fail> {
    let text = b"brrun 1\ncall main\nargs 00000001 ffffffff\nmem 80100000 0011\nmem 80100002 ff\n\
        junk 11223344\nanswer 00000005 2\nanswer 00000006 1\nlimit 100\nend\nbrimage 2\n";
    let (script, at) = match read_run(rt.alloc(), text) {
        Ok(read) => read,
        Err(_) => return Err(Fail::from("a script")),
    };
    assert_eq!(rt; script.call.bytes(), b"main".as_slice());
    assert_eq!(rt; script.args.as_slice(), [1, 0xffff_ffff].as_slice());
    let [first, second] = script.mem.as_slice() else {
        return Err(Fail::from("two ranges"));
    };
    assert_eq!(rt;
        (first.addr, first.bytes.as_slice()),
        (0x8010_0000, [0, 0x11].as_slice())
    );
    assert_eq!(rt;
        (second.addr, second.bytes.as_slice()),
        (0x8010_0002, [0xff].as_slice())
    );
    assert_eq!(rt; script.junk, 0x1122_3344);
    assert_eq!(rt; script.answers.as_slice(), [5, 5, 6].as_slice());
    assert_eq!(rt; script.limit, 100);
    assert_eq!(rt; &text[at..], b"brimage 2\n".as_slice());
    Ok(())
}

#[test]
fn an_interp_script_is_read(rt: HostRuntime) -> Result<(), Fail> {
    let text =
        b"brinterp 1\ncall f\nargs\nchoice 80200000 01ff\nchoice 00000000\nanswer 00000007 1\n\
        limit 0\nend\n(fn";
    let (script, at) = match read_interp(rt.alloc(), text) {
        Ok(read) => read,
        Err(_) => return Err(Fail::from("a script")),
    };
    assert_eq!(rt; script.call.bytes(), b"f".as_slice());
    assert_eq!(rt; (script.args.len(), script.mem.len()), (0, 0));
    let [first, second] = script.choices.as_slice() else {
        return Err(Fail::from("two choices"));
    };
    assert_eq!(rt;
        (first.addr, first.bytes.as_slice()),
        (0x8020_0000, [1, 0xff].as_slice())
    );
    assert_eq!(rt; (second.addr, second.bytes.len()), (0, 0));
    assert_eq!(rt;
        (script.answers.as_slice(), script.limit),
        ([7].as_slice(), 0)
    );
    assert_eq!(rt; &text[at..], b"(fn".as_slice());
    Ok(())
}

#[test]
fn faults_of_scripts(rt: HostRuntime) -> Result<(), Fail> {
    let bad = |n: u32| Some(ScriptFault::BadScriptLine(n));
    let ends = |n: u32| Some(ScriptFault::ScriptEnds(n));
    let cases = [
        ("", ends(1)),
        ("run 1", ends(1)),
        ("run 2\nend", bad(1)),
        ("interp 1\n", bad(1)),
        ("run 1\ncall 1f\n", bad(2)),
        ("run 1\ncall f\n", ends(3)),
        ("run 1\ncall f\nargs \n", bad(3)),
        ("run 1\ncall f\nargs 0000000\n", bad(3)),
        ("run 1\ncall f\nargs  00000000\n", bad(3)),
        ("run 1\ncall f\nargs 0000000A\n", bad(3)),
        ("A00000000\n", ends(4)),
        ("A00000000 00000000\n", bad(3)),
        // Memory.
        ("Pargs\n", bad(4)),
        ("Pmem 80100000\n", bad(4)),
        ("Pmem 80100000 \n", bad(4)),
        ("Pmem 80100000 0\n", bad(4)),
        ("Pmem 80100000 0A\n", bad(4)),
        ("Pmem 800fffff 00\n", bad(4)),
        ("Pmem 801fffff 0000\n", bad(4)),
        ("Pmem 801fffff 00\n", ends(5)),
        ("Pmem 80100001 00\nmem 80100000 00\n", bad(5)),
        ("Pmem 80100000 0000\nmem 80100001 00\n", bad(5)),
        ("Pmem 80100000 0000\nmem 80100002 00\n", ends(6)),
        // The order of lines.
        ("Pchoice 80200000\n", bad(4)),
        ("Panswer 00000000 1\n", bad(4)),
        ("Plimit 1\n", bad(4)),
        ("Qmem 80100000 00\n", bad(5)),
        ("Qend\n", bad(5)),
        ("Qlimit 1\nend", ends(6)),
        ("Qlimit 1\nlimit 1\n", bad(6)),
        ("Qlimit 1\nend\nx", None),
        // Numbers.
        ("Qanswer 00000000 0\n", bad(5)),
        ("Qanswer 00000000 01\n", bad(5)),
        ("Qanswer 00000000 1000001\n", bad(5)),
        ("Qanswer 00000000 1000000\n", ends(6)),
        (
            "Qanswer 00000000 1000000\nanswer 00000000 1000000\n",
            bad(6),
        ),
        ("Qlimit 1000001\n", bad(5)),
        ("Qlimit 00000000000000000001\n", bad(5)),
        ("Qlimit 1000000\n", ends(6)),
        // Interp scripts.
        ("Ijunk 00000000\n", bad(4)),
        ("Ichoice 80200000 \n", bad(4)),
        ("Ichoice 80200000\nmem 80100000 00\n", bad(5)),
        ("Ianswer 00000000 1\nchoice 80200000\n", bad(5)),
        ("Ilimit 1\nend\n", None),
    ];
    for (lines, fault) in &cases {
        let run = !lines.starts_with('I');
        let text = lines.replace(rt.alloc(), "Q", "Pjunk 00000000\n")?;
        let text = text.replace(rt.alloc(), "P", "run 1\ncall f\nargs\n")?;
        let text = text.replace(rt.alloc(), "I", "interp 1\ncall f\nargs\n")?;
        let text = text.replace(
            rt.alloc(),
            "A0",
            "run 1\ncall f\nargs 00000001 00000002 00000003 00000004 00000005 00000006 00000007 0",
        )?;
        let text = format!(in rt.alloc(); "br{text}")?;
        assert_eq!(rt; fault_of(rt.alloc(), text.as_bytes(), run)?, *fault);
    }
    Ok(())
}
