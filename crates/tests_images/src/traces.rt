// Trace texts.

use br_base::OrMemory;
use br_bytes::Event;
use br_image::{TraceFault, read_trace};
use std::test::Fail;

#[test]
fn trace_texts(rt: HostRuntime) -> Result<(), Fail> {
    let cases = [
        // The line at fault, and the number of events where there is none.
        ("", 0, 0),
        ("halted\n", 0, 0),
        ("read 10012008 00000000\nwrite 10012008 00800000\n", 0, 2),
        (
            "write 1001200c 0000000c\nhalted 00000001\nmem 80100000 0034\nmem 80100002 00\n",
            0,
            1,
        ),
        ("halted 1 2 3 4 5 6 7 8\n", 1, 0),
        (
            "halted 00000001 00000002 00000003 00000004 00000005 00000006 00000007 00000008\n",
            0,
            0,
        ),
        (
            "halted 00000001 00000002 00000003 00000004 00000005 00000006 00000007 00000008 \
            00000009\n",
            1,
            0,
        ),
        ("waiting 1001200d\n", 0, 0),
        ("trapped illegal 80000000\n", 0, 0),
        ("trapped codewrite 00000001\n", 0, 0),
        ("trapped fetchoutside 80000000\n", 0, 0),
        ("trapped fetchmisaligned 80000000\n", 0, 0),
        ("trapped accessoutside 80000000\n", 0, 0),
        ("trapped deviceaccess 80000000\n", 0, 0),
        ("trapped other 80000000\n", 1, 0),
        ("trapped illegal\n", 1, 0),
        ("running\n", 0, 0),
        ("running", 1, 0),
        ("running\n\n", 2, 0),
        ("running\nmem 80100000 00\n", 2, 0),
        ("read 10012008 00000000\nmem 80100000 00\n", 2, 0),
        ("halted\nmem 80100001 00\nmem 80100000 00\n", 3, 0),
        ("halted\nmem 80100000 00\nread 10012008 00000000\n", 3, 0),
        ("halted\nhalted\n", 2, 0),
        ("halted\nmem 800fffff 00\n", 2, 0),
        ("read 10012008\n", 1, 0),
        ("read 10012008 0000000A\n", 1, 0),
        ("read 10012008 00000000 \n", 1, 0),
        ("read 10012008 00000000\nread 10012008", 2, 0),
    ];
    for (text, fault, events) in &cases {
        assert!(rt; text.len() <= 1_000);
        match read_trace(rt.alloc(), text.as_bytes()) {
            Ok(read) => assert_eq!(rt; (0, read.len()), (*fault, *events)),
            Err(OrMemory::Fault(TraceFault::BadTraceLine(line))) => assert_eq!(rt; line, *fault),
            Err(OrMemory::Memory) => return Err(Fail::from("no memory")),
        }
    }
    let text = b"read 10012008 00000001\nwrite 10012008 00800001\nrunning\n";
    let read = match read_trace(rt.alloc(), text) {
        Ok(read) => read,
        Err(_) => return Err(Fail::from("a trace text")),
    };
    let events = [
        Event::Read(0x1001_2008, 1),
        Event::Write(0x1001_2008, 0x0080_0001),
    ];
    assert_eq!(rt; read.as_slice(), events.as_slice());
    Ok(())
}
