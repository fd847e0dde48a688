// The command `judge` over ends in memory.

use crate::calling::{NEVER, answer, repeated};
use br_base::Status;
use std::test::Fail;

/// The first events of the firmware: the light's pin becomes an output, and the chip is selected.
const BEGINS: &[u8] = b"read 10012008 00000000\nwrite 10012008 00800000\nwrite 10024018 00000002\n";

/// A read that finds the port for bytes to send busy.
const BUSY: &[u8] = b"read 10024048 80000000\n";

/// The chip is released, and the call ends.
const GIVES_UP: &[u8] = b"write 10024018 00000000\nhalted 00000001\n";

#[test]
fn verdicts(rt: HostRuntime) -> Result<(), Fail> {
    let cases: [(&[u8], &[u8]); 6] = [
        (b"", b"prefix 0\n"),
        (b"write 10024018 00000002\n", b"departs 1\n"),
        (b"read 10012008 00000000\n", b"prefix 1\n"),
        (
            b"read 10012008 00000000\nwrite 10012008 00000000\nrunning\n",
            b"departs 2\n",
        ),
        (b"running\n", b"prefix 0\n"),
        (b"halted\nmem 80100000 00\n", b"prefix 0\n"),
    ];
    for (trace, verdict) in cases {
        let (status, out, err) = answer(rt.alloc(), "judge", trace, NEVER)?;
        assert_eq!(rt; status, Status::Done);
        assert_eq!(rt; out.held(), verdict);
        assert_eq!(rt; err.held(), b"".as_slice());
    }
    Ok(())
}

#[test]
fn verdicts_on_a_port_that_stays_busy(rt: HostRuntime) -> Result<(), Fail> {
    // A byte is given up after 1,000 reads, and not before.
    let cases: [(usize, &[u8]); 3] = [
        (1_000, b"prefix 1004\n"),
        (999, b"departs 1003\n"),
        (1_001, b"departs 1004\n"),
    ];
    for (times, verdict) in cases {
        let mut trace = repeated(rt.alloc(), BEGINS, (BUSY, times), 0)?;
        trace.extend_from_slice(GIVES_UP)?;
        let (status, out, _) = answer(rt.alloc(), "judge", &trace, NEVER)?;
        assert_eq!(rt; status, Status::Done);
        assert_eq!(rt; out.held(), verdict);
    }
    Ok(())
}

#[test]
fn refused_traces(rt: HostRuntime) -> Result<(), Fail> {
    let cases: [(&[u8], &[u8]); 4] = [
        (b"read 10012008", b"brc: refused BadTraceLine 1\n"),
        (
            b"read 10012008 00000000\nwrite 10012008 0080000\n",
            b"brc: refused BadTraceLine 2\n",
        ),
        (
            b"halted\nread 10012008 00000000\n",
            b"brc: refused BadTraceLine 2\n",
        ),
        (b"done\n", b"brc: refused BadTraceLine 1\n"),
    ];
    for (trace, line) in cases {
        let (status, out, err) = answer(rt.alloc(), "judge", trace, NEVER)?;
        assert_eq!(rt; status, Status::Refused);
        assert_eq!(rt; out.held(), b"".as_slice());
        assert_eq!(rt; err.held(), line);
    }
    Ok(())
}
