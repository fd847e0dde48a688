// The ends and names, called as their callers would.

ghost use Rattle.std.specs.Prelude.{None};

use crate::{
    Failed, MemSink, MemSource, Name, OrMemory, ReadEnd, Sink, StdSink, StdSource, SureSink,
    read_all, write_all,
};
use std::io;
use std::io::{Read, Write};
use std::test::Fail;

#[test]
fn names(rt: HostRuntime) -> Result<(), Fail> {
    let cases: [(&[u8], bool); 6] = [
        (b"main", true),
        (b"_1", true),
        (b"A9_z", true),
        (b"", false),
        (b"9a", false),
        (b"a-b", false),
    ];
    for (bytes, named) in cases {
        let name = Name::from_bytes(bytes.to_vec(rt.alloc())?);
        assert_eq!(rt; name.is_some(), named);
    }
    let name = Name::from_bytes(b"poll".to_vec(rt.alloc())?).ok_or("a name")?;
    assert_eq!(rt; name.copy()?.bytes(), b"poll".as_slice());
    Ok(())
}

#[test]
fn reads_all(rt: HostRuntime) -> Result<(), Fail> {
    let cases = [(12, Ok(())), (11, Err(ReadEnd::TooLong))];
    for (limit, wanted) in cases {
        let bytes = b"twelve bytes".to_vec(rt.alloc())?;
        let mut input = MemSource::new(bytes, 5, Vec::new(rt.alloc()));
        let answer = read_all(rt.alloc(), &mut input, limit);
        assert_eq!(rt; answer.map(|_| ()), wanted);
    }
    // Reads 0 to 2 give 5, 5 and 2 bytes, and read 3 is the end.
    for failing in 0..4 {
        let bytes = b"twelve bytes".to_vec(rt.alloc())?;
        let mut input = MemSource::new(bytes, 5, [failing].to_vec(rt.alloc())?);
        let answer = read_all(rt.alloc(), &mut input, 12);
        assert_eq!(rt; answer.map(|_| ()), Err(ReadEnd::Failed));
    }
    Ok(())
}

#[test]
fn writes_all(rt: HostRuntime) -> Result<(), Fail> {
    let mut sink = MemSink::new(rt.alloc(), 3, 8, Vec::new(rt.alloc()))?;
    assert_eq!(rt; write_all(&mut sink, b"bytes"), Err(Failed));
    assert_eq!(rt; sink.held(), b"byt".as_slice());
    assert_eq!(rt; write_all(&mut SureSink::new(), b"bytes"), Ok(()));
    Ok(())
}

/// A sink that counts its writes, and moves at most `most` bytes at each.
#[derive(Drop)]
struct Counting {
    most: usize,
    writes: usize,
}

impl Sink for Counting {
    ghost held = { λ _. None };

    ghost faults = { λ _. 0 };

    fn write(&mut self, piece: &[u8]) -> Result<usize, Failed> {
        self.writes = self.writes.saturating_add(1);
        Ok(self.most.max(1).min(piece.len()))
    }
}

#[test]
fn writes_offer_all_that_is_left(rt: HostRuntime) -> Result<(), Fail> {
    let bytes = vec![in rt.alloc(); b'x'; 10_000]?;
    // How many bytes there are, how many a write moves at most, and how many writes that takes.
    let cases = [
        (0, 1, 0),
        (1, 1, 1),
        (10, 1, 10),
        (10, 3, 4),
        (10, 9, 2),
        (10, 10, 1),
        (10_000, 4_096, 3),
        (10_000, 65_536, 1),
    ];
    for (count, most, writes) in cases {
        let mut sink = Counting { most, writes: 0 };
        let piece = bytes.get(..count).ok_or("a piece")?;
        assert_eq!(rt; write_all(&mut sink, piece), Ok(()));
        assert_eq!(rt; sink.writes, writes);
    }
    Ok(())
}

/// A reader that gives so many bytes, and at most `most` at a read.
#[derive(Drop)]
struct Trickle {
    left: usize,
    most: usize,
}

impl Read for Trickle {
    fn read(&mut self, buf: &mut [u8]) -> io::Result<usize> {
        let n = self.most.min(self.left).min(buf.len());
        self.left -= n;
        Ok(n)
    }
}

#[test]
fn reads_through_std(rt: HostRuntime) -> Result<(), Fail> {
    let mut input = StdSource::new(b"bytes".as_slice());
    let bytes = read_all(rt.alloc(), &mut input, 5)?;
    assert_eq!(rt; bytes.as_slice(), b"bytes".as_slice());
    let limit = 1_048_576;
    for most in [1, 4_000, 4_096, 65_536] {
        let cases = [(limit, Ok(limit)), (limit + 1, Err(ReadEnd::TooLong))];
        for (left, wanted) in cases {
            let mut input = StdSource::new(Trickle { left, most });
            let answer = read_all(rt.alloc(), &mut input, limit);
            assert_eq!(rt; answer.map(|bytes| bytes.len()), wanted);
        }
    }
    Ok(())
}

/// A writer that keeps what it takes, at most `most` bytes at a write.
#[derive(Drop)]
struct Narrow {
    held: Vec<u8>,
    most: usize,
}

impl Write for Narrow {
    fn write(&mut self, buf: &[u8]) -> io::Result<usize> {
        let n = self.most.min(buf.len());
        self.held.extend_from_slice(&buf[..n])?;
        Ok(n)
    }

    fn flush(&mut self) -> io::Result<()> {
        Ok(())
    }
}

#[test]
fn writes_through_std(rt: HostRuntime) -> Result<(), Fail> {
    for most in [1, 2, 4, 5, 6] {
        let mut writer = Narrow {
            held: Vec::new(rt.alloc()),
            most,
        };
        assert_eq!(rt; write_all(&mut StdSink::new(&mut writer), b"bytes"), Ok(()));
        assert_eq!(rt; writer.held.as_slice(), b"bytes".as_slice());
    }
    Ok(())
}

#[test]
fn maps_faults(rt: HostRuntime) -> Result<(), Fail> {
    assert_eq!(rt; OrMemory::Fault(2).map(|n: u32| n / 2), OrMemory::Fault(1));
    assert_eq!(rt; OrMemory::Memory.map(|n: u32| n / 2), OrMemory::Memory);
    Ok(())
}
