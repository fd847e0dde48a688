ghost use Rattle.std.specs.Prelude.{◌+◌, ◌^◌, ◌<◌};

use br_base::OrMemory;
use br_bytes::{ByteMap, Overlap};
use br_words::Size;
use std::collections::BTreeMap;
use std::test::Fail;

// Words are stored with their lowest byte first, and addresses go on at 0 after 2^32 - 1.
#[test]
fn bytes_of_a_memory(rt: HostRuntime) -> Result<(), Fail> {
    let mut memory = ByteMap::new(rt.alloc());
    memory.add_range(0x80100000, b"\x01\x02\x03\x04\x05")?;
    memory.add_range(0xffffffff, b"\x06")?;
    memory.add_range(0, b"\x07")?;
    let rows = [
        (0x80100000, Size::One, Some(0x01)),
        (0x80100001, Size::Two, Some(0x0302)),
        (0x80100001, Size::Four, Some(0x05040302)),
        (0x80100002, Size::Four, None),
        (0xffffffff, Size::Two, Some(0x0706)),
        (0xffffffff, Size::Four, None),
    ];
    for (a, size, number) in rows {
        assert_eq!(rt; memory.read(a, size), number);
    }
    assert!(rt; memory.write(0x80100000, Size::Two, 0xaabbccdd));
    assert!(rt; !memory.write(0x80100002, Size::Four, 0));
    assert_eq!(rt; memory.read(0x80100000, Size::Four), Some(0x0403ccdd));
    let overlap = memory.add_range(0x800ffffe, b"\x00\x00\x00");
    assert!(rt; overlap == Err(OrMemory::Fault(Overlap(0x80100000))));
    assert!(rt; !memory.remove_range(0x80100000, 6)?);
    assert!(rt; memory.remove_range(0x80100000, 5)?);
    assert_eq!(rt; memory.read(0x80100000, Size::One), None);
    Ok(())
}

// Ranges that touch are one, and one that is cut is two. 0xffffffff and 0 are not consecutive.
#[test]
fn ranges_of_a_memory(rt: HostRuntime) -> Result<(), Fail> {
    let mut memory = ByteMap::new(rt.alloc());
    memory.add_range(0x80100000, b"\x01\x02\x03\x04")?;
    memory.add_range(0x80100004, b"\x05\x06\x07\x08")?;
    assert_eq!(rt; memory.ranges(), 1);
    assert!(rt; memory.remove_range(0x80100002, 4)?);
    assert_eq!(rt; memory.ranges(), 2);
    assert_eq!(rt; memory.range_start(1), 0x80100006);
    assert_eq!(rt; memory.range_bytes(1), b"\x07\x08".as_slice());
    memory.clear_range(0, 0xffffffff)?;
    memory.add_range(0xfffffffe, b"\x01\x02")?;
    memory.add_range(0, b"\x03\x04")?;
    assert_eq!(rt; memory.ranges(), 2);
    assert_eq!(rt; memory.range_start(0), 0);
    assert_eq!(rt; memory.read(0xfffffffe, Size::Four), Some(0x04030201));
    Ok(())
}

// The next number of a row: 48271 times the last modulo 2^31 - 1, as C++'s minstd_rand has it.
fn next(seed: u32) -> u32
    ensures { result < 2 ^ 31 }
{
    (u64::from(seed) * 48271 % 0x7fffffff) as u32
}

// Whether a map has each address of a range, and the first that it has.
fn bytes_there(plain: &BTreeMap<u32, u8>, a: u32, n: u32) -> (bool, Option<u32>)
    requires { a + n < 2 ^ 32 }
{
    let mut whole = true;
    let mut first = None;
    for q in a..a + n {
        let there = plain.contains_key(&q);
        whole = whole && there;
        if there && first.is_none() {
            first = Some(q);
        }
    }
    (whole, first)
}

// A memory has the bytes of a plain map in a window, and as many ranges as that has runs.
fn same_bytes(memory: &ByteMap, plain: &BTreeMap<u32, u8>, a: u32, n: u32) -> bool
    requires { a + n < 2 ^ 32 }
{
    let mut runs = 0_u32;
    let mut inside = false;
    let mut same = true;
    for q in a..a + n {
        let byte = plain.get(&q).copied();
        same = same && memory.byte(q) == byte;
        if byte.is_some() && !inside {
            runs = runs.wrapping_add(1);
        }
        inside = byte.is_some();
    }
    same && memory.ranges() == runs
}

// Calls with pseudo-random places and lengths in a small window do what they do to a plain map.
#[test]
fn calls_as_on_a_plain_map(rt: HostRuntime) -> Result<(), Fail> {
    let mut memory = ByteMap::new(rt.alloc());
    let mut plain: BTreeMap<u32, u8> = BTreeMap::new(rt.alloc());
    let bytes = b"\x00\x01\x02\x03\x04\x05\x06\x07\x08";
    let mut seed = 1;
    for _ in 0..500 {
        seed = next(seed);
        let a = 0x80100000 + seed % 48;
        seed = next(seed);
        let n = seed % 9;
        seed = next(seed);
        let (whole, first) = bytes_there(&plain, a, n);
        if seed % 4 < 2 {
            let added = memory.add_range(a, &bytes[..n as usize]);
            match first {
                Some(at) => assert!(rt; added == Err(OrMemory::Fault(Overlap(at)))),
                None => {
                    added?;
                    for i in 0..n {
                        plain.insert(a + i, i as u8)?;
                    }
                }
            }
        } else {
            let take = seed % 4 == 2 || whole;
            if seed % 4 == 2 {
                memory.clear_range(a, n)?;
            } else {
                assert_eq!(rt; memory.remove_range(a, n)?, take);
            }
            if take {
                for q in a..a + n {
                    plain.remove(&q);
                }
            }
        }
        assert!(rt; same_bytes(&memory, &plain, 0x80100000, 64));
    }
    Ok(())
}
