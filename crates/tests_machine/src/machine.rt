// Words of code by the manual, how machines begin, and how runs of them end.

ghost use Rattle.std.specs.Prelude.{◌≡◌, ℕ, ◌+◌, ◌<◌, ◌≤◌, length, IfOk};
ghost use Rattle.br_words.specs.Layout.{data_base, stack_base};
ghost use Rattle.br_machine.specs.Start.{IsInData};
ghost use Rattle.br_machine.specs.Pages.{page_count};

use br_base::NoMemory;
use br_bytes::{ByteMap, Event};
use br_machine::{End, Machine, Stepped, Trace, Trap, memories_of_the_data_region, run};
use br_words::Layout;
use std::alloc::Global;

// A memory with these bytes.
fn memory_of(alloc: Global, a: u32, bytes: &[u8]) -> Result<ByteMap, NoMemory>
    requires low { data_base ≤ a }
    requires high { a + length bytes.now ≤ stack_base }
    ensures { IfOk result (λ m. IsInData m) }
{
    memories_of_the_data_region();
    let mut memory = ByteMap::new(alloc);
    match memory.add_range(a, bytes) {
        Ok(()) => Ok(memory),
        Err(_) => Err(NoMemory),
    }
}

// How a run of at most ten steps with no answers ends.
fn end_of(alloc: Global, layout: Layout, code: &[u32], junk: u32) -> Result<End, NoMemory>
    requires { length code.now ≤ 2 }
{
    let memory = memory_of(alloc, 0x8010_0000, &[])?;
    let mut m = Machine::start(alloc, layout, code, 0, &[], &memory, junk)?;
    let mut trace = Trace::with_room(alloc, 10)?;
    Ok(run(&mut m, &[], 10, &mut trace))
}

#[test]
fn ends_of_short_code(rt: HostRuntime) -> Result<(), NoMemory> {
    let one = [
        (0x0000_0000, 0, End::Trapped(Trap::Illegal, 0x8000_0000)),
        (0xffff_ffff, 0, End::Trapped(Trap::Illegal, 0x8000_0000)),
        // ecall; jal x0, 0
        (0x0000_0073, 0, End::Halted),
        (0x0000_006f, 0, End::Running),
        // jalr x0, 0(x1)
        (0x0000_8067, 0, End::Trapped(Trap::FetchOutside, 0)),
        (
            0x0000_8067,
            u32::MAX,
            End::Trapped(Trap::FetchMisaligned, 0x8000_0000),
        ),
        // lw x1, 0(x0)
        (
            0x0000_2083,
            0,
            End::Trapped(Trap::AccessOutside, 0x8000_0000),
        ),
        // sw x0, 0(x1)
        (
            0x0000_a023,
            0x8000_0003,
            End::Trapped(Trap::CodeWrite, 0x8000_0000),
        ),
        (
            0x0000_a023,
            0x8000_0004,
            End::Trapped(Trap::FetchOutside, 0x8000_0004),
        ),
        (
            0x0000_a023,
            0x802f_fffd,
            End::Trapped(Trap::AccessOutside, 0x8000_0000),
        ),
        // lw x5, 0(x1)
        (0x0000_a283, 0x1002_4048, End::Waiting(0x1002_4048)),
    ];
    for (word, junk, end) in one {
        assert_eq!(rt; end_of(rt.alloc(), Layout::One, &[word], junk)?, end);
    }
    let two = [
        (0x0010_0073, 0, End::Trapped(Trap::Illegal, 0x8030_0000)),
        // sw x0, 0(x1): over the end of the stack region, after the code, and at RAM's ends
        (
            0x0000_a023,
            0x802f_fffd,
            End::Trapped(Trap::CodeWrite, 0x8030_0000),
        ),
        (
            0x0000_a023,
            0x802f_fffc,
            End::Trapped(Trap::FetchOutside, 0x8030_0004),
        ),
        (
            0x0000_a023,
            0x806f_fffc,
            End::Trapped(Trap::FetchOutside, 0x8030_0004),
        ),
        (
            0x0000_a023,
            0x800f_ffff,
            End::Trapped(Trap::AccessOutside, 0x8030_0000),
        ),
    ];
    for (word, junk, end) in two {
        assert_eq!(rt; end_of(rt.alloc(), Layout::Two, &[word], junk)?, end);
    }
    // lui x5, 0x10012; lb x5, 0(x5), and auipc x5, 0; sw x5, 0(x5)
    let lb = end_of(rt.alloc(), Layout::One, &[0x1001_22b7, 0x0002_8283], 0)?;
    assert_eq!(rt; lb, End::Trapped(Trap::DeviceAccess, 0x8000_0004));
    let sw = end_of(rt.alloc(), Layout::One, &[0x0000_0297, 0x0052_a023], 0)?;
    assert_eq!(rt; sw, End::Trapped(Trap::CodeWrite, 0x8000_0004));
    Ok(())
}

// lui x5, 0x10024; lw x6, 72(x5); sw x6, 76(x5); jal x7, 4; auipc x8, 1; ecall
#[test]
fn an_answer_is_written(rt: HostRuntime) -> Result<(), NoMemory> {
    let code = [
        0x1002_42b7,
        0x0482_a303,
        0x0462_a623,
        0x0040_03ef,
        0x0000_1417,
        0x0000_0073,
    ];
    let memory = memory_of(rt.alloc(), 0x8010_0000, &[])?;
    let mut m = Machine::start(rt.alloc(), Layout::One, &code, 0, &[], &memory, 0)?;
    let mut trace = Trace::with_room(rt.alloc(), 10)?;
    assert_eq!(rt; run(&mut m, &[7, 8], 10, &mut trace), End::Halted);
    let read = Event::Read(0x1002_4048, 7);
    let written = Event::Write(0x1002_404c, 7);
    assert_eq!(rt; trace.events(), [read, written].as_slice());
    assert_eq!(rt; m.register(6), 7);
    assert_eq!(rt; m.register(7), 0x8000_0010);
    assert_eq!(rt; m.register(8), 0x8000_1010);
    assert_eq!(rt; m.pc(), 0x8000_0014);
    assert_eq!(rt; m.step(None), Stepped::Halted);
    Ok(())
}

// A start with eight arguments and a memory over two pages, read back.
#[test]
fn starts_are_read_back(rt: HostRuntime) -> Result<(), NoMemory> {
    let code = [0x0010_0073, 0xdead_beef];
    let args = [1, 2, 3, 4, 5, 6, 7, 0xffff_ffff];
    let memory = memory_of(rt.alloc(), 0x8010_0ffe, &[0x11, 0x22, 0x33])?;
    for (layout, base) in [(Layout::One, 0x8000_0000), (Layout::Two, 0x8030_0000)] {
        let m = Machine::start(rt.alloc(), layout, &code, 4, &args, &memory, 0xa1b2_c3d4)?;
        assert_eq!(rt; m.pc(), base + 4);
        for r in 0..32 {
            let expected = match r {
                0 => 0,
                10..=16 => r - 9,
                17 => 0xffff_ffff,
                _ => 0xa1b2_c3d4,
            };
            assert_eq!(rt; m.register(r), expected);
        }
        let bytes = [
            (base, 0x73),
            (base + 1, 0x00),
            (base + 2, 0x10),
            (base + 3, 0x00),
            (base + 4, 0xef),
            (base + 7, 0xde),
            (base + 8, 0x00),
            (base + 0xf_ffff, 0x00),
            (0x8010_0000, 0xd4),
            (0x8010_0ffd, 0xc3),
            (0x8010_0ffe, 0x11),
            (0x8010_0fff, 0x22),
            (0x8010_1000, 0x33),
            (0x8010_1001, 0xc3),
            (0x801f_ffff, 0xa1),
            (0x8020_0002, 0xb2),
            (0x802f_ffff, 0xa1),
        ];
        for (a, byte) in bytes {
            assert_eq!(rt; m.byte(a), Some(byte));
        }
        for a in [0, 0x7fff_ffff, 0x8070_0000] {
            assert_eq!(rt; m.byte(a), None);
        }
    }
    Ok(())
}

// Whether of so many pages these are made, and no others.
fn are_made(m: &Machine, count: u32, first: u32, second: u32) -> bool
    requires { count ≤ page_count m.now.state.layout }
{
    for page in 0..count {
        if m.made(page) != (page == first || page == second) {
            return false;
        }
    }
    true
}

// lui x5, 0x80101; lw x6, 0(x5); sw x0, -2(x5): which of so many pages are made at the start, after
// the load and after the store. The memory is in the first page of the data region.
fn stores_make_pages(
    alloc: Global,
    layout: Layout,
    count: u32,
    first: u32,
) -> Result<bool, NoMemory>
    requires count { count ≤ page_count layout }
    requires first { first < count }
{
    let code = [0x8010_12b7, 0x0002_a303, 0xfe02_af23];
    let memory = memory_of(alloc, 0x8010_0000, &[0; 8])?;
    let mut m = Machine::start(alloc, layout, &code, 0, &[], &memory, 0x0102_0304)?;
    let start = are_made(&m, count, first, first);
    let ran = m.step(None) == Stepped::Ran && m.step(None) == Stepped::Ran;
    let loaded = m.register(6) == 0x0102_0304 && are_made(&m, count, first, first);
    let stored = m.step(None) == Stepped::Ran && are_made(&m, count, first, first + 1);
    let kept = m.byte(0x8010_0ffd) == Some(3) && m.byte(0x8010_1002) == Some(2);
    let zero = m.byte(0x8010_0ffe) == Some(0) && m.byte(0x8010_1001) == Some(0);
    Ok(start && ran && loaded && stored && kept && zero)
}

#[test]
fn pages_are_made_when_they_are_stored_in(rt: HostRuntime) -> Result<(), NoMemory> {
    assert!(rt; stores_make_pages(rt.alloc(), Layout::One, 768, 256)?);
    assert!(rt; stores_make_pages(rt.alloc(), Layout::Two, 1536, 0)?);
    Ok(())
}
