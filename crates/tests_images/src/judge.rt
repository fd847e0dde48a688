use br_bytes::Event;
use br_judge::Judge;
use std::alloc::AllocError;
use std::test::Fail;

const TX: u32 = 0x10024048;

const RX: u32 = 0x1002404c;

const CS: u32 = 0x10024018;

const EN: u32 = 0x10012008;

const OUT: u32 = 0x1001200c;

// So many reads that find a port busy.
fn busy(trace: &mut Vec<Event>, port: u32, n: u32) -> Result<(), AllocError> {
    for _ in 0..n {
        trace.push(Event::Read(port, 0x80000000))?;
    }
    Ok(())
}

// The exchange of a byte, with the ports busy so many times.
fn exchange(trace: &mut Vec<Event>, b: u32, r: u32, n: u32) -> Result<(), AllocError> {
    busy(trace, TX, n)?;
    trace.push(Event::Read(TX, 0x7fffffff))?;
    trace.push(Event::Write(TX, b))?;
    busy(trace, RX, n)?;
    trace.push(Event::Read(RX, 0x7fffff00 | r))?;
    Ok(())
}

// A command, an address, and four bytes in exchange for those of a word.
fn transfer(
    trace: &mut Vec<Event>,
    command: u32,
    address: u32,
    sent: u32,
    received: u32,
) -> Result<(), AllocError> {
    trace.push(Event::Write(CS, 2))?;
    exchange(trace, command, 0xee, 1)?;
    exchange(trace, 0, 0xee, 0)?;
    exchange(trace, address, 0xee, 0)?;
    for shift in [0, 8, 16, 24] {
        exchange(trace, sent >> shift & 255, received >> shift & 255, 0)?;
    }
    trace.push(Event::Write(CS, 0))?;
    Ok(())
}

fn read(trace: &mut Vec<Event>, address: u32, v: u32) -> Result<(), AllocError> {
    transfer(trace, 3, address, 0, v)
}

// A transfer that fails at its first byte, where the port stays busy before or after it is sent.
fn fails(trace: &mut Vec<Event>, command: u32, sends: bool) -> Result<(), AllocError> {
    trace.push(Event::Write(CS, 2))?;
    if sends {
        trace.push(Event::Read(TX, 0))?;
        trace.push(Event::Write(TX, command))?;
        busy(trace, RX, 1000)?;
    } else {
        busy(trace, TX, 1000)?;
    }
    trace.push(Event::Write(CS, 0))?;
    Ok(())
}

// The light's pin is made an output, and the chip misses so many times.
fn pin(trace: &mut Vec<Event>, missed: u32) -> Result<(), AllocError> {
    trace.push(Event::Read(EN, 0x01000001))?;
    trace.push(Event::Write(EN, 0x01800001))?;
    for _ in 0..missed {
        read(trace, 0x64, 0x87654320)?;
    }
    Ok(())
}

// A start that succeeds.
fn boot(trace: &mut Vec<Event>) -> Result<(), AllocError> {
    pin(trace, 1)?;
    read(trace, 0x64, 0x87654321)?;
    transfer(trace, 2, 0x74, 1, 0xffffffff)
}

// A frame of n bytes by its fourth, sixth and eleventh word.
fn frame(
    trace: &mut Vec<Event>,
    n: u32,
    third: u32,
    fifth: u32,
    tenth: u32,
) -> Result<(), AllocError> {
    read(trace, 0x7c, 2)?;
    read(trace, 0x40, 0xabcd0000 | n)?;
    for i in 0..(n & 0xffff).div_ceil(4) {
        let w = match i {
            3 => third,
            5 => fifth,
            10 => tenth,
            _ => 0x55555555,
        };
        read(trace, 0, w)?;
    }
    Ok(())
}

// The light is set by a write of this word.
fn light(trace: &mut Vec<Event>, v: u32) -> Result<(), AllocError> {
    trace.push(Event::Read(OUT, 0x76abcdef))?;
    trace.push(Event::Write(OUT, v))?;
    Ok(())
}

// Whether a trace is taken, and departs where one event is changed: at once where a
// bit of the address or of a value that is written is changed, and at the next event
// where bit 31 of a value that is read is.
fn departs_where_changed(trace: &[Event]) -> bool {
    let mut judge = Judge::new();
    for (i, e) in trace.iter().enumerate() {
        let (moved, next) = match *e {
            Event::Read(a, v) => (Event::Read(a ^ 8, v), Event::Read(a, v ^ 0x80000000)),
            Event::Write(a, v) => (Event::Write(a ^ 8, v), Event::Write(a, v ^ 1)),
        };
        let mut other = judge;
        if other.take(moved) {
            return false;
        }
        let mut other = judge;
        let taken = other.take(next);
        match *e {
            Event::Read(_, _) => {
                if !taken || trace.get(i + 1).is_some_and(|e| other.take(*e)) {
                    return false;
                }
            }
            Event::Write(_, _) => {
                if taken {
                    return false;
                }
            }
        }
        if !judge.take(*e) {
            return false;
        }
    }
    true
}

// Whether all events but the last are taken, and the last is not.
fn departs_at_end(trace: &[Event]) -> bool {
    let mut judge = Judge::new();
    let mut departed = false;
    for e in trace {
        if departed {
            return false;
        }
        departed = !judge.take(*e);
    }
    departed
}

#[test]
fn traces_of_each_kind(rt: HostRuntime) -> Result<(), Fail> {
    for kind in 0..17u32 {
        let mut trace = Vec::new(rt.alloc());
        let t = &mut trace;
        match kind {
            0 => pin(t, 200)?,
            1 => {
                pin(t, 0)?;
                fails(t, 3, false)?;
            }
            2 => {
                pin(t, 199)?;
                fails(t, 3, true)?;
            }
            3 => {
                pin(t, 199)?;
                read(t, 0x64, 0x87654321)?;
                fails(t, 2, true)?;
            }
            4 => {
                boot(t)?;
                read(t, 0x7c, 0)?;
                read(t, 0x7c, 0)?;
            }
            5 => {
                boot(t)?;
                fails(t, 3, false)?;
                read(t, 0x7c, 0)?;
            }
            6 => {
                boot(t)?;
                read(t, 0x7c, 1)?;
                fails(t, 3, true)?;
                read(t, 0x7c, 0)?;
            }
            7 => {
                boot(t)?;
                read(t, 0x7c, 1)?;
                read(t, 0x40, 9)?;
                read(t, 0, 0)?;
                fails(t, 3, false)?;
                read(t, 0x7c, 0)?;
            }
            _ => {
                boot(t)?;
                match kind {
                    8 => frame(t, 0, 0, 0, 0)?,
                    9 => frame(t, 42, 8, 0x11000000, 0x10000)?,
                    10 => frame(t, 1521, 8, 0x11000000, 0x10000)?,
                    11 => frame(t, 43, 9, 0x11000000, 0x10000)?,
                    12 => frame(t, 43, 0x108, 0x11000000, 0x10000)?,
                    13 => frame(t, 43, 8, 0x10ffffff, 0x10000)?,
                    14 => {
                        frame(t, 43, 0xffff0008, 0x11ffffff, 0xff01ffff)?;
                        light(t, 0x76abcdef)?;
                    }
                    15 => {
                        frame(t, 44, 8, 0x11000000, 0xff02ffff)?;
                        light(t, 0x762bcdef)?;
                    }
                    _ => {
                        frame(t, 1520, 8, 0x11000000, 0x10000)?;
                        light(t, 0x76abcdef)?;
                    }
                }
                read(t, 0x7c, 0)?;
            }
        }
        assert!(rt; departs_where_changed(&trace));
    }
    Ok(())
}

#[test]
fn traces_that_depart(rt: HostRuntime) -> Result<(), Fail> {
    for kind in 0..10u32 {
        let mut trace = Vec::new(rt.alloc());
        let t = &mut trace;
        match kind {
            0 => t.push(Event::Write(CS, 2))?,
            1 => {
                t.push(Event::Read(EN, 0))?;
                t.push(Event::Write(EN, 0x00800001))?;
            }
            // one busy turn more than the bound, before a byte and after it
            2 => {
                pin(t, 0)?;
                t.push(Event::Write(CS, 2))?;
                busy(t, TX, 1001)?;
            }
            3 => {
                pin(t, 0)?;
                t.push(Event::Write(CS, 2))?;
                t.push(Event::Read(TX, 0))?;
                t.push(Event::Write(TX, 3))?;
                busy(t, RX, 1001)?;
            }
            // ready after the port was busy for the last time
            4 => {
                pin(t, 0)?;
                t.push(Event::Write(CS, 2))?;
                busy(t, TX, 1000)?;
                t.push(Event::Read(TX, 0))?;
            }
            // a question and a poll after a start that failed
            5 => {
                pin(t, 200)?;
                t.push(Event::Write(CS, 2))?;
            }
            6 => {
                pin(t, 0)?;
                fails(t, 3, false)?;
                t.push(Event::Write(CS, 2))?;
            }
            // the light is set after a frame that is refused, and by bit 1 of byte 42
            7 => {
                boot(t)?;
                frame(t, 42, 8, 0x11000000, 0x10000)?;
                t.push(Event::Read(OUT, 0))?;
            }
            8 => {
                boot(t)?;
                frame(t, 43, 8, 0x11000000, 0x20000)?;
                t.push(Event::Read(OUT, 0))?;
                t.push(Event::Write(OUT, 0x800000))?;
            }
            // a poll before the light was set
            _ => {
                boot(t)?;
                frame(t, 43, 8, 0x11000000, 0x10000)?;
                t.push(Event::Write(CS, 2))?;
            }
        }
        assert!(rt; departs_at_end(&trace));
    }
    Ok(())
}
