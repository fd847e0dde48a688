//! Steps a loop of arithmetic, loads, stores, branches and calls in each of the two layouts. Prints
//! how many steps each made, and on standard error how many that is in a second.
#![tactic(auto)]

use br_base::NoMemory;
use br_bytes::ByteMap;
use br_machine::{Machine, Stepped, memories_of_the_data_region};
use br_words::Layout;
use std::alloc::Global;
use std::io;
use std::time::Instant;

// More steps than the loop makes.
const LIMIT: u32 = 100_000_000;

// 2^22 turns of 13 steps, and 3 before.
const CODE: [u32; 17] = [
    0x0000_0293, // addi x5, x0, 0
    0x8010_0337, // lui x6, 0x80100
    0x0040_03b7, // lui x7, 0x00400
    0x0053_2023, // sw x5, 0(x6)
    0x0003_2403, // lw x8, 0(x6)
    0x0084_84b3, // add x9, x9, x8
    0x0095_4533, // xor x10, x10, x9
    0x0034_1593, // slli x11, x8, 3
    0x0294_0633, // mul x12, x8, x9
    0x00c3_02a3, // sb x12, 5(x6)
    0x0053_4683, // lbu x13, 5(x6)
    0x0100_00ef, // jal x1, 16
    0x0012_8293, // addi x5, x5, 1
    0xfc72_ece3, // bltu x5, x7, -40
    0x0000_0073, // ecall
    0x4086_8733, // sub x14, x13, x8
    0x0000_8067, // jalr x0, 0(x1)
];

fn main(rt: HostRuntime) -> io::Result<()> {
    for (name, layout) in [("One", Layout::One), ("Two", Layout::Two)] {
        let start = Instant::now(&rt)?;
        let Ok(steps) = steps_made(rt.alloc(), layout) else {
            eprintln!(rt; "no memory")?;
            return Ok(());
        };
        let spent = u64::try_from(start.elapsed(&rt)?.as_millis()).unwrap_or(u64::MAX);
        println!(rt; "layout {name}: {steps} steps")?;
        let rate = (steps as u64 * 1_000).checked_div(spent).unwrap_or(0);
        eprintln!(rt; "layout {name}: {rate} steps in a second")?;
    }
    Ok(())
}

// How many steps the loop makes before the one that ends it.
fn steps_made(alloc: Global, layout: Layout) -> Result<u32, NoMemory> {
    memories_of_the_data_region();
    let memory = ByteMap::new(alloc);
    let mut machine = Machine::start(alloc, layout, &CODE, 0, &[], &memory, 0)?;
    for steps in 0..LIMIT {
        if machine.step(None) != Stepped::Ran {
            return Ok(steps);
        }
    }
    Ok(LIMIT)
}
