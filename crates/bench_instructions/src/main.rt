//! Decodes every word of a large image and encodes each instruction again, 8 times over. Prints how
//! many words that were, and on standard error how many of them were instructions and the rate.
#![tactic(auto)]

use br_rv32im::{decode, encode};
use std::io;
use std::time::Instant;

const WORDS: u32 = 262_144;

const ROUNDS: u32 = 8;

// The opcodes that have instructions.
const OPCODES: [u32; 10] = [0x37, 0x17, 0x6f, 0x67, 0x63, 0x03, 0x23, 0x13, 0x33, 0x73];

fn main(rt: HostRuntime) -> io::Result<()> {
    let start = Instant::now(&rt)?;
    let mut same = 0u32;
    for round in 0..ROUNDS {
        same = same.wrapping_add(same_words(round));
    }
    let spent = u64::try_from(start.elapsed(&rt)?.as_millis()).unwrap_or(u64::MAX);
    let words = WORDS * ROUNDS;
    println!(rt; "{words} words")?;
    let rate = (words as u64 * 1_000).checked_div(spent).unwrap_or(0);
    eprintln!(rt; "{same} instructions, {rate} words in a second")?;
    Ok(())
}

// How many words of the image of a round are instructions that are encoded to the same word.
fn same_words(round: u32) -> u32 {
    let mut same = 0u32;
    for n in 0..WORDS {
        let w = word(round, n);
        if let Some(i) = decode(w) {
            same = same.wrapping_add((encode(i) == w) as u32);
        }
    }
    same
}

// The word at a place of a round's image: an opcode in turn, and spread bits above it.
fn word(round: u32, n: u32) -> u32 {
    let spread = n.wrapping_add(round << 18).wrapping_mul(0x9e3779b1);
    spread - spread % 128 + OPCODES[(n % 10) as usize]
}
