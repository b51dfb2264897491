// Address cycles that are read: what is accepted, each refusal, and the order of the refusals.
use crate::print::reading;
use jbus::AddressCycle;
use std::io;

// Target 3 from agent 28.
const EXAMPLE: u64 = 0x0000A03E00000000;

// The upper half, and the bits in which the lower half differs from it.
const READINGS: [[u64; 2]; 35] = [
    // "Target 3 from agent 28 is 0x0000A03E00000000"; the least and the greatest target and agent
    [EXAMPLE, 0],
    [0x0000A00000000000, 0],
    [0x0000A1FF80000000, 0],
    [0x0000A1F000000000, 0],
    [0x0000A00F80000000, 0],
    // "bits 63-48 are ignored on reading"
    [0x0001A03E00000000, 0],
    [0x8000A03E00000000, 0],
    [0xFFFFA03E00000000, 0],
    // 17 alone: "halves differ in any bit"; each half by itself is an interrupt
    [0x0001A03E00000000, 0x0001000000000000],
    [EXAMPLE, 0x8000000000000000],
    [EXAMPLE, 0x0000007000000000],
    [0x0000A03E80000000, 0x0000000080000000],
    // 7 alone: "not 0x14": 0x15, 0x16, 0x10, 0x04, 0x1C, 0, 0x1F
    [0x0000A83E00000000, 0],
    [0x0000B03E00000000, 0],
    [0x0000803E00000000, 0],
    [0x0000203E00000000, 0],
    [0x0000E03E00000000, 0],
    [0x0000003E00000000, 0],
    [0x0000F83E00000000, 0],
    // 8 alone: "nonzero zero field": bits 42 and 41, 30 and 0, all of each, all of both
    [0x0000A43E00000000, 0],
    [0x0000A23E00000000, 0],
    [0x0000A63E00000000, 0],
    [0x0000A03E40000000, 0],
    [0x0000A03E00000001, 0],
    [0x0000A03E7FFFFFFF, 0],
    [0x0000A63E7FFFFFFF, 0],
    // 17 before 7, and before 8
    [0x0000A83E00000000, 0x0000080000000000],
    [EXAMPLE, 0x0000080000000000],
    [0x0000A03E00000001, 0x0000000000000001],
    [EXAMPLE, 0x0000020000000000],
    // 7 before 8; all three at once
    [0x0000A83E00000001, 0],
    [0x0000AE3E00000000, 0],
    [0xFFFFFFFFFFFFFFFF, 0],
    [0x0000AC3E00000001, 0x0000040000000000],
    // no bit at all
    [0, 0],
];

pub(crate) fn run_readings(to: &impl Print) -> io::Result<()> {
    for [upper, differing] in READINGS {
        let lower = upper ^ differing;
        reading(to, AddressCycle { upper, lower })?;
    }
    Ok(())
}

// The example with a bit the other way: in both halves, in the upper one, and in the lower one.
fn bit(to: &impl Print, other: u64) -> io::Result<()> {
    for [upper, lower] in [[other, other], [other, EXAMPLE], [EXAMPLE, other]] {
        reading(to, AddressCycle { upper, lower })?;
    }
    Ok(())
}

pub(crate) fn run_bits(to: &impl Print) -> io::Result<()> {
    for k in 0..64u32 {
        println!(to; "bit {k}")?;
        bit(to, EXAMPLE ^ (1 << k))?;
    }
    Ok(())
}
