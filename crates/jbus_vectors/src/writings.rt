// Address cycles that are written, and read again.
use crate::print::reading;
use jbus::AddressCycle;
use std::io;

// The target and the agent.
const WRITINGS: [[u32; 2]; 21] = [
    // "Target 3 from agent 28 is 0x0000A03E00000000"; the least and the greatest
    [3, 28],
    [0, 0],
    [31, 31],
    [31, 0],
    [0, 31],
    // "8 (.. on writing a number above 31)": each, and both
    [32, 0],
    [0, 32],
    [32, 31],
    [31, 32],
    [32, 32],
    [64, 28],
    [3, 60],
    [128, 0],
    [0, 128],
    [255, 31],
    [255, 255],
    [256, 28],
    [3, 284],
    [65539, 28],
    [3, 2147483676],
    [4294967295, 4294967295],
];

fn writing(to: &impl Print, target: u32, agent: u32) -> io::Result<()> {
    print!(to; "write {target} {agent}: ")?;
    match jbus::write_interrupt(target, agent) {
        Ok(cycle) => {
            let AddressCycle { upper, lower } = cycle;
            println!(to; "{upper:016x} {lower:016x}")?;
            reading(to, cycle)
        }
        Err(refusal) => println!(to; "refusal {}", u32::from(refusal)),
    }
}

pub(crate) fn run_writings(to: &impl Print) -> io::Result<()> {
    for [target, agent] in WRITINGS {
        writing(to, target, agent)?;
    }
    Ok(())
}

// Each agent of Table 5-3.
pub(crate) fn run_agents(to: &impl Print) -> io::Result<()> {
    for agent in 0..32 {
        writing(to, 3, agent)?;
    }
    Ok(())
}

// A pair is written, and read as the same pair.
fn comes_back(target: u32, agent: u32) -> bool {
    jbus::write_interrupt(target, agent)
        .and_then(|cycle| jbus::read_interrupt(cycle))
        .is_ok_and(|i| i.target == target && i.agent == agent)
}

// Every target with every agent.
pub(crate) fn run_pairs(to: &impl Print) -> io::Result<()> {
    let n = (0..1024).filter(|&k| comes_back(k / 32, k % 32)).count();
    println!(to; "pairs that come back {n}")
}
