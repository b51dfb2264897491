// Five million loads and stores on copyback boards in one loop, to be timed: the machine's calls with no boundary around them. It prints a sum of the loaded values,
// which is compared with that of the second implementation in `outside/`.
#![tactic(auto)]

use slots::drill_settings;
use std::io;

// The next number of a fixed sequence.
fn step(x: u32) -> u32 {
    (x % 65536) * 60000 + (x / 65536) + 1
}

// None if a call is refused.
fn run(memory: &mut [u8], cache: &mut [u8]) -> Option<u32> {
    let mut d = machine::cold_start(drill_settings(), memory, cache).ok()?;
    let mut sum: u32 = 0;
    let mut x: u32 = 12345;
    for _ in 0..5_000_000 {
        x = step(x);
        let unit = (x / 7 % 4) as u8;
        let address = (x / 32 % 512) * 4;
        let answer = if x / 65536 % 8 < 4 {
            machine::load(d, memory, cache, unit, address)
        } else {
            machine::store(d, memory, cache, unit, address, x)
        };
        let a = answer.ok()?;
        sum = (sum % 65536) + (a.value % 65536);
        d = a.directory;
    }
    Some(sum)
}

fn main(rt: HostRuntime) -> io::Result<()> {
    let mut memory = [0u8; 2048];
    let mut cache = [0u8; 2048];
    let sum = run(&mut memory, &mut cache).unwrap_or(0);
    print!(rt; "{sum}")
}
