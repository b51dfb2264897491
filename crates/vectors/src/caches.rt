// Rows of the cache machine.
ghost use Rattle.std.specs.Prelude.{◌<◌};

use crate::rows::{Row, show_all};
use coherence::Call;
use std::io;

// Where a call finds and leaves bytes.
#[derive(Clone, Copy)]
enum Space {
    Directory,
    Memory,
    Cache,
}

impl Space {
    // What stands at a place before a call: in memory the number of the block, in the cache store 128 and the number of the slot; in the directory 0.
    fn filling(self, place: usize) -> u8 {
        let number = (place / 32 % 65) as u8;
        match self {
            Space::Directory => 0,
            Space::Memory => number,
            Space::Cache => 128 + number,
        }
    }

    fn filled(self) -> [u8; 2049] {
        std::array::from_fn(|place| self.filling(place))
    }
}

// The directory's bytes of a row: place and byte of each, from the seventh number on. The first comes last, so that numbers that are not given, 0, change
// nothing.
fn directory_of(values: [u64; 48]) -> [u8; 194] {
    let mut directory = [0u8; 194];
    let (pairs, _) = values[6..].as_chunks::<2>();
    for [place, byte] in pairs.iter().rev() {
        directory[(place % 194) as usize] = (byte % 256) as u8;
    }
    directory
}

// How many bytes a store has.
fn size(n: u32) -> usize
    ensures { result < 2050 }
{
    (n % 2050) as usize
}

// Where equal bytes that are not the filling begin, their place and the byte; where such bytes end, the place after them.
fn mark(
    to: &impl Print,
    last: Option<u8>,
    place: usize,
    found: u8,
    filling: u8,
) -> io::Result<Option<u8>> {
    if found == filling {
        if last.is_some() {
            print!(to; " to {place}")?;
        }
        return Ok(None);
    }
    if last != Some(found) {
        print!(to; " at {place}: {found:02x}")?;
    }
    Ok(Some(found))
}

// All that is not the filling.
fn changed(to: &impl Print, space: Space, bytes: &[u8]) -> io::Result<()> {
    print!(to; ";")?;
    let mut last = None;
    for (place, &found) in bytes.iter().enumerate() {
        last = mark(to, last, place, found, space.filling(place))?;
    }
    Ok(())
}

// One call for `machine::run`, here and in `access`: with the three C calls in its stead this part's check takes twice as long (docs/DECISIONS.md).
fn call_of(n: [u32; 48]) -> Call {
    let unit = crossing::capped(n[4].into());
    match n[3] {
        0 => Call::Load {
            unit,
            address: n[2],
        },
        1 => Call::Store {
            unit,
            address: n[2],
            value: n[5],
        },
        _ => Call::Flush {
            unit,
            block: crossing::capped(n[2].into()),
        },
    }
}

// The number of the refusal; if there is none, 0, and the directory and the numbers of the answer are put into their places.
fn access(
    directory: &mut [u8],
    memory: &mut [u8],
    cache: &mut [u8],
    answer: &mut [u32],
    call: Call,
) -> u32 {
    match machine::run(layout::decode(directory), memory, cache, call) {
        Ok(given) => {
            layout::encode(given.directory, directory);
            answer_layout::put_answer(given, answer);
            0
        }
        Err(refusal) => u32::from(refusal),
    }
}

// The sizes of both stores, the address or block, the call (0 load, 1 store, 2 flush), the unit, the value, the directory. The refusal and the answer;
// then of the directory, of memory and of the cache store all that is not the filling.
pub(crate) fn machine(to: &impl Print, given: Row) -> io::Result<()> {
    let n = given.small();
    let mut directory = directory_of(given.values);
    let mut memory = Space::Memory.filled();
    let mut cache = Space::Cache.filled();
    let memory = &mut memory[..size(n[0])];
    let cache = &mut cache[..size(n[1])];
    let mut answer = [0u32; 18];
    let refusal = access(&mut directory, memory, cache, &mut answer, call_of(n));
    print!(to; " {refusal}")?;
    show_all(to, &answer)?;
    changed(to, Space::Directory, &directory)?;
    changed(to, Space::Memory, memory)?;
    changed(to, Space::Cache, cache)
}

// The sizes of both stores, the block, three other numbers, the directory: the store (0 memory, 1 cache store) and the place of the newest bytes.
pub(crate) fn newest(to: &impl Print, given: Row) -> io::Result<()> {
    let n = given.small();
    let directory = directory_of(given.values);
    let bytes = [0u8; 2049];
    let mut store = 0u32;
    let mut offset = 0u32;
    let refusal = capi_machine::trainer_peek(
        &directory,
        &bytes[..size(n[0])],
        &bytes[..size(n[1])],
        n[2],
        &mut store,
        &mut offset,
    );
    show_all(to, &[refusal, store, offset])
}

// Two numbers, the block, three numbers, the directory: the set of the units that hold the block, and how many they are.
pub(crate) fn units(to: &impl Print, given: Row) -> io::Result<()> {
    let directory = directory_of(given.values);
    let block = given.small()[2];
    let mut set = 0u32;
    let mut count = 0u32;
    let refusal = capi_holders::trainer_holders(&directory, block, &mut set, &mut count);
    show_all(to, &[refusal, set, count])
}

// The sizes of both stores, the set of write-through boards, steal, two other numbers, the directory: what a cold start leaves of the directory, and what it
// changes in the cache store.
pub(crate) fn start(to: &impl Print, given: Row) -> io::Result<()> {
    let n = given.small();
    let mut directory = directory_of(given.values);
    let memory = [0u8; 2049];
    let memory = &memory[..size(n[0])];
    let mut cache = Space::Cache.filled();
    let cache = &mut cache[..size(n[1])];
    let refusal = capi_start::trainer_cold_start(memory, cache, n[2], n[3], &mut directory);
    print!(to; " {refusal}")?;
    changed(to, Space::Directory, &directory)?;
    changed(to, Space::Cache, cache)
}
