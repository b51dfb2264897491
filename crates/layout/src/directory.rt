// The directory as bytes that a caller lends: slot n at 2 n, its state (0 I, 1 SU, 2 EM) and its block; at 128 the set of write-through boards; at
// 129 steal, 0 or 1; at 130 + b the set of the units that hold block b.
ghost use Rattle.std.specs.Prelude.{◌≡◌, ◌≤◌, ◌/◌, ◌%◌, ◌++◌, length, get_or, drop};
ghost use Rattle.slots.specs.Directory.{of_slots};
ghost use Rattle.layout.specs.Directory.{Paired, slot_bytes, block_spelled, slot_spelled, sets_in, decoded, left_put, directory_put};

use boards::{set_of, settings_of};
use coherence::{Directory, Entry, Slot};
use slots::{NO_BLOCK, block_or, rank};

// A state and a block in one number.
fn pair(state: u8, block: u8) -> u16
    ensures { (result % 256 ≡ state) × (result / 256 ≡ block) }
{
    u16::from_le_bytes([state, block])
}

// The 64 pairs of bytes, each as one number. The compiler then reads and compares eight of them at a time. By place: over `as_chunks` each pair would be
// taken apart as an array first, and the sentence `Paired` speaks of places.
fn pairs(bytes: &[u8]) -> [u16; 64]
    requires { length bytes.now ≡ 194 }
    ensures { (length result ≡ 64) × Paired bytes.now 64 result }
{
    let mut words = [0; 64];
    for n in 0..64 {
        words[n] = pair(bytes[2 * n], bytes[2 * n + 1]);
    }
    words
}

// The block of a pair with state 1 or 2, else one that no slot may have.
#[tactic(auto, unfolding(crate::specs::Directory::block_spelled))]
fn block_spelled(x: u16) -> u8
    ensures { result ≡ block_spelled (x % 256) (x / 256) }
{
    let state = x % 256;
    if (state != 0) & (state <= 2) {
        (x / 256) as u8
    } else {
        NO_BLOCK
    }
}

// The slot of a pair. The arms meet, and no test has more than two of them: so each becomes a choice between values and none a jump, which would be
// mispredicted with states at random (docs/PERFORMANCE.md).
#[tactic(auto, using(crate::proofs::DirectoryLaws::invalid_spelled, crate::proofs::DirectoryLaws::modified_spelled, crate::proofs::DirectoryLaws::shared_spelled))]
fn slot_spelled(x: u16) -> Slot
    ensures { result ≡ slot_spelled (x % 256) (x / 256) }
{
    let block = block_spelled(x);
    if x == 0 {
        Slot::Invalid
    } else if x % 256 == 2 {
        Slot::Modified(block)
    } else {
        Slot::Shared(block)
    }
}

// The byte at a place, 0 past the end.
fn byte_at(bytes: &[u8], place: usize) -> u8
    ensures { result ≡ get_or bytes.now place 0 }
{
    bytes.get(place).copied().unwrap_or(0)
}

// The sets of holders, if there are as many bytes as a directory has.
#[tactic(auto, unfolding(crate::specs::Directory::sets_in))]
fn sets_in(bytes: &[u8]) -> [u8; 64]
    ensures { result ≡ sets_in bytes.now }
{
    let mut holders = [0; 64];
    if bytes.len() == 194 {
        holders.copy_from_slice(&bytes[130..194]);
    }
    holders
}

// The directory that the bytes spell. What spells none becomes one that breaks the rules: the clause `decoded` has a directory for any bytes, so that refusal
// 2 comes in its place among the machine's tests.
pub fn decode(bytes: &[u8]) -> Directory
    ensures { result ≡ decoded bytes.now }
{
    let set = byte_at(bytes, 128);
    let steal = byte_at(bytes, 129);
    let settings = settings_of(set, steal == 1);
    let holders = sets_in(bytes);
    let mut slots = [Entry {
        slot: Slot::Shared(NO_BLOCK),
    }; 64];
    if (bytes.len() == 194) & (set <= 15) & (steal <= 1) {
        let words = pairs(bytes);
        // By place, into the array that stays where the bytes spell none: with `map` the two would be two arms.
        for n in 0..64 {
            slots[n] = Entry {
                slot: slot_spelled(words[n]),
            };
        }
    }
    Directory {
        slots,
        settings,
        holders,
    }
}

// The bytes of a directory's slots, into the first 128 of the lent space.
fn encode_slots(slots: [Entry; 64], out: &mut [u8])
    requires { 128 ≤ length out.old }
    ensures { out.new ≡ slot_bytes 64 (of_slots slots) ++ drop 128 out.old }
{
    for (n, entry) in slots.iter().enumerate() {
        out[2 * n] = rank(entry.slot);
        out[2 * n + 1] = block_or(entry.slot, 0);
    }
}

// The bytes of what a call leaves: the slots and the sets of holders. Those of the settings stay, and all of a space that is too small for a directory.
pub fn encode_left(d: Directory, out: &mut [u8])
    ensures { out.new ≡ left_put d out.old }
{
    if out.len() < 194 {
        return;
    }
    encode_slots(d.slots, out);
    // By value: copied out of `d` itself, a call through the C interface takes 6 ns more.
    let holders = d.holders;
    out[130..194].copy_from_slice(&holders);
}

// The bytes of a directory, into the first 194 of the lent space. It stays if it is too small.
pub fn encode(d: Directory, out: &mut [u8])
    ensures { out.new ≡ directory_put d out.old }
{
    encode_left(d, out);
    if 194 <= out.len() {
        out[128] = set_of(d.settings);
        out[129] = u8::from(d.settings.steal);
    }
}
