// A whole list of accesses in one call, with the accesses as numbers (document 02, T-03): kind, unit, address or block, and value of each. They are run in
// parts, each of which is put into an array.
#![tactic(auto)]

ghost use Rattle.std.specs.Prelude.{◌+◌, ◌*◌, ◌≤◌, ◌≡◌, cond, length, take};
ghost use Rattle.batch_rules.specs.Batch.{batch};
ghost use Rattle.batch_rules.specs.Numbers.{known, opened_numbers, numbers_result};
ghost use Rattle.batch_rules.specs.Outcome.{told};
ghost use Rattle.batch_numbers.specs.Part.{access_from, access_known, Room, Parted};

use batch::run_array;
use batch_outcome::{goes_on, number_of, open, refused_by};
use batch_rules::{Access, Outcome};
use coherence::{Call, Directory};
use crossing::capped;
use order::Refusal;

// The access of four numbers, if its kind is known.
#[tactic(auto, unfolding(crate::specs::Part::access_from, batch_rules::specs::Numbers::is_kind, batch_rules::specs::Numbers::call_from))]
fn access_from(kind: u32, unit: u32, target: u32, value: u32) -> Option<Access>
    ensures { result ≡ access_from kind unit target value }
{
    let unit = capped(unit.into());
    let call = match kind {
        0 => Call::Load {
            unit,
            address: target,
        },
        1 => Call::Store {
            unit,
            address: target,
            value,
        },
        2 => Call::Flush {
            unit,
            block: capped(target.into()),
        },
        _ => return None,
    };
    Some(Access { call })
}

// An access of a list, if its kind is known.
#[tactic(auto, unfolding(crate::specs::Part::access_known, crate::specs::Part::access_from, batch_rules::specs::Numbers::access_at, batch_rules::specs::Numbers::kind_at))]
fn access_at(accesses: &[u32], index: usize) -> Option<Access>
    requires { 4 * index + 4 ≤ length accesses.now }
    ensures { result ≡ access_known accesses.now index }
{
    let at = 4 * index;
    access_from(
        accesses[at],
        accesses[at + 1],
        accesses[at + 2],
        accesses[at + 3],
    )
}

// Of the `most` accesses from `from` on, those before the first of unknown kind, in the first places of an array, and how many they are. With no heap
// there is no list of its own length.
fn part_at(accesses: &[u32], from: usize, most: usize) -> ([Access; 64], usize)
    requires { (4 * (from + most) ≤ length accesses.now) × (most ≤ 64) }
    ensures { (take result.1 result.0 ≡ known accesses.now from most) × (result.1 ≡ length (known accesses.now from most)) }
{
    let unused = Access {
        call: Call::Flush { unit: 0, block: 0 },
    };
    let mut list = [unused; 64];
    for n in 0..most {
        let Some(access) = access_at(accesses, from + n) else {
            return (list, n);
        };
        list[n] = access;
    }
    (list, most)
}

// The next accesses, at most 64.
fn run_part(
    accesses: &[u32],
    s: Outcome,
    values: &mut [u32],
    memory: &mut [u8],
    cache: &mut [u8],
) -> Outcome
    requires { Room (told s) accesses.now (length values.old) }
    ensures { Parted (told s) accesses.now values.old memory.old cache.old (told result) values.new memory.new cache.new }
{
    let most = (accesses.len() / 4 - s.index).min(64);
    let (list, count) = part_at(accesses, s.index, most);
    let part = run_array(
        list,
        count,
        &mut values[s.index..],
        s.directory,
        memory,
        cache,
    );
    let made = Outcome {
        index: s.index + part.index,
        orders: s.orders + part.orders,
        ..part
    };
    let refusal = (count != most).then_some(Refusal::UnknownKind);
    refused_by(number_of(refusal), made)
}

// The outcome before the first access.
fn open_numbers(directory: Directory, length: usize, room: usize) -> Outcome
    ensures { told result ≡ opened_numbers directory length room }
{
    let refusal = (length % 4 != 0).then_some(Refusal::FieldRange);
    refused_by(number_of(refusal), open(directory, length / 4, room))
}

// The accesses of the list in turn, up to the first refused one. The outcome itself says where the next part starts and whether there is one; a `for` over
// chunks would hold the same place a second time.
pub fn run_numbers(
    accesses: &[u32],
    values: &mut [u32],
    directory: Directory,
    memory: &mut [u8],
    cache: &mut [u8],
) -> Outcome
    ensures { batch (told result) values.new memory.new cache.new ≡ numbers_result accesses.now values.old directory memory.old cache.old }
{
    let count = accesses.len() / 4;
    let mut s = open_numbers(directory, accesses.len(), values.len());
    while goes_on(s, count) {
        s = run_part(accesses, s, values, memory, cache);
    }
    s
}
