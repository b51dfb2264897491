// Numbers on the tape (document 01, "The tape"; document 02, T-04), written, and how many bytes they take (document 02, T-06).
#![tactic(auto)]

ghost use Rattle.std.specs.Prelude.{◌≡◌, ◌+◌, ◌≤◌, length};
ghost use Rattle.std.proofs.lemmas.List.Edits.{sets};
ghost use Rattle.number.specs.Number.{spell, spell_all, filled};
ghost use Rattle.number_writer.specs.GroupCount.{group_count, size_of};

// The groups of a number: its significant bits divided by seven, rounded up; one group for zero. With `.div_ceil(7).max(1)` the size of a record took 1.2 times as long.
#[tactic(auto, unfolding(crate::specs::GroupCount::group_count), using(crate::proofs::CountLaws::bits_leading))]
fn group_count(n: u64) -> usize
    ensures { result ≡ group_count n }
{
    if n == 0 {
        return 1;
    }
    ((64 - n.leading_zeros() + 6) / 7) as usize
}

// Spells `n` from `at` on; the place after it. Of the groups from `next` on, `value` is still to be spelled: the loop goes by what is left of the number, and a `for`
// over its places would count the groups first.
fn put_number(out: &mut [u8], at: usize, n: u64) -> usize
    requires { at + length (spell n) ≤ length out.old }
    ensures { (result ≡ at + length (spell n)) × (out.new ≡ sets out.old at (spell n)) }
{
    let mut value = n;
    let mut next = at;
    while value >= 128 {
        out[next] = (value % 128 + 128) as u8;
        value /= 128;
        next += 1;
    }
    out[next] = value as u8;
    next + 1
}

// How many bytes the numbers take.
pub fn numbers_size(numbers: &[u64]) -> usize
    ensures { result ≡ size_of numbers.now }
{
    numbers.iter().map(|&n| group_count(n)).sum()
}

// Spells the numbers at the start of `out`, where all of them have room. The answer is how many bytes spell them.
pub fn write_numbers(numbers: &[u64], out: &mut [u8]) -> usize
    ensures { (result ≡ length (spell_all numbers.now)) × (out.new ≡ filled (spell_all numbers.now) out.old) }
{
    let size = numbers_size(numbers);
    if out.len() < size {
        return size;
    }
    let mut at = 0;
    for &n in numbers {
        at = put_number(out, at, n);
    }
    size
}
