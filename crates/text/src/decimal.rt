// Numbers in decimal.
ghost use Rattle.std.specs.Prelude.{◌≡◌, length};
ghost use Rattle.text.specs.Decimal.{decimal};
ghost use Rattle.text.specs.Space.{placed};

use crate::space::has_room;

// How many digits `n` has.
#[tactic(auto, using(crate::proofs::DecimalLaws::length_one, crate::proofs::DecimalLaws::length_more, crate::proofs::DecimalLaws::at_most_20))]
pub fn decimal_length(n: u64) -> usize
    ensures { result ≡ length (decimal n) }
{
    if n < 10 {
        1
    } else {
        decimal_length(n / 10) + 1
    }
}

// Fills `out` with the digits of `n`. The first has an arm of its own: one line for all digits takes twice the instructions.
#[tactic(auto, using(crate::proofs::DecimalLaws::one_digit, crate::proofs::DecimalLaws::more_digits, crate::proofs::DecimalLaws::length_one, crate::proofs::DecimalLaws::length_more))]
fn put_digits(out: &mut [u8], n: u64)
    requires { length out.old ≡ length (decimal n) }
    ensures { out.new ≡ decimal n }
{
    if 9 < n {
        let last = out.len() - 1;
        put_digits(&mut out[..last], n / 10);
        out[last] = b'0' + (n % 10) as u8;
    } else {
        out[0] = b'0' + n as u8;
    }
}

// Puts the digits of `n` into `out` from the place `at` on, where all of them have room. The answer is how many they are.
#[tactic(auto, using(crate::proofs::SpaceLaws::part_placed, crate::proofs::SpaceLaws::placed_none))]
pub fn put_decimal(out: &mut [u8], at: usize, n: u64) -> usize
    ensures { (result ≡ length (decimal n)) × (out.new ≡ placed out.old at (decimal n)) }
{
    let size = decimal_length(n);
    if has_room(out.len(), at, size) {
        put_digits(&mut out[at..at + size], n);
    }
    size
}
