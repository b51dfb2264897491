// The lines of a drill. Each function puts a part of the text at the place `at` of `out`, if it has room, and answers the place after it. The two stay
// parameters: each method of a struct that lends `out` would have to promise besides that it keeps the reference (`self.new.out.ghost_name`). Each
// requires a bound on `at` that leaves room for its own part; one bound in a type would not hold behind the first part.
ghost use Rattle.std.specs.Prelude.{◌+◌, ◌≤◌, ◌<◌, ◌^◌, ◌++◌, length};
ghost use Rattle.order.specs.Refusal.{refusal_number};
ghost use Rattle.drill_format.specs.Line.{field, access_part, orders_part, total_line, refused_line};
ghost use Rattle.drill_text.specs.Writing.{Puts};

use coherence::Call;
use order::Refusal;
use text::decimal::put_decimal;
use text::space::put_word;

#[tactic(auto, using(crate::proofs::WritingLaws::puts))]
fn put(out: &mut [u8], at: usize, word: &[u8]) -> usize
    requires { (at < 2 ^ 40) × (length word.now ≤ 20) }
    ensures { Puts word.now out.old at out.new result }
{
    at + put_word(out, at, word)
}

#[tactic(auto, using(crate::proofs::WritingLaws::puts, crate::proofs::WritingLaws::both, text::proofs::DecimalLaws::at_most_20), unfolding(drill_format::specs::Line::field, text::specs::Space::ascii))]
fn put_field(out: &mut [u8], at: usize, n: u64) -> usize
    requires { at < 2 ^ 39 }
    ensures { Puts (field n) out.old at out.new result × (result ≤ at + 21) }
{
    let next = put(out, at, b" ");
    next + put_decimal(out, next, n)
}

// The access, the unit, and the address or block.
fn put_head(out: &mut [u8], at: usize, name: &[u8], unit: u8, target: u32) -> usize
    requires { (at < 2 ^ 38) × (length name.now ≤ 20) }
    ensures { Puts (name.now ++ field unit ++ field target) out.old at out.new result × (result ≤ at + 62) }
{
    let second = put(out, at, name);
    let third = put_field(out, second, unit.into());
    put_field(out, third, target.into())
}

#[tactic(auto, unfolding(drill_format::specs::Line::access_part, text::specs::Space::ascii))]
pub(crate) fn put_access(out: &mut [u8], at: usize, call: Call, loaded: u32) -> usize
    requires { at < 2 ^ 37 }
    ensures { Puts (access_part call loaded) out.old at out.new result × (result ≤ at + 83) × (loaded < 4294967296) }
{
    match call {
        Call::Load { unit, address } => {
            let next = put_head(out, at, b"load", unit, address);
            put_field(out, next, loaded.into())
        }
        Call::Store {
            unit,
            address,
            value,
        } => {
            let next = put_head(out, at, b"store", unit, address);
            put_field(out, next, value.into())
        }
        Call::Flush { unit, block } => put_head(out, at, b"flush", unit, block.into()),
    }
}

pub(crate) fn put_orders(out: &mut [u8], at: usize, orders: u64) -> usize
    requires { at < 2 ^ 38 }
    ensures { Puts (orders_part orders) out.old at out.new result × (result ≤ at + 29) }
{
    let second = put(out, at, b" orders");
    let third = put_field(out, second, orders);
    put(out, third, b"\n")
}

// The line of a call, with the value and the number of orders that it answered.
pub(crate) fn put_call(out: &mut [u8], at: usize, call: Call, value: u32, orders: u64) -> usize
    requires { at < 2 ^ 37 }
    ensures { Puts (access_part call value ++ orders_part orders) out.old at out.new result × (result ≤ at + 112) × (value < 4294967296) }
{
    let next = put_access(out, at, call, value);
    put_orders(out, next, orders)
}

// A line of two numbers, each after a word, and a last word.
fn put_pair(
    out: &mut [u8],
    at: usize,
    first: &[u8],
    a: u64,
    second: &[u8],
    b: u64,
    last: &[u8],
) -> usize
    requires { (at < 2 ^ 38) × (length first.now ≤ 7) × (length second.now ≤ 7) × (length last.now ≤ 8) }
    ensures { Puts (first.now ++ field a ++ second.now ++ field b ++ last.now) out.old at out.new result × (result ≤ at + 64) }
{
    let p = put(out, at, first);
    let q = put_field(out, p, a);
    let r = put(out, q, second);
    let s = put_field(out, r, b);
    put(out, s, last)
}

#[tactic(auto, unfolding(drill_format::specs::Line::total_line, text::specs::Space::ascii))]
pub(crate) fn put_total(out: &mut [u8], at: usize, calls: u64, orders: u64) -> usize
    requires { at < 2 ^ 38 }
    ensures { Puts (total_line calls orders) out.old at out.new result × (result ≤ at + 64) }
{
    put_pair(out, at, b"total", calls, b" calls", orders, b" orders\n")
}

#[tactic(auto, unfolding(drill_format::specs::Line::refused_line, text::specs::Space::ascii))]
pub(crate) fn put_refused(out: &mut [u8], at: usize, refusal: Refusal, place: usize) -> usize
    requires { at < 2 ^ 38 }
    ensures { Puts (refused_line (refusal_number refusal) place) out.old at out.new result × (result ≤ at + 64) }
{
    put_pair(
        out,
        at,
        b"refused",
        u64::from(u32::from(refusal)),
        b" at",
        place as u64,
        b"\n",
    )
}
