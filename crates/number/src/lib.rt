// Numbers on the tape (document 01, "The tape"; document 02, T-04), read.
#![tactic(auto)]

ghost use Rattle.std.specs.Prelude.{◌≡◌, ◌<◌, length, get_or};
ghost use Rattle.number.specs.Number.{number_at};

use order::Refusal;

// The most groups of a number, and the most that the last of so many can hold.
pub const GROUPS: usize = 10;

pub const LAST: u64 = 1;

// Why a reading is refused, and where the refused number starts.
#[derive(Clone, Copy, Debug, PartialEq, Eq)]
pub struct Refused {
    pub refusal: Refusal,
    pub place: usize,
}

// The number that starts at `at` with the group `first`, whose high bit is set, and goes on after it. The groups before `next` mean `value`, and the one
// there counts `weight`. Only the group at `last` has a limit of its own.
fn read_more(tape: &[u8], at: usize, first: u64) -> Result<(u64, usize), Refused>
    requires { (at < length tape.now) × (first ≡ get_or tape.now at 0) × (127 < first) }
    ensures { result ≡ number_at tape.now at }
{
    let last = at + (GROUPS - 1);
    let end = tape.len().min(last);
    let mut value = first % 128;
    let mut weight: u64 = 128;
    for next in at + 1..end {
        let b = u64::from(tape[next]);
        if b == 0 {
            return Err(Refused {
                refusal: Refusal::BadNumber,
                place: at,
            });
        }
        if b <= 127 {
            return Ok((value + weight * b, next + 1));
        }
        value += weight * (b % 128);
        weight *= 128;
    }
    if tape.len() <= end {
        return Err(Refused {
            refusal: Refusal::Cut,
            place: at,
        });
    }
    let b = u64::from(tape[end]);
    if b == 0 || b > LAST {
        return Err(Refused {
            refusal: Refusal::BadNumber,
            place: at,
        });
    }
    Ok((value + weight * b, end + 1))
}

// The number that starts at `at`, with the place after it. Most have one group.
pub fn read_number(tape: &[u8], at: usize) -> Result<(u64, usize), Refused>
    ensures { result ≡ number_at tape.now at }
{
    if tape.len() <= at {
        return Err(Refused {
            refusal: Refusal::Cut,
            place: at,
        });
    }
    let first = u64::from(tape[at]);
    if first <= 127 {
        return Ok((first, at + 1));
    }
    read_more(tape, at, first)
}
