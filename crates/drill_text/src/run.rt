// The records of a tape run in order on the machine, and the text that comes of it.
ghost use Rattle.std.specs.Prelude.{◌≤◌, length};
ghost use Rattle.reading.specs.Reading.{read_all};
ghost use Rattle.drill_format.specs.Drill.{tape_most, text_most};
ghost use Rattle.drill_text.specs.Writing.{Puts, Within, Called, Took, text_from};

use crate::line::{put_call, put_refused, put_total};
use coherence::{Call, Directory};
use machine::run;
use reading::access_of;
use tape::read_record;
use tape_format::Record;

// A drill underway: the machine's directory, the place in the text, and the calls and orders so far.
#[derive(Clone, Copy)]
pub struct Progress {
    pub directory: Directory,
    pub at: usize,
    pub calls: u64,
    pub orders: u64,
}

// One call of the machine, and its line. A refused call has no value and no orders, and leaves the directory; it returns early, for speed as in `take`.
fn run_call(
    s: Progress,
    memory: &mut [u8],
    cache: &mut [u8],
    out: &mut [u8],
    call: Call,
) -> Progress
    requires { Within s }
    ensures { Called call s memory.old cache.old out.old result memory.new cache.new out.new }
{
    let Ok(accepted) = run(s.directory, memory, cache, call) else {
        let at = put_call(out, s.at, call, 0, 0);
        return Progress {
            at,
            calls: s.calls + 1,
            ..s
        };
    };
    let count = accepted.orders.count as u64;
    let at = put_call(out, s.at, call, accepted.value, count);
    Progress {
        directory: accepted.directory,
        at,
        calls: s.calls + 1,
        orders: s.orders + count,
    }
}

// One record of the tape. One that asks no call returns early: as an arm of a `match` it would have the directory copied twice.
fn take(s: Progress, memory: &mut [u8], cache: &mut [u8], out: &mut [u8], item: Record) -> Progress
    requires { Within s }
    ensures { Took item s memory.old cache.old out.old result memory.new cache.new out.new }
{
    let Some(call) = access_of(item) else {
        return s;
    };
    run_call(s, memory, cache, out, call)
}

// All records of the tape, from the machine's state on, and the last line. The answer is how many bytes the text has. The loop stays a function of its own:
// compiled into its caller it would move the directory byte by byte. A record's length is known once it is read, so the place comes from each answer; the end
// and a refusal each print a last line of their own.
#[inline(never)]
pub(crate) fn run_tape(
    tape: &[u8],
    directory: Directory,
    memory: &mut [u8],
    cache: &mut [u8],
    out: &mut [u8],
) -> usize
    requires { length tape.now ≤ tape_most }
    ensures { Puts (text_from directory memory.old cache.old 0 0 (read_all tape.now)) out.old 0 out.new result × (result ≤ text_most) }
{
    let mut s = Progress {
        directory,
        at: 0,
        calls: 0,
        orders: 0,
    };
    let mut place = 0;
    loop {
        match read_record(tape, place) {
            Ok(Some((item, next))) => {
                s = take(s, memory, cache, out, item);
                place = next;
            }
            Ok(None) => return put_total(out, s.at, s.calls, s.orders),
            Err(refused) => return put_refused(out, s.at, refused.refusal, refused.place),
        }
    }
}
