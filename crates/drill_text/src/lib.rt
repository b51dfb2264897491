// A whole drill as a function from the bytes of a tape to the bytes that are printed.
#![tactic(auto)]

ghost use Rattle.std.specs.Prelude.{◌≡◌, ◌≤◌, length};
ghost use Rattle.std.specs.Option.{option_copied};
ghost use Rattle.order.specs.Refusal.{accepted, number_of};
ghost use Rattle.text.specs.Space.{placed};
ghost use Rattle.drill_format.specs.Drill.{drill_text, printed, drilled_in, text_most};
ghost use Rattle.drill_text.specs.Writing.{Puts};

mod line;
mod run;

use crate::line::put_refused;
use machine::cold_start;
use order::Refusal;
use run::run_tape;
use slots::drill_settings;

// The most bytes of a tape, and a space that is long enough for the text of any tape.
pub const TAPE_MOST: usize = 65536;

pub const TEXT_MOST: usize = 720960;

// The text of an input put into `out`, if it has room. The answer is how many bytes it has, in any case.
fn play(tape: Option<&[u8]>, out: &mut [u8]) -> usize
    ensures { Puts (printed (option_copied tape.entry)) out.old 0 out.new result × (result ≤ text_most) }
{
    let Some(tape) = tape else {
        return put_refused(out, 0, Refusal::Unreadable, 0);
    };
    if TAPE_MOST < tape.len() {
        return put_refused(out, 0, Refusal::NoRoom, TAPE_MOST);
    }
    let mut memory = [0u8; 2048];
    let mut cache = [0u8; 2048];
    let directory = cold_start(drill_settings(), &memory, &mut cache).unwrap();
    run_tape(tape, directory, &mut memory, &mut cache, out)
}

// What the program prints, put at the start of `out`: a tape that was read from its input, or none where a read failed. Where the space might not suffice,
// the bytes are counted first.
pub fn drill_input(tape: Option<&[u8]>, out: &mut [u8]) -> Result<usize, Refusal>
    ensures { (result ≡ drilled_in (printed (option_copied tape.entry)) (length out.old)) × (out.new ≡ placed out.old 0 (printed (option_copied tape.entry))) × (text_most ≤ length out.old → number_of result ≡ accepted) }
{
    if out.len() < TEXT_MOST && out.len() < play(tape, &mut []) {
        return Err(Refusal::NoRoom);
    }
    Ok(play(tape, out))
}

// What a drill on `tape` prints, put at the start of `out`.
pub fn drill(tape: &[u8], out: &mut [u8]) -> Result<usize, Refusal>
    ensures { (result ≡ drilled_in (drill_text tape.now) (length out.old)) × (out.new ≡ placed out.old 0 (drill_text tape.now)) × (text_most ≤ length out.old → number_of result ≡ accepted) }
{
    drill_input(Some(tape), out)
}
