// The drill for programs in other languages: `include/trainer.h` declares this function. Slices cross as pointer and length. It is total, and a refused
// call writes nothing.
#![tactic(auto)]

ghost use Rattle.std.specs.Prelude.{◌≡◌, length};
ghost use Rattle.order.specs.Refusal.{number_of};
ghost use Rattle.text.specs.Space.{placed};
ghost use Rattle.drill_format.specs.Drill.{drill_text, drilled_in};
ghost use Rattle.capi_drill.specs.Drill.{drill_written};

// What the drill program prints for a tape.
#[unsafe(no_mangle)]
#[tactic(auto, unfolding(crate::specs::Drill::drill_written))]
pub extern "C" fn trainer_drill(tape: &[u8], text: &mut [u8], written: &mut usize) -> u32
    ensures { (result ≡ number_of (drilled_in (drill_text tape.now) (length text.old))) × (text.new ≡ placed text.old 0 (drill_text tape.now)) × (written.new ≡ drill_written tape.now text.old written.old) }
{
    match drill_text::drill(tape, text) {
        Ok(count) => {
            *written = count;
            0
        }
        Err(refusal) => refusal.into(),
    }
}
