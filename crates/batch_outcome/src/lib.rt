// What a list of accesses answers before its first access, whether another one is to be made, and a refusal of the list's own (document 02, T-03).
#![tactic(auto)]

ghost use Rattle.std.specs.Prelude.{◌≡◌, ◌&&◌, eqb, ltb};
ghost use Rattle.order.specs.Refusal.{accepted};
ghost use Rattle.batch_rules.specs.Batch.{opened};
ghost use Rattle.batch_rules.specs.Numbers.{refused_by};
ghost use Rattle.batch_rules.specs.Outcome.{refusal_told, told};

use batch_rules::Outcome;
use coherence::Directory;
use order::Refusal;

// The longest list.
pub const MOST_ACCESSES: usize = 65536;

// The outcome before the first access: refused where the list is too long or the values have too little room.
#[tactic(auto, unfolding(batch_rules::specs::Outcome::told, batch_rules::specs::Batch::opened, batch_rules::specs::Batch::none))]
pub fn open(directory: Directory, count: usize, room: usize) -> Outcome
    ensures { told result ≡ opened directory count room }
{
    let too_long = count > MOST_ACCESSES || count > room;
    Outcome {
        refusal: number_of(too_long.then_some(Refusal::NoRoom)),
        index: 0,
        orders: 0,
        directory,
    }
}

// Whether an access of a list of `count` is to be made next: none was refused, and not all are made.
#[tactic(auto, unfolding(batch_rules::specs::Outcome::told))]
pub fn goes_on(s: Outcome, count: usize) -> bool
    ensures { result ≡ (eqb (told s).refusal accepted && ltb (told s).index count) }
{
    s.refusal == 0 && s.index < count
}

// The outcome, refused with a number where nothing is refused before. A public function, which takes any number; so an outcome holds any.
#[tactic(auto, unfolding(batch_rules::specs::Outcome::told, batch_rules::specs::Numbers::refused_by))]
pub fn refused_by(number: u8, s: Outcome) -> Outcome
    ensures { told result ≡ refused_by number (told s) }
{
    let refusal = if s.refusal == 0 { number } else { s.refusal };
    Outcome { refusal, ..s }
}

// The number of a refusal, 0 for none.
pub fn number_of(refusal: Option<Refusal>) -> u8
    ensures { result ≡ refusal_told refusal }
{
    match refusal {
        None => 0,
        Some(refusal) => u32::from(refusal) as u8,
    }
}
