// A tape read whole: the call that a record asks of the machine.
#![tactic(auto)]

ghost use Rattle.std.specs.Prelude.{◌≡◌};
ghost use Rattle.reading.specs.Reading.{access_of};

use coherence::Call;
use tape_format::Record;

// The call that a record asks, if it is an access.
#[tactic(auto, unfolding(crate::specs::Reading::access_of))]
pub fn access_of(item: Record) -> Option<Call>
    ensures { result ≡ access_of item }
{
    match item {
        Record::Load(unit, address) => Some(Call::Load { unit, address }),
        Record::Store(unit, address, value) => Some(Call::Store {
            unit,
            address,
            value,
        }),
        Record::Flush(unit, block) => Some(Call::Flush { unit, block }),
        Record::Order(_) => None,
        Record::Answer { .. } => None,
        Record::Register { .. } => None,
        Record::Loaded(..) => None,
        Record::Stamp(_) => None,
    }
}
