// An operation as numbers (Table 6, "Message sequence").
ghost use Rattle.std.specs.Prelude.{◌≡◌};
ghost use Rattle.message.specs.Given.{given};
ghost use Rattle.message_rules.specs.Sender.{operation_at, sequence_found};
ghost use Rattle.crossing.specs.Capped.{capped};
ghost use Rattle.capi_message.specs.Operation.{operation_from, number_found};

use crossing::capped;
use message::Operation;
use message_rules::{Sequence, Source};

// A sender that no operation may have. No Option: `operation_sender` has it, so that `trainer_receive` refuses in the order of its tests.
pub(crate) const NO_SENDER: u8 = 255;

// A sender in a byte and an AID in two. What they do not hold becomes the most that they hold, which is no sender and no AID either.
pub(crate) fn source_from(sender: u64, aid: u64) -> Source
    ensures { (result.sender ≡ capped 255 sender) × (result.aid ≡ capped 65535 aid) }
{
    Source {
        sender: capped(sender),
        aid: capped(aid),
    }
}

// An operation from numbers and bytes. A sequence number above 3 has its operation refused: its sender becomes none.
#[tactic(auto, unfolding(crate::specs::Operation::operation_from, crate::specs::Operation::sequence_from, crate::specs::Operation::operation_sender, message_rules::specs::Operation::operation, message_rules::specs::Operation::sequence_numbered))]
pub(crate) fn operation_from(sequence: u32, sender: u32, aid: u32, bytes: &[u8]) -> Operation<'_>
    ensures { given result ≡ operation_from sequence sender aid bytes.now }
{
    let source = source_from(u64::from(sender), u64::from(aid));
    match Sequence::try_from(sequence) {
        Ok(sequence) => Operation {
            sequence,
            source,
            bytes,
        },
        Err(_) => Operation {
            sequence: Sequence::Last,
            source: Source {
                sender: NO_SENDER,
                ..source
            },
            bytes,
        },
    }
}

// The number of operation `k`'s sequence, 0 past the last.
#[tactic(auto, unfolding(crate::specs::Operation::number_found, message_rules::specs::Operation::sequence_number))]
pub(crate) fn number_at(message: &[u8], source: Source, k: usize) -> u32
    ensures { result ≡ number_found (sequence_found (operation_at message.now source.sender source.aid k)) }
{
    message::sequence_at(message, source, k).map_or(0, u32::from)
}
