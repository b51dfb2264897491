// What sender and receiver both speak of.
ghost use Rattle.std.specs.Prelude.{◌≡◌};
ghost use Rattle.message_rules.specs.Operation.{is_source, starts, ends};

use message_rules::{Sequence, Source};

// One operation of a message transfer: its part in the message, where it comes from, and its bytes.
#[derive(Clone, Copy)]
pub struct Operation<'a> {
    pub sequence: Sequence,
    pub source: Source,
    pub bytes: &'a [u8],
}

// Whether there are such a sender and such an AID.
#[tactic(auto, unfolding(message_rules::specs::Operation::is_source))]
pub(crate) fn is_source(source: Source) -> bool
    ensures { result ≡ is_source source.sender source.aid }
{
    source.sender <= 7 && source.aid <= 255
}

#[tactic(auto, unfolding(message_rules::specs::Operation::starts))]
pub(crate) fn is_start(sequence: Sequence) -> bool
    ensures { result ≡ starts sequence }
{
    matches!(sequence, Sequence::Single | Sequence::First)
}

#[tactic(auto, unfolding(message_rules::specs::Operation::ends))]
pub(crate) fn is_end(sequence: Sequence) -> bool
    ensures { result ≡ ends sequence }
{
    matches!(sequence, Sequence::Single | Sequence::Last)
}
