// A receiver and a completion as four numbers that a caller lends.
ghost use Rattle.std.specs.Prelude.{◌≡◌, ◌++◌, ◌≤◌, length, drop};
ghost use Rattle.capi_message.specs.Layout.{receiver_size, receiver_numbers, receiver_from};

use crate::operation::{NO_SENDER, source_from};
use message_rules::{Received, Receiver, Source};

// A receiver that is refused, as `no_receiver` has it: 10 comes in its place among the tests.
const NO_RECEIVER: Receiver = Some(Received {
    source: Source {
        sender: NO_SENDER,
        aid: 0,
    },
    count: 0,
});

// The receiver that the first four numbers stand for. What stands for none becomes one that is refused.
#[tactic(auto, unfolding(crate::specs::Layout::receiver_from, crate::specs::Layout::receiver_of))]
pub(crate) fn receiver_from(numbers: &[u64]) -> Receiver
    requires { receiver_size ≤ length numbers.now }
    ensures { result ≡ receiver_from numbers.now }
{
    match *numbers {
        [0, 0, 0, 0, ..] => None,
        [1, sender, aid, count, ..] => Some(Received {
            source: source_from(sender, aid),
            count: count as usize,
        }),
        _ => NO_RECEIVER,
    }
}

// Puts what is there of a message: 0 where there is none; 1, the sender, the AID and how many bytes where there is.
#[tactic(auto, unfolding(crate::specs::Layout::receiver_numbers))]
pub(crate) fn put(message: Option<Received>, out: &mut [u64])
    requires { receiver_size ≤ length out.old }
    ensures { out.new ≡ receiver_numbers message ++ drop receiver_size out.old }
{
    let numbers = match message {
        None => [0; 4],
        Some(Received { source, count }) => {
            [
                1,
                u64::from(source.sender),
                u64::from(source.aid),
                count as u64,
            ]
        }
    };
    out[..4].copy_from_slice(&numbers);
}
