// A call's answer as numbers that a caller lends space for.
#![tactic(auto)]

ghost use Rattle.std.specs.Prelude.{◌≡◌, Ok};
ghost use Rattle.coherence.specs.Calls.{told};
ghost use Rattle.answer_layout.specs.Answer.{order_numbers, answer_put};

use coherence::{Accepted, Orders};
use order::Order;

#[tactic(auto, unfolding(crate::specs::Answer::order_numbers), using(order::proofs::FlagLaws::flag_from_bool))]
fn order_numbers(order: Order) -> [u32; 4]
    ensures { result ≡ order_numbers order }
{
    [
        u32::from(order.unit),
        u32::from(u8::from(order.command)),
        u32::from(order.block),
        u32::from(order.retried),
    ]
}

// An answer's numbers, into the first places of the lent space. It stays if it is too small, or if the answer counts more orders than it has places.
// Not compiled into its callers, it costs a flush through C a fifth more, since the answer with its directory is copied for it.
#[tactic(auto, unfolding(crate::specs::Answer::answer_put))]
#[inline(always)]
pub fn put_answer(a: Accepted, out: &mut [u32])
    ensures { out.new ≡ answer_put (told a.directory (Ok a)) out.old }
{
    let Orders { count, list } = a.orders;
    if out.len() < 18 || count > 4 {
        return;
    }
    out[0] = a.value;
    out[1] = count as u32;
    for (n, &order) in list.iter().enumerate() {
        let at = 2 + 4 * n;
        out[at..at + 4].copy_from_slice(&order_numbers(order));
    }
}
