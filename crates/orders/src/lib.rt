// The orders that an access gives, as an answer has them, and the answer of an accepted call.
#![tactic(auto)]

ghost use Rattle.std.specs.Prelude.{◌≡◌, ◌<◌, false, List, [], ◌∷◌};
ghost use Rattle.coherence.specs.Calls.{no_order, packed};
ghost use Rattle.orders.specs.Orders.{order, eviction_orders, again, ask_orders, fetch_orders, directory_of, accepted_answer};

use coherence::{Accepted, Directory, Entry, Orders, Settings, Slot};
use order::{Command, Order};

// What stands in a place of an answer's list that no order has.
#[tactic(auto, unfolding(crate::specs::Orders::order))]
fn no_order() -> Order
    ensures { result ≡ no_order }
{
    given(0, Command::Read, 0, false)
}

// An order's unit, command and block stay parameters: an `Order` would bring `retried`, which these functions choose.
#[tactic(auto, unfolding(crate::specs::Orders::order))]
fn given(unit: u8, command: Command, block: u8, retried: bool) -> Order
    ensures { result ≡ order unit command block retried }
{
    Order {
        unit,
        command,
        block,
        retried,
    }
}

#[tactic(auto, unfolding(coherence::specs::Calls::packed))]
pub fn no_orders() -> Orders
    ensures { result ≡ packed [] }
{
    Orders {
        count: 0,
        list: [no_order(); 4],
    }
}

// The orders, at most three, behind one that comes first.
fn led_by(first: Order, orders: Orders) -> Orders
    requires { orders.count < 4 }
    ensures { (os : List Order) → orders ≡ packed os → result ≡ packed (first ∷ os) }
{
    let [second, third, fourth, _] = orders.list;
    Orders {
        count: orders.count + 1,
        list: [first, second, third, fourth],
    }
}

#[tactic(auto, unfolding(coherence::specs::Calls::packed))]
pub fn one_order(unit: u8, command: Command, block: u8) -> Orders
    ensures { result ≡ packed (order unit command block false ∷ []) }
{
    led_by(given(unit, command, block, false), no_orders())
}

// The orders by which a unit's slot is emptied: a copyback where it is EM.
#[tactic(auto, unfolding(crate::specs::Orders::eviction_orders))]
pub fn eviction_orders(slot: Slot, unit: u8) -> Orders
    ensures { result ≡ packed (eviction_orders unit slot) }
{
    match slot {
        Slot::Modified(old) => one_order(unit, Command::Copyback, old),
        _ => no_orders(),
    }
}

// After a retry the same order again, but where the block is stolen.
#[tactic(auto, unfolding(crate::specs::Orders::again))]
fn again(stolen: bool, unit: u8, command: Command, block: u8) -> Orders
    ensures { result ≡ packed (again stolen unit command block) }
{
    if stolen {
        no_orders()
    } else {
        one_order(unit, command, block)
    }
}

// The orders by which a unit asks for a block. Where `holder` is a unit, the order is retried, the holder copies the block back, and the order is given
// again, but where the block is `stolen` during the copyback.
#[tactic(auto, unfolding(crate::specs::Orders::ask_orders), using(crate::proofs::Leading::few_again))]
pub fn ask_orders(stolen: bool, holder: u8, unit: u8, command: Command, block: u8) -> Orders
    ensures { result ≡ packed (ask_orders stolen unit command block holder) }
{
    if holder > 3 {
        return one_order(unit, command, block);
    }
    let retried = given(unit, command, block, true);
    let yielded = given(holder, Command::Copyback, block, false);
    let answered = led_by(yielded, again(stolen, unit, command, block));
    led_by(retried, answered)
}

// The orders by which a unit gets a block that it does not hold, into a slot that is as given.
#[tactic(auto, unfolding(crate::specs::Orders::fetch_orders, crate::specs::Orders::eviction_orders), using(crate::proofs::Leading::few_asked))]
pub fn fetch_orders(
    stolen: bool,
    slot: Slot,
    holder: u8,
    unit: u8,
    command: Command,
    block: u8,
) -> Orders
    ensures { result ≡ packed (fetch_orders stolen unit command block slot holder) }
{
    let asked = ask_orders(stolen, holder, unit, command, block);
    match slot {
        Slot::Modified(old) => led_by(given(unit, Command::Copyback, old, false), asked),
        _ => asked,
    }
}

// The answer of an accepted call, which leaves these slots and these sets of holders, and keeps the settings. The three stay apart, since a copy of the slots alone has
// 128 bytes (see `slots`).
#[tactic(auto, unfolding(crate::specs::Orders::accepted_answer))]
pub fn accepted(
    value: u32,
    orders: Orders,
    slots: [Entry; 64],
    settings: Settings,
    holders: [u8; 64],
) -> Accepted
    ensures { result ≡ accepted_answer value orders (directory_of slots settings holders) }
{
    Accepted {
        value,
        orders,
        directory: Directory {
            slots,
            settings,
            holders,
        },
    }
}
