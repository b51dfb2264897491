// Interrupts on J-Bus for programs in other languages: `include/trainer.h` declares these functions. Everything crosses as numbers. Each
// function is total, and a refused call writes nothing.
#![tactic(auto)]

ghost use Rattle.std.specs.Prelude.{◌≡◌};
ghost use Rattle.order.specs.Refusal.{number_of};
ghost use Rattle.jbus.specs.Interrupt.{interrupt_read, cycle_written};
ghost use Rattle.capi_jbus.specs.Interrupt.{halves, target_left, agent_left, device_left, upper_left, lower_left};

use jbus::AddressCycle;

// Reads the address cycle of an interrupt.
#[tactic(auto, unfolding(crate::specs::Interrupt::halves, crate::specs::Interrupt::target_left, crate::specs::Interrupt::agent_left, crate::specs::Interrupt::device_left))]
#[unsafe(no_mangle)]
pub extern "C" fn trainer_read_interrupt(
    upper: u64,
    lower: u64,
    target: &mut u32,
    agent: &mut u32,
    device: &mut u32,
) -> u32
    ensures { (result ≡ number_of (interrupt_read (halves upper lower))) × (target.new ≡ target_left (interrupt_read (halves upper lower)) target.old) × (agent.new ≡ agent_left (interrupt_read (halves upper lower)) agent.old) × (device.new ≡ device_left (interrupt_read (halves upper lower)) device.old) }
{
    match jbus::read_interrupt(AddressCycle { upper, lower }) {
        Ok(interrupt) => {
            *target = interrupt.target;
            *agent = interrupt.agent;
            *device = interrupt.device.into();
            0
        }
        Err(refusal) => refusal.into(),
    }
}

// Writes the address cycle of an interrupt.
#[tactic(auto, unfolding(crate::specs::Interrupt::upper_left, crate::specs::Interrupt::lower_left))]
#[unsafe(no_mangle)]
pub extern "C" fn trainer_write_interrupt(
    target: u32,
    agent: u32,
    upper: &mut u64,
    lower: &mut u64,
) -> u32
    ensures { (result ≡ number_of (cycle_written target agent)) × (upper.new ≡ upper_left (cycle_written target agent) upper.old) × (lower.new ≡ lower_left (cycle_written target agent) lower.old) }
{
    match jbus::write_interrupt(target, agent) {
        Ok(cycle) => {
            *upper = cycle.upper;
            *lower = cycle.lower;
            0
        }
        Err(refusal) => refusal.into(),
    }
}
