// Interrupts on J-Bus for programs in other languages.
ghost use Rattle.std.specs.Prelude.{◌≡◌};
ghost use Rattle.order.specs.Refusal.{number_of};
ghost use Rattle.jbus.specs.Interrupt.{interrupt_read, cycle_written};
ghost use Rattle.capi_jbus.specs.Interrupt.{halves, target_left, agent_left, device_left, upper_left, lower_left};

// Reads the address cycle of an interrupt.
#[unsafe(no_mangle)]
pub extern "C" fn trainer_read_interrupt(
    upper: u64,
    lower: u64,
    target: &mut u32,
    agent: &mut u32,
    device: &mut u32,
) -> u32
    ensures { (result ≡ number_of (interrupt_read (halves upper lower))) × (target.new ≡ target_left (interrupt_read (halves upper lower)) target.old) × (agent.new ≡ agent_left (interrupt_read (halves upper lower)) agent.old) × (device.new ≡ device_left (interrupt_read (halves upper lower)) device.old) }
{
    capi_jbus::trainer_read_interrupt(upper, lower, target, agent, device)
}

// Writes the address cycle of an interrupt.
#[unsafe(no_mangle)]
pub extern "C" fn trainer_write_interrupt(
    target: u32,
    agent: u32,
    upper: &mut u64,
    lower: &mut u64,
) -> u32
    ensures { (result ≡ number_of (cycle_written target agent)) × (upper.new ≡ upper_left (cycle_written target agent) upper.old) × (lower.new ≡ lower_left (cycle_written target agent) lower.old) }
{
    capi_jbus::trainer_write_interrupt(target, agent, upper, lower)
}
