// The address cycle of an interrupt (source document 000, section 3.6.1).
ghost use Rattle.std.specs.Prelude.{◌≡◌};
ghost use Rattle.jbus.specs.Interrupt.{interrupt_read, cycle_written};

use crate::device::{Device, device_of};
use order::Refusal;

// The weight of each field's lowest bit.
const AGENT_WEIGHT: u64 = 1 << 31;

const TARGET_WEIGHT: u64 = 1 << 36;

const RESERVED_WEIGHT: u64 = 1 << 41;

const TRANSACTION_WEIGHT: u64 = 1 << 43;

const IGNORED_WEIGHT: u64 = 1 << 48;

// INT, the transaction of an interrupt request (Table 3-1).
const INTERRUPT_REQUEST: u64 = 0x14;

// J_AD[127:64] and J_AD[63:0].
#[derive(Clone, Copy, Debug, PartialEq, Eq)]
pub struct AddressCycle {
    pub upper: u64,
    pub lower: u64,
}

// The target's thread, the source's agent ID, and the device that it names.
#[derive(Clone, Copy, Debug, PartialEq, Eq)]
pub struct Interrupt {
    pub target: u32,
    pub agent: u32,
    pub device: Device,
}

#[tactic(auto, using(crate::proofs::InterruptLaws::read_tests), unfolding(crate::proofs::InterruptLaws::half_read, crate::specs::Interrupt::transaction_of, crate::specs::Interrupt::reserved_of, crate::specs::Interrupt::low_reserved_of, crate::specs::Interrupt::target_of, crate::specs::Interrupt::agent_of, crate::specs::Interrupt::interrupt_of))]
pub fn read_interrupt(cycle: AddressCycle) -> Result<Interrupt, Refusal>
    ensures { result ≡ interrupt_read cycle }
{
    let half = cycle.lower;
    if cycle.upper != half {
        return Err(Refusal::HalvesDiffer);
    }
    if half % IGNORED_WEIGHT / TRANSACTION_WEIGHT != INTERRUPT_REQUEST {
        return Err(Refusal::UnknownKind);
    }
    if half % TRANSACTION_WEIGHT / RESERVED_WEIGHT != 0 || half % AGENT_WEIGHT != 0 {
        return Err(Refusal::FieldRange);
    }
    let target = (half % RESERVED_WEIGHT / TARGET_WEIGHT) as u32;
    let agent = (half % TARGET_WEIGHT / AGENT_WEIGHT) as u32;
    Ok(Interrupt {
        target,
        agent,
        device: device_of(agent),
    })
}

#[tactic(auto, using(crate::proofs::InterruptLaws::write_tests), unfolding(crate::specs::Interrupt::half_of, crate::specs::Interrupt::cycle_of))]
pub fn write_interrupt(target: u32, agent: u32) -> Result<AddressCycle, Refusal>
    ensures { result ≡ cycle_written target agent }
{
    if target > 31 || agent > 31 {
        return Err(Refusal::FieldRange);
    }
    let half = INTERRUPT_REQUEST * TRANSACTION_WEIGHT
        + u64::from(target) * TARGET_WEIGHT
        + u64::from(agent) * AGENT_WEIGHT;
    Ok(AddressCycle {
        upper: half,
        lower: half,
    })
}
