// Interrupts on the neighbour bench's J-Bus (document 02, T-14): their address cycle, read and written.
#![tactic(auto)]

mod device;
mod interrupt;

pub use device::Device;
pub use interrupt::{AddressCycle, Interrupt, read_interrupt, write_interrupt};
