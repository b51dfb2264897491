// Address cycles and what is read of them, on standard output.
use jbus::{AddressCycle, Device};
use std::{fmt, io};

// A device by its name.
#[derive(Clone, Copy)]
struct Name(Device);

impl fmt::Display for Name {
    fn fmt<W: fmt::Write>(&self, f: &mut fmt::Formatter<W>) -> fmt::Result {
        f.write_str(match self.0 {
            Device::Processor => "processor",
            Device::NotSupported => "not supported",
            Device::Illegal => "illegal",
            Device::Bridge0 => "bridge 0",
            Device::Bridge1 => "bridge 1",
        })
    }
}

// A cycle, both halves in hexadecimal, and what is read of it.
pub(crate) fn reading(to: &impl Print, cycle: AddressCycle) -> io::Result<()> {
    let AddressCycle { upper, lower } = cycle;
    print!(to; "read {upper:016x} {lower:016x}: ")?;
    match jbus::read_interrupt(cycle) {
        Ok(i) => println!(to; "target {} agent {} {}", i.target, i.agent, Name(i.device)),
        Err(refusal) => println!(to; "refusal {}", u32::from(refusal)),
    }
}
