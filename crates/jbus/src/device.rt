// What an agent ID stands for (source document 000, Table 5-3).
ghost use Rattle.std.specs.Prelude.{◌≡◌};
ghost use Rattle.jbus.specs.Device.{device_number, device_of};

// The devices by number, in the order of document 02's list; the numbers are ours.
#[derive(Clone, Copy, Debug, PartialEq, Eq)]
pub enum Device {
    Processor = 0,
    NotSupported = 1,
    Illegal = 2,
    Bridge0 = 3,
    Bridge1 = 4,
}

impl From<Device> for u32 {
    ghost from_gives = { λ device n. n ≡ device_number device };

    #[tactic(auto, unfolding(crate::specs::Device::device_number))]
    fn from(device: Device) -> u32 {
        device as u32
    }
}

// By an agent's low four bits.
const DEVICES: [Device; 16] = [
    Device::Processor, // 0
    Device::Processor, // 1
    Device::Processor, // 2
    Device::Processor, // 3
    Device::NotSupported, // 4
    Device::NotSupported, // 5
    Device::Illegal, // 6
    Device::Illegal, // 7
    Device::NotSupported, // 8
    Device::NotSupported, // 9
    Device::NotSupported, // 10
    Device::NotSupported, // 11
    Device::Bridge0, // 12
    Device::Bridge0, // 13
    Device::Bridge1, // 14
    Device::Bridge1, // 15
];

pub(crate) fn device_of(agent: u32) -> Device
    ensures { result ≡ device_of agent }
{
    let low = (agent % 16) as usize;
    DEVICES[low]
}
