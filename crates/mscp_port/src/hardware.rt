// What kind of port it is.

ghost use Rattle.std.specs.Prelude.{◌≡◌, ◌%◌};
ghost use Rattle.mscp_port.specs.Registers.{bus_size, first_step, last_step};

/// The bus of the host.
#[derive(Clone, Copy)]
pub enum Bus {
    /// The Q-bus, with addresses of 22 bits.
    Q,
    /// The Unibus, with addresses of 18 bits.
    Uni,
}

impl Bus {
    /// An address of a port's action as this bus has it: without the bits for which it has no lines.
    pub fn address(self, address: u32) -> u32
        ensures { result ≡ address % bus_size self }
    {
        match self {
            Bus::Q => address % 0x40_0000,
            Bus::Uni => address % 0x4_0000,
        }
    }
}

/// What kind of port it is, as it tells its host.
#[derive(Clone, Copy)]
pub struct Hardware {
    pub bus: Bus,
    /// The port's model, of which the low seven bits are told: 19 is an RQDX3, 6 a UDA50.
    pub model: u8,
    /// The version of its software, of which the low four bits are told.
    pub software: u8,
    /// The version of its hardware.
    pub version: u8,
}

impl Hardware {
    /// An RQDX3.
    pub const RQDX3: Hardware = Hardware {
        bus: Bus::Q,
        model: 19,
        software: 3,
        version: 1,
    };

    /// A UDA50.
    pub const UDA50: Hardware = Hardware {
        bus: Bus::Uni,
        model: 6,
        software: 3,
        version: 1,
    };

    /// What register SA shows in the first step: mapping is served, odd addresses aren't, and on the Q-bus addresses of
    /// 22 bits are.
    pub(crate) fn first_step(&self) -> u16
        ensures { result ≡ first_step self.now }
    {
        match self.bus {
            Bus::Q => 0x0B40,
            Bus::Uni => 0x0940,
        }
    }

    /// What it shows in the last step: model and software.
    pub(crate) fn last_step(&self) -> u16
        ensures { result ≡ last_step self.now }
    {
        0x4000 + u16::from(self.model % 0x80) * 0x10 + u16::from(self.software % 0x10)
    }
}
