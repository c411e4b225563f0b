// A slot of a ring.

ghost use Rattle.std.specs.Prelude.{◌≡◌, ◌^◌, ◌<◌};
ghost use Rattle.mscp_port.specs.Slots.{given_back, is_flagged, is_owned, text_of};

/// What stands in a slot of a ring: whose it is, and where a packet lies.
#[derive(Clone, Copy)]
pub(crate) struct Descriptor {
    pub word: u32,
}

impl Descriptor {
    /// Whether the slot is the port's.
    pub fn is_owned(&self) -> bool
        ensures { result ≡ is_owned self.now.word }
    {
        self.word >= 0x8000_0000
    }

    /// Whether the host wants to hear when the slot is given back.
    pub fn is_flagged(&self) -> bool
        ensures { result ≡ is_flagged self.now.word }
    {
        self.word / 0x4000_0000 % 2 == 1
    }

    /// Where the text of the packet lies.
    pub fn text(&self) -> u32
        ensures value { result ≡ text_of self.now.word }
        ensures small { result < 2 ^ 22 }
    {
        self.word % 0x0040_0000 / 2 * 2
    }

    /// The descriptor once the port has given the slot back: it isn't the port's, and the flag is set.
    pub fn given_back(&self) -> u32
        ensures { result ≡ given_back self.now.word }
    {
        self.word % 0x4000_0000 + 0x4000_0000
    }
}
