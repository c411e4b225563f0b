// The communication area, where a host and its port meet.

ghost use Rattle.std.specs.Prelude.{◌≡◌, ◌≤◌, ◌<◌, ◌+◌, ◌^◌};
ghost use Rattle.mscp_port.specs.Areas.{AreRings, IsInArea, end_of, rings_named, rings_of, slot_in, slots, slots_of, start_of, word_of};

use std::marker::Model;

/// One of the two rings.
#[derive(Clone, Copy)]
pub(crate) enum Side {
    /// What the port answers.
    Responses,
    /// What the host sends.
    Commands,
}

/// The area that the host has named: the ring of responses at its base, that of commands behind it, four bytes a slot,
/// and two words for interrupts in front.
#[derive(Clone, Copy)]
pub(crate) struct Rings {
    base: u32,
    responses: u32,
    commands: u32,
}

// A clause sees the base, and how many slots each ring has.
impl Model for Rings {
    ghost use Rattle.mscp_port.specs.Areas.{AreRings, Rings as Area};

    ghost Value = { Area };

    ghost view = { λ r. record { base = r.base; responses = r.responses; commands = r.commands } };

    ghost invariant = { λ r. AreRings (record { base = r.base; responses = r.responses; commands = r.commands }) };

    ghost inverse = { λ a. record { base = a.base; responses = a.responses; commands = a.commands } };
}

/// How many slots a ring has whose length has this logarithm.
fn slots_of_log(log: u16) -> u32
    requires { log < 8 }
    ensures value { result ≡ slots log }
    ensures some { 1 ≤ result }
    ensures few { result ≤ 128 }
{
    match log {
        0 => 1,
        1 => 2,
        2 => 4,
        3 => 8,
        4 => 16,
        5 => 32,
        6 => 64,
        _ => 128,
    }
}

impl Rings {
    /// The area that a host names by its words of the first three steps: the lengths of the rings in the first, and the
    /// base in the others. None if there is no room in front of the base.
    pub fn named(first: u16, second: u16, third: u16) -> Option<Rings>
        ensures { result ≡ rings_named first second third }
    {
        let base = u32::from(third % 0x8000) * 0x1_0000 + u32::from(second / 2 * 2);
        if base < 8 {
            return None;
        }
        Some(Rings {
            base,
            responses: slots_of_log(first / 0x0100 % 8),
            commands: slots_of_log(first / 0x0800 % 8),
        })
    }

    /// The area of this base and of rings of so many slots. None if there can be none.
    pub fn of(base: u32, responses: u32, commands: u32) -> Option<Rings>
        ensures { result ≡ rings_of (record { base = base; responses = responses; commands = commands }) }
    {
        let has_room = 8 <= base && base < 0x8000_0000;
        if has_room && (1..=128).contains(&responses) && (1..=128).contains(&commands) {
            Some(Rings {
                base,
                responses,
                commands,
            })
        } else {
            None
        }
    }

    /// Its base.
    pub fn base(&self) -> u32
        ensures value { result ≡ self.now.base }
        ensures area { AreRings self.now }
    {
        self.base
    }

    /// How many slots a ring has.
    pub fn slots(&self, side: Side) -> u32
        ensures value { result ≡ slots_of self.now side }
        ensures some { 1 ≤ result }
        ensures few { result ≤ 128 }
    {
        match side {
            Side::Responses => self.responses,
            Side::Commands => self.commands,
        }
    }

    /// Where the slot of a ring lies that comes after so many others. Behind the last one comes the first.
    pub fn slot(&self, side: Side, number: u32) -> u32
        requires { number < 2 ^ 31 }
        ensures value { result ≡ slot_in self.now side number }
        ensures inside { IsInArea self.now result 4 }
    {
        match side {
            Side::Responses => self.base + number % self.responses * 4,
            Side::Commands => self.base + (self.responses + number % self.commands) * 4,
        }
    }

    /// Where the interrupt word of a ring lies.
    pub fn word(&self, side: Side) -> u32
        ensures value { result ≡ word_of self.now side }
        ensures inside { IsInArea self.now result 2 }
    {
        match side {
            Side::Responses => self.base - 2,
            Side::Commands => self.base - 4,
        }
    }

    /// The first byte behind the rings.
    pub fn end(&self) -> u32
        ensures value { result ≡ end_of self.now }
        ensures low { result < 2 ^ 31 + 1025 }
        ensures near { result ≤ self.now.base + 1024 }
    {
        self.base + (self.responses + self.commands) * 4
    }

    /// Where the area begins: with a purge word in front of the interrupt words if the host wants that.
    pub fn start(&self, purges: bool) -> u32
        ensures value { result ≡ start_of self.now purges }
        ensures inside { IsInArea self.now result 4 }
        ensures low { result < 2 ^ 31 }
    {
        if purges { self.base - 8 } else { self.base - 4 }
    }
}
