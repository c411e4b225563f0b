// The head of a unit: where it is, which way it goes, and what the way to a cylinder costs.

ghost use Rattle.std.specs.Prelude.{◌≡◌, ◌^◌, ◌<◌, ◌≤◌, true};
ghost use Rattle.mscp_drive.specs.Common.{last_cylinder, carried, distance, moved, sweep_cost};

use crate::unit::Unit;

/// Where the head of a unit is, and whether it goes up (profile).
#[derive(Clone, Copy)]
pub struct Head {
    /// The cylinder that it is on.
    pub cylinder: u32,
    /// Whether it goes to higher cylinders.
    pub up: bool,
}

/// A head on cylinder 0 that goes up, as each does at first (profile).
impl Default for Head {
    fn default() -> Self
        ensures { result ≡ record { cylinder = 0; up = true } }
    {
        Head {
            cylinder: 0,
            up: true,
        }
    }
}

impl Head {
    /// How many cylinders the head of this unit crosses to get to cylinder `to` if it goes on the way it
    /// goes, and turns only at the ends (profile).
    pub fn cost(&self, unit: &Unit, to: u32) -> u64
        requires head { self.now.cylinder ≤ last_cylinder unit.now }
        requires target { to ≤ last_cylinder unit.now }
        ensures value { result ≡ sweep_cost (last_cylinder unit.now) self.now.cylinder self.now.up to }
        ensures small { result < 2 ^ 33 }
    {
        let from = u64::from(self.cylinder);
        let to = u64::from(to);
        let last = u64::from(unit.last_cylinder());
        if self.up {
            if from <= to {
                to - from
            } else {
                (last - from) + (last - to)
            }
        } else if to <= from {
            from - to
        } else {
            from + to
        }
    }

    /// How many cylinders lie between the head and cylinder `to`, whichever way it goes.
    pub fn distance(&self, to: u32) -> u32
        ensures { result ≡ distance self.now.cylinder to }
    {
        self.cylinder.abs_diff(to)
    }

    /// The head after a start on cylinder `to`: it goes the way that it went to get there, and a head that
    /// was there goes on as before (profile).
    pub fn moved(&self, to: u32) -> Head
        ensures { result ≡ moved self.now to }
    {
        let up = if self.cylinder == to {
            self.up
        } else {
            self.cylinder < to
        };
        Head { cylinder: to, up }
    }

    /// The head after a later block of a transfer, on cylinder `to`: it goes on as before (profile).
    pub fn carried(&self, to: u32) -> Head
        ensures { result ≡ carried self.now to }
    {
        Head {
            cylinder: to,
            up: self.up,
        }
    }
}
