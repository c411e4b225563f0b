// The limits of a controller, and its units.

ghost use Rattle.std.specs.Prelude.{◌≡◌, ◌-◌, [], None};

use crate::connection::Connection;
use crate::units::Units;
use std::marker::Model;

/// Why limits are refused: the first that holds, in this order.
#[derive(Clone, Copy)]
pub enum ConfigFault {
    /// The first connection's credits not 2 to 64, the second's not 0 or 2 to 62, or more than 64 of both.
    Credits,
    /// The longest transfer not 1 to 8,388,608 blocks.
    Longest,
    /// The controller timeout not 1 to 255 seconds.
    Timeout,
    /// Figures could exceed 32 bits.
    Figure,
}

/// The limits of a controller, and its units.
#[derive(Drop)]
pub struct Config {
    credits: u32,
    second: u32,
    budget: u32,
    longest: u32,
    timeout: u16,
    id: u64,
    units: Units,
}

// A clause sees the limits and the units.
impl Model for Config {
    ghost use Rattle.mscp_drive.specs.Settings.{IsValid, Settings};

    ghost Value = { Settings };

    ghost view = { λ c.
        record {
          credits = c.credits;
          second = c.second;
          budget = c.budget;
          longest = c.longest;
          timeout = c.timeout;
          id = c.id;
          units = c.units;
        } };

    ghost invariant = { λ c.
        IsValid (record {
          credits = c.credits;
          second = c.second;
          budget = c.budget;
          longest = c.longest;
          timeout = c.timeout;
          id = c.id;
          units = c.units;
        }) };
}

/// How many commands may wait of so many credits: one is kept for commands that are answered when they come.
fn room_for(credits: u32) -> u32
    ensures { result ≡ credits - 1 }
{
    credits.saturating_sub(1)
}

impl Config {
    ghost use Rattle.mscp_drive.specs.Settings.{configured, credits_of, limit_fault, room, IsValid, Settings};

    /// The limits, if a controller can keep them: `credits` commands and untaken ends of the first connection at most,
    /// and `second` of the second, each waiting command passed by at most `budget` blocks, transfers of at most
    /// `longest` blocks, and a controller timeout in seconds and a controller identifier, which hosts are told. If
    /// `second` is 0 there is no second connection. A limit of so many passes is a budget of `passes * longest`.
    ///
    /// # Errors
    ///
    /// The first that holds of `Credits`, `Longest`, `Timeout` and `Figure`.
    pub fn new(
        credits: u32,
        second: u32,
        budget: u64,
        longest: u32,
        timeout: u16,
        id: u64,
        units: Units,
    ) -> Result<Config, ConfigFault>
        ensures { let s : Settings =
            record {
              credits = credits;
              second = second;
              budget = budget;
              longest = longest;
              timeout = timeout;
              id = id;
              units = units;
            } in
            result ≡ configured s }
    {
        if let Some(fault) = Config::fault(credits, second, budget, longest, timeout) {
            return Err(fault);
        }
        Ok(Config::of(credits, second, budget, longest, timeout, id, units))
    }

    /// Why a controller can't keep these limits, if it can't, whatever its identifier and its units are.
    pub fn fault(
        credits: u32,
        second: u32,
        budget: u64,
        longest: u32,
        timeout: u16,
    ) -> Option<ConfigFault>
        ensures { let s : Settings =
            record {
              credits = credits;
              second = second;
              budget = budget;
              longest = longest;
              timeout = timeout;
              id = 0;
              units = [];
            } in
            result ≡ limit_fault s }
    {
        if !(2..=64).contains(&credits) || second == 1 || second > 64 - credits {
            return Some(ConfigFault::Credits);
        }
        if !(1..=8_388_608).contains(&longest) {
            return Some(ConfigFault::Longest);
        }
        if !(1..=255).contains(&timeout) {
            return Some(ConfigFault::Timeout);
        }
        let Ok(budget) = u32::try_from(budget) else {
            return Some(ConfigFault::Figure);
        };
        let room = room_for(credits) + room_for(second);
        let bound = u64::from(room) * u64::from(longest) + u64::from(budget);
        if bound > u64::from(u32::MAX) {
            return Some(ConfigFault::Figure);
        }
        None
    }

    /// These limits and units, which a controller can keep. The units become its own where they lie: no others are
    /// made.
    #[inline(always)]
    pub fn of(
        credits: u32,
        second: u32,
        budget: u64,
        longest: u32,
        timeout: u16,
        id: u64,
        units: Units,
    ) -> Config
        requires { let s : Settings =
            record {
              credits = credits;
              second = second;
              budget = budget;
              longest = longest;
              timeout = timeout;
              id = id;
              units = units;
            } in
            limit_fault s ≡ None }
        ensures { result ≡ record {
          credits = credits;
          second = second;
          budget = budget;
          longest = longest;
          timeout = timeout;
          id = id;
          units = units;
        } }
    {
        // The list of the units tells that it is one.
        let _units = units.list();
        Config {
            credits,
            second,
            budget: budget as u32,
            longest,
            timeout,
            id,
            units,
        }
    }

    /// How many commands and untaken ends of the first connection there may be at once.
    pub fn credits(&self) -> u32
        ensures value { result ≡ self.now.credits }
        ensures valid { IsValid self.now }
    {
        self.credits
    }

    /// How many of the second connection: 0 if there is none.
    pub fn second(&self) -> u32
        ensures value { result ≡ self.now.second }
        ensures valid { IsValid self.now }
    {
        self.second
    }

    /// How many of this connection.
    pub fn credits_of(&self, connection: Connection) -> u32
        ensures value { result ≡ credits_of self.now connection }
        ensures valid { IsValid self.now }
    {
        match connection {
            Connection::First => self.credits,
            Connection::Second => self.second,
        }
    }

    /// How many commands may wait, of both connections.
    pub fn room(&self) -> u32
        ensures value { result ≡ room self.now }
        ensures valid { IsValid self.now }
    {
        room_for(self.credits) + room_for(self.second)
    }

    /// By how many blocks a waiting command may be passed.
    pub fn budget(&self) -> u32
        ensures value { result ≡ self.now.budget }
        ensures valid { IsValid self.now }
    {
        self.budget
    }

    /// The longest transfer, in blocks.
    pub fn longest(&self) -> u32
        ensures value { result ≡ self.now.longest }
        ensures valid { IsValid self.now }
    {
        self.longest
    }

    /// The controller timeout in seconds, which the host is told.
    pub fn timeout(&self) -> u16
        ensures value { result ≡ self.now.timeout }
        ensures valid { IsValid self.now }
    {
        self.timeout
    }

    /// The controller identifier, which the host is told.
    pub fn id(&self) -> u64
        ensures value { result ≡ self.now.id }
        ensures valid { IsValid self.now }
    {
        self.id
    }

    /// The units.
    pub fn units(&self) -> &Units
        ensures value { result.now ≡ self.now.units }
        ensures valid { IsValid self.now }
    {
        &self.units
    }
}
