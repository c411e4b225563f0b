// What is kept of a unit, in two parts: a row of a few bytes, which most ends ask for and change, and numbers, which
// stand apart. So the ends of many units touch little memory.

ghost use Rattle.std.specs.Prelude.{◌≡◌};
ghost use Rattle.mscp_wire.specs.Rows as rows;

use crate::identity::Identity;
use crate::noted::Noted;
use crate::told::{State, Told};

/// What a host was told of a unit, but for numbers.
#[derive(Clone, Copy)]
pub struct Brief {
    pub sure: bool,
    pub state: State,
    pub protected: bool,
    pub present: bool,
}

/// The numbers that a host was told of a unit.
#[derive(Clone, Copy)]
pub struct Numbers {
    pub identity: Option<Identity>,
    pub size: Option<u32>,
    pub table: Option<u32>,
}

/// What each host was told of a unit, but for numbers.
#[derive(Clone, Copy)]
pub struct Row {
    pub number: u16,
    /// Whether a number was told.
    pub numbered: bool,
    pub first: Brief,
    pub second: Brief,
}

/// The numbers that each host was told of a unit.
#[derive(Clone, Copy)]
pub struct Pair {
    pub first: Numbers,
    pub second: Numbers,
}

/// What is known of a unit: what each host was told of it.
#[derive(Clone, Copy)]
pub struct Entry {
    pub number: u16,
    pub first: Told,
    pub second: Told,
}

impl Numbers {
    /// None.
    fn none() -> Numbers
        ensures { result ≡ rows.no_numbers }
    {
        Numbers {
            identity: None,
            size: None,
            table: None,
        }
    }

    /// Those that a host was told.
    fn of(told: &Told) -> Numbers
        ensures { result ≡ rows.numbers_of told.now }
    {
        Numbers {
            identity: told.identity,
            size: told.noted.size,
            table: told.noted.table,
        }
    }

    /// Whether there is one.
    fn has_any(&self) -> bool
        ensures { result ≡ rows.has_any self.now }
    {
        self.identity.is_some() || self.size.is_some() || self.table.is_some()
    }
}

impl Brief {
    /// What a host was told, but for numbers.
    fn of(told: &Told) -> Brief
        ensures { result ≡ rows.brief_of told.now }
    {
        Brief {
            sure: told.sure,
            state: told.state,
            protected: told.noted.protected,
            present: told.noted.present,
        }
    }

    /// What it was told with these numbers.
    fn with(&self, numbers: &Numbers) -> Told
        ensures { result ≡ rows.told_with self.now numbers.now }
    {
        Told {
            identity: numbers.identity,
            sure: self.sure,
            state: self.state,
            noted: Noted {
                size: numbers.size,
                table: numbers.table,
                protected: self.protected,
                present: self.present,
            },
        }
    }
}

impl Pair {
    /// No numbers.
    pub fn none() -> Pair
        ensures { result ≡ rows.no_pair }
    {
        Pair {
            first: Numbers::none(),
            second: Numbers::none(),
        }
    }

    /// Those of an entry.
    pub fn of(entry: &Entry) -> Pair
        ensures { result ≡ rows.pair_of entry.now }
    {
        Pair {
            first: Numbers::of(&entry.first),
            second: Numbers::of(&entry.second),
        }
    }

    /// Whether there is one.
    fn has_any(&self) -> bool
        ensures { result ≡ rows.pair_has_any self.now }
    {
        self.first.has_any() || self.second.has_any()
    }
}

impl Row {
    /// That of an entry.
    pub fn of(entry: &Entry) -> Row
        ensures { result ≡ rows.row_of entry.now }
    {
        Row {
            number: entry.number,
            numbered: Pair::of(entry).has_any(),
            first: Brief::of(&entry.first),
            second: Brief::of(&entry.second),
        }
    }

    /// The entry with these numbers.
    pub fn with(&self, pair: &Pair) -> Entry
        ensures { result ≡ rows.entry_with self.now pair.now }
    {
        Entry {
            number: self.number,
            first: self.first.with(&pair.first),
            second: self.second.with(&pair.second),
        }
    }
}
