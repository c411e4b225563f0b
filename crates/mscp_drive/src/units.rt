// The units of a controller.

ghost use Rattle.std.specs.Prelude.{◌≡◌, ◌↔◌, ◌<◌, ◌≤◌, [], length, IsTrue, IfOk, None, Some};
ghost use Rattle.mscp_drive.specs.Common.{option_copied, IsUnitList, NumbersRise, unit_found};

use crate::unit::Unit;
use arrayvec::ArrayVec;
use std::marker::Model;

/// The most units that a controller may have (profile).
const MOST_UNITS: usize = 16;

/// The units of a controller: 1 to 16, in rising order of their numbers (profile).
#[derive(Drop)]
pub struct Units {
    list: ArrayVec<Unit, 16>,
}

// A clause sees the list of the units.
impl Model for Units {
    ghost use Rattle.mscp_drive.specs.Common.{List, Shape, IsUnitList};

    ghost Value = { List Shape };

    ghost view = { λ u. u.list.items };

    ghost invariant = { λ u. IsUnitList u.list.items };
}

/// Why a list of units is refused: the first that holds, in this order (profile).
#[derive(Clone, Copy)]
pub enum UnitsFault {
    /// More than 16 units.
    TooMany,
    /// A unit whose number isn't above that of the unit before it.
    NotAscending,
    /// No unit.
    Empty,
}

impl Units {
    /// The units of a list. It isn't made part of its caller, in which each number of each unit would be moved by
    /// itself.
    ///
    /// # Errors
    ///
    /// `TooMany` over 16, else `NotAscending` if their numbers don't rise; `Empty` if there is none.
    #[inline(never)]
    pub fn new(units: &[Unit]) -> Result<Units, UnitsFault>
        ensures many { (result ≡ Err UnitsFault.TooMany) ↔ (16 < length units.now) }
        ensures ascending { (result ≡ Err UnitsFault.NotAscending)
            ↔ ((length units.now ≤ 16) × ¬ NumbersRise units.now) }
        ensures empty { (result ≡ Err UnitsFault.Empty) ↔ (units.now ≡ []) }
        ensures taken { (result ≡ Ok units.now) ↔ IsUnitList units.now }
        ensures same { IfOk result (λ list. list ≡ units.now) }
    {
        if let Some(fault) = Units::fault(units) {
            return Err(fault);
        }
        let mut list = ArrayVec::new();
        let _ = list.try_extend_from_slice(units);
        Ok(Units::of(list))
    }

    /// Why a list of units is refused, if it is.
    pub fn fault(units: &[Unit]) -> Option<UnitsFault>
        ensures many { (result ≡ Some UnitsFault.TooMany) ↔ (16 < length units.now) }
        ensures ascending { (result ≡ Some UnitsFault.NotAscending)
            ↔ ((length units.now ≤ 16) × ¬ NumbersRise units.now) }
        ensures empty { (result ≡ Some UnitsFault.Empty) ↔ (units.now ≡ []) }
        ensures none { (result ≡ None) ↔ IsUnitList units.now }
    {
        if units.len() > MOST_UNITS {
            return Some(UnitsFault::TooMany);
        }
        if !numbers_rise(units) {
            return Some(UnitsFault::NotAscending);
        }
        if units.is_empty() {
            return Some(UnitsFault::Empty);
        }
        None
    }

    /// The units of a list that isn't refused. It becomes theirs where it lies: no other is made.
    #[inline(always)]
    pub fn of(list: ArrayVec<Unit, 16>) -> Units
        requires { IsUnitList list.items }
        ensures { result ≡ list.items }
    {
        Units { list }
    }

    /// The units, in rising order of their numbers.
    pub fn list(&self) -> &[Unit]
        ensures value { result.now ≡ self.now }
        ensures valid { IsUnitList self.now }
    {
        self.list.as_slice()
    }

    /// The unit of this number, if there is one. Most stand at the place of their number, so that is looked at first.
    pub fn find(&self, number: u16) -> Option<&Unit>
        ensures { option_copied result ≡ unit_found self.now number }
    {
        let units = self.list();
        let likely = usize::from(number);
        if likely < units.len() && units[likely].number() == number {
            return Some(&units[likely]);
        }
        units.iter().find(|unit| unit.number() == number)
    }
}

// Whether the number of each unit is above that of the one before it.
fn numbers_rise(units: &[Unit]) -> bool
    ensures { IsTrue result ↔ NumbersRise units.now }
{
    for i in 1..units.len() {
        if units[i].number() <= units[i - 1].number() {
            return false;
        }
    }
    true
}
