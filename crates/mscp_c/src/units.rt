// What a program in C gives for a controller.

ghost use Rattle.std.specs.Prelude.{◌≡◌, ◌≤◌, [], None, pos, length, map};
ghost use Rattle.mscp_c.specs.Given.{UnitAnswers, connection_given, first_fault, limits_told, policy_given, unit_given, unit_told, units_fault, units_told};
ghost use Rattle.mscp_drive.specs.UnitList.{IsUnitList};

use arrayvec::ArrayVec;
use mscp_controller::{Config, ConfigFault, Connection};
use mscp_drive::{Unit, UnitFault, Units, UnitsFault};
use mscp_memory::{Policy, RoomFault};

/// The limits of a controller.
#[repr(C)]
#[derive(Clone, Copy)]
pub struct Limits {
    pub id: u64,
    pub budget: u64,
    pub credits: u32,
    pub second: u32,
    pub longest: u32,
    pub timeout: u16,
}

/// The numbers of a unit.
#[repr(C)]
#[derive(Clone, Copy)]
pub struct UnitIn {
    pub id: u64,
    pub size: u32,
    pub media: u32,
    pub serial: u32,
    pub number: u16,
    pub track: u16,
    pub group: u16,
    pub cylinder: u16,
}

/// Why no controller is made: the first that holds, in this order.
#[derive(Clone, Copy)]
pub(crate) enum InitFault {
    /// The handle has no room.
    Room(RoomFault),
    /// No picker has this number.
    Picker,
    /// The units are refused together.
    Units(UnitsFault),
    /// This unit is refused, the first of them.
    Unit(UnitFault),
    /// The limits are refused.
    Limits(ConfigFault),
}

/// The policy of this number: 0 the oldest, 1 the sweep.
pub(crate) fn policy_of(number: u32) -> Option<Policy>
    ensures { result ≡ policy_given number }
{
    match number {
        0 => Some(Policy::Oldest),
        1 => Some(Policy::Sweep),
        _ => None,
    }
}

/// The connection of this number: 0 the first, 1 the second.
pub(crate) fn connection_of(number: u32) -> Option<Connection>
    ensures { result ≡ connection_given number }
{
    match number {
        0 => Some(Connection::First),
        1 => Some(Connection::Second),
        _ => None,
    }
}

/// The unit of these numbers, or why there is none.
fn unit_of(given: &UnitIn) -> Result<Unit, UnitFault>
    ensures { UnitAnswers given.now result }
{
    Unit::new(
        given.number,
        given.track,
        given.group,
        given.cylinder,
        given.size,
        given.id,
        given.media,
        given.serial,
    )
}

/// Puts the units of these numbers into a list that has none, up to the first that is refused.
#[inline(never)]
fn gather(list: &mut ArrayVec<Unit, 16>, given: &[UnitIn]) -> Option<UnitFault>
    requires empty { list.old.items ≡ [] }
    requires few { length given.now ≤ 16 }
    ensures fault { result ≡ first_fault given.now }
    ensures taken { first_fault given.now ≡ None → list.new.items ≡ map unit_given given.now }
{
    for i in 0..given.len() {
        match unit_of(&given[i]) {
            Ok(unit) => list.push(unit),
            Err(fault) => return Some(fault),
        }
    }
    None
}

/// Puts the units of these numbers into a list that has none, or says why there are none: too many, one of them is
/// refused, or all together.
pub(crate) fn read_units(list: &mut ArrayVec<Unit, 16>, given: &[UnitIn]) -> Option<InitFault>
    requires { list.old.items ≡ [] }
    ensures fault { result ≡ units_fault given.now }
    ensures list { units_fault given.now ≡ None → IsUnitList list.new.items }
    ensures taken { units_fault given.now ≡ None → list.new.items ≡ map unit_given given.now }
{
    if given.len() > 16 {
        return Some(InitFault::Units(UnitsFault::TooMany));
    }
    if let Some(fault) = gather(list, given) {
        return Some(InitFault::Unit(fault));
    }
    if let Some(fault) = Units::fault(list.as_slice()) {
        return Some(InitFault::Units(fault));
    }
    None
}

/// The numbers of a unit.
fn unit_told(unit: &Unit) -> UnitIn
    ensures { result ≡ unit_told unit.now }
{
    UnitIn {
        id: unit.id(),
        size: unit.size(),
        media: unit.media(),
        serial: unit.serial(),
        number: unit.number(),
        track: unit.track(),
        group: unit.group(),
        cylinder: unit.cylinder_size(),
    }
}

/// Tells as many of the units as there is room for.
fn tell_units(out: &mut [UnitIn], list: &[Unit])
    ensures { out.new ≡ units_told list.now out.old }
{
    let count = list.len().min(out.len());
    for i in 0..count {
        out[i] = unit_told(&list[i]);
    }
}

/// Tells the limits of a controller and its units: how many these are.
pub(crate) fn tell_settings(limits: &mut Limits, units: &mut [UnitIn], config: &Config) -> i32
    ensures limits { limits.new ≡ limits_told config.now }
    ensures told { units.new ≡ units_told config.now.units units.old }
    ensures count { result ≡ pos (length config.now.units) }
{
    *limits = Limits {
        id: config.id(),
        budget: u64::from(config.budget()),
        credits: config.credits(),
        second: config.second(),
        longest: config.longest(),
        timeout: config.timeout(),
    };
    let list = config.units().list();
    tell_units(units, list);
    list.len() as i32
}
