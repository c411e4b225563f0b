// The calls before a controller is there.

ghost use Rattle.std.specs.Prelude.{◌≡◌, true, false, [], None, map};
ghost use Rattle.mscp_c.specs.Common.{fresh, init_answer, init_fault, made_unless};
ghost use Rattle.mscp_c.specs.Made.{config_fault};
ghost use Rattle.mscp_c.specs.Given.{settings_given, unit_given};
ghost use Rattle.mscp_drive.specs.Settings.{limit_fault};
ghost use Rattle.mscp_drive.specs.UnitList.{IsUnitList};
ghost use Rattle.mscp_memory.specs.ControllerHandles.{is_made, row_alignment, row_size, with_held};
ghost use Rattle.mscp_c.specs.Made.{inits};

use crate::status::{DONE, NOT_MADE, init_code};
use crate::units::{InitFault, Limits, UnitIn, policy_of, read_units};
use arrayvec::ArrayVec;
use mscp_controller::{Config, Controller};
use mscp_drive::{Unit, Units};
use mscp_memory::controller::{ALIGN, Handle, SIZE, is_made, lend, place, room_fault};

/// The version of the library, 2.0.0: a byte for each of the three numbers.
#[unsafe(no_mangle)]
pub extern "C" fn mscp_version() -> u32
    ensures { result ≡ 0x0002_0000 }
{
    0x0002_0000
}

/// How many bytes a controller takes.
#[unsafe(no_mangle)]
pub extern "C" fn mscp_size() -> usize
    ensures { result ≡ row_size }
{
    SIZE
}

/// What the address of a controller is a multiple of.
#[unsafe(no_mangle)]
pub extern "C" fn mscp_align() -> usize
    ensures { result ≡ row_alignment }
{
    ALIGN
}

/// Puts these units into a list that has none, or says why there is no configuration of them and these limits.
pub(crate) fn read_config(
    list: &mut ArrayVec<Unit, 16>,
    limits: &Limits,
    units: &[UnitIn],
) -> Option<InitFault>
    requires { list.old.items ≡ [] }
    ensures fault { result ≡ config_fault limits.now units.now }
    ensures list { config_fault limits.now units.now ≡ None → IsUnitList list.new.items }
    ensures taken { config_fault limits.now units.now ≡ None → list.new.items ≡ map unit_given units.now }
    ensures limits { config_fault limits.now units.now ≡ None → limit_fault (settings_given limits.now []) ≡ None }
{
    if let Some(fault) = read_units(list, units) {
        return Some(fault);
    }
    match Config::fault(
        limits.credits,
        limits.second,
        limits.budget,
        limits.longest,
        limits.timeout,
    ) {
        Some(fault) => Some(InitFault::Limits(fault)),
        None => None,
    }
}

/// The configuration of these limits and of the units of a list, which become its own where they lie.
#[inline(always)]
pub(crate) fn config_of(limits: &Limits, list: ArrayVec<Unit, 16>) -> Config
    requires list { IsUnitList list.items }
    requires limits { limit_fault (settings_given limits.now []) ≡ None }
    ensures { result ≡ record (settings_given limits.now []) { units = list.items } }
{
    Config::of(
        limits.credits,
        limits.second,
        limits.budget,
        limits.longest,
        limits.timeout,
        limits.id,
        Units::of(list),
    )
}

/// Makes a controller in the room that the handle has, or says why not, and then nothing changes.
fn init(
    handle: &mut Handle,
    limits: &Limits,
    units: &[UnitIn],
    picker: u32,
) -> Result<(), InitFault>
    ensures answer { result ≡ init_answer (init_fault handle.old limits.now units.now picker) }
    ensures after { handle.new ≡ made_unless (init_fault handle.old limits.now units.now picker)
        handle.old limits.now units.now picker }
{
    if let Some(fault) = room_fault(handle) {
        return Err(InitFault::Room(fault));
    }
    let Some(policy) = policy_of(picker) else {
        return Err(InitFault::Picker);
    };
    let mut list = ArrayVec::new();
    if let Some(fault) = read_config(&mut list, limits, units) {
        return Err(fault);
    }
    place(handle, Controller::new(config_of(limits, list), policy));
    Ok(())
}

/// Makes a controller of these limits and units in the room that the handle has.
#[unsafe(no_mangle)]
pub extern "C" fn mscp_init_at(
    handle: &mut Handle,
    limits: &Limits,
    units: &[UnitIn],
    picker: u32,
) -> i32
    ensures { (result, handle.new) ≡ inits handle.old limits.now units.now picker }
{
    init_code(&init(handle, limits, units, picker))
}

/// Makes the controller as new: nothing waits, and the ends that weren't taken are gone.
#[unsafe(no_mangle)]
pub extern "C" fn mscp_reset(handle: &mut Handle) -> i32
    ensures after { is_made handle.old ≡ true
        → handle.new ≡ with_held handle.old (fresh handle.old.held.settings handle.old.held.picker) }
    ensures done { is_made handle.old ≡ true → result ≡ DONE }
    ensures unmade { is_made handle.old ≡ false → (result ≡ NOT_MADE) × (handle.new ≡ handle.old) }
{
    if !is_made(handle) {
        return NOT_MADE;
    }
    lend(handle).reset();
    DONE
}
