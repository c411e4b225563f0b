// A controller from bytes.

ghost use Rattle.std.specs.Prelude.{◌≡◌, ◌+◌, ◌≤◌, [], None, All, IfNone, IfOk, length};
ghost use Rattle.mscp_saved.specs.Common.{IsWaitable, units_of, IsSound, made_of, IsValid, begun_in, held_in, settings_in, IsSaved, first_of, form_fault, form_unless, parts_fault, restored, settings_fault, unless, saved_bytes};

use crate::checking::parts_fault;
use crate::fault::RestoreFault;
use crate::framing::{frame_fault, read_all_drives, read_all_waiting, read_first, read_second};
use crate::reading::begun_in;
use crate::writing::save_parts;
use arrayvec::ArrayVec;
use mscp_controller::{Config, Controller, Drive, Picker, Record};
use mscp_drive::{Unit, Units};
use mscp_packet::End;
use mscp_packet::fields::{eight_at, four_at, two_at};

/// Puts the units of drives into a list that has none.
fn put_units(units: &mut ArrayVec<Unit, 16>, drives: &[Drive])
    requires few { length drives.now ≤ 16 }
    requires none { units.old.items ≡ [] }
    ensures { units.new.items ≡ units_of drives.now }
{
    for drive in drives {
        units.push(drive.unit);
    }
}

/// Why no controller has the settings that the head tells, with these units: the first fault, if there is one.
fn settings_fault(b: &[u8], units: &[Unit]) -> Option<RestoreFault>
    requires { 48 ≤ length b.now }
    ensures { result ≡ settings_fault (record (settings_in b.now []) { units = units.now }) }
{
    if Units::fault(units).is_some() {
        return Some(RestoreFault::Units);
    }
    let (credits, second) = (four_at(b, 12), four_at(b, 16));
    let (budget, longest) = (u64::from(four_at(b, 20)), four_at(b, 24));
    if Config::fault(credits, second, budget, longest, two_at(b, 28)).is_some() {
        return Some(RestoreFault::Limits);
    }
    None
}

/// The settings that the head tells, and the units of a list, which become theirs where they lie.
#[inline(always)]
fn config_of(b: &[u8], units: ArrayVec<Unit, 16>) -> Config
    requires long { 48 ≤ length b.now }
    requires none { settings_fault (record (settings_in b.now []) { units = units.items }) ≡ None }
    ensures { result ≡ record (settings_in b.now []) { units = units.items } }
{
    let (credits, second) = (four_at(b, 12), four_at(b, 16));
    let (budget, longest) = (u64::from(four_at(b, 20)), four_at(b, 24));
    let (timeout, id) = (two_at(b, 28), eight_at(b, 32));
    Config::of(
        credits,
        second,
        budget,
        longest,
        timeout,
        id,
        Units::of(units),
    )
}

/// Why these bytes aren't those that were saved, with a picker of this number: the first fault, if there is one.
fn form_fault(number: u8, b: &[u8], saved: &[u8]) -> Option<RestoreFault>
    requires { 48 ≤ length b.now }
    ensures { result ≡ form_unless number b.now saved.now }
{
    if b[30] != number {
        return Some(RestoreFault::Picker);
    }
    if saved != b {
        return Some(RestoreFault::Form);
    }
    None
}

/// Why a controller with these settings can't hold these drives, waiting commands and ends, or isn't saved as these
/// bytes, with a picker of this number: the first fault, if there is one.
fn parts_or_form_fault(
    number: u8,
    b: &[u8],
    config: &Config,
    drives: &[Drive],
    waiting: &[Record],
    first: &[End],
    second: &[End],
) -> Option<RestoreFault>
    requires long { 48 ≤ length b.now }
    requires drives { length drives.now ≤ 16 }
    requires parts { length waiting.now + length first.now + length second.now ≤ 64 }
    ensures fault { result
        ≡ first_of (parts_fault config.now drives.now waiting.now first.now second.now (begun_in b.now))
        (form_fault number b.now (made_of config.now waiting.now first.now second.now drives.now (begun_in b.now)
        (tt {0}))) }
    ensures valid { IsValid config.now }
    ensures waitable { IfNone result
        (All (λ r. IsWaitable config.now.longest config.now.units r.command) waiting.now) }
{
    let begun = begun_in(b);
    if let Some(fault) = parts_fault(config, drives, waiting, first, second, begun) {
        return Some(fault);
    }
    let mut saved = ArrayVec::new();
    save_parts(
        &mut saved, config, drives, waiting, first, second, begun, number,
    );
    form_fault(number, b, saved.as_slice())
}

/// Why these bytes are no saved controller, with a picker of this number: the first fault, if there is one.
#[inline(never)]
pub fn restore_fault<K: Picker>(bytes: &[u8], number: u8, picker: &K) -> Option<RestoreFault>
    ensures value { restored number picker.now bytes.now ≡ unless (held_in picker.now bytes.now) result }
    ensures saved { IfNone result (IsSaved picker.now bytes.now) }
{
    if let Some(fault) = frame_fault(bytes) {
        return Some(fault);
    }
    let mut drives = ArrayVec::new();
    read_all_drives(&mut drives, bytes);
    let mut units = ArrayVec::new();
    put_units(&mut units, drives.as_slice());
    if let Some(fault) = settings_fault(bytes, units.as_slice()) {
        return Some(fault);
    }
    let mut waiting = ArrayVec::new();
    read_all_waiting(&mut waiting, bytes);
    let mut ends = ArrayVec::new();
    read_first(&mut ends, bytes);
    read_second(&mut ends, bytes);
    let first = usize::from(bytes[41]);
    parts_or_form_fault(
        number,
        bytes,
        &config_of(bytes, units),
        drives.as_slice(),
        waiting.as_slice(),
        &ends.as_slice()[..first],
        &ends.as_slice()[first..],
    )
}

/// The settings that a saved controller has.
#[inline(never)]
pub fn saved_settings<K: Picker>(bytes: &[u8], picker: &K) -> Config
    requires { IsSaved picker.now bytes.now }
    ensures { result ≡ (held_in picker.now bytes.now).settings }
{
    let mut drives = ArrayVec::new();
    read_all_drives(&mut drives, bytes);
    let mut units = ArrayVec::new();
    put_units(&mut units, drives.as_slice());
    config_of(bytes, units)
}

/// Lets a controller that has the settings of a saved one be that one.
#[inline(never)]
pub fn resume<K: Picker>(controller: &mut Controller<K>, bytes: &[u8])
    requires saved { IsSaved controller.old.picker bytes.now }
    requires settings { controller.old.settings ≡ (held_in controller.old.picker bytes.now).settings }
    ensures { controller.new ≡ held_in controller.old.picker bytes.now }
{
    let mut waiting = ArrayVec::new();
    read_all_waiting(&mut waiting, bytes);
    let mut first = ArrayVec::new();
    read_first(&mut first, bytes);
    let mut second = ArrayVec::new();
    read_second(&mut second, bytes);
    let mut drives = ArrayVec::new();
    read_all_drives(&mut drives, bytes);
    controller.restore(waiting.as_slice(), first, second, drives, begun_in(bytes));
}

/// The controller that was saved as these bytes, with this picker, whose number has to be that which it was saved with.
/// So whatever bytes come: what is restored keeps each promise of a controller, and is saved as these bytes. What
/// history it has only who saved it knows.
///
/// Where the stack is small: `restore_fault` says why not, `resume` makes of a new controller with the `saved_settings`
/// the one that was saved, and neither has room for a controller of its own.
///
/// # Errors
///
/// The first fault, in the order of `RestoreFault`, if they are no saved controller.
pub fn restore<K: Picker + Drop>(
    bytes: &[u8],
    number: u8,
    picker: K,
) -> Result<Controller<K>, RestoreFault>
    ensures value { result ≡ restored number picker bytes.now }
    ensures sound { IfOk result (λ h. IsSound h) }
    ensures same { IfOk result (λ h. saved_bytes number h ≡ bytes.now) }
{
    if let Some(fault) = restore_fault(bytes, number, &picker) {
        return Err(fault);
    }
    let config = saved_settings(bytes, &picker);
    let mut controller = Controller::new(config, picker);
    resume(&mut controller, bytes);
    Ok(controller)
}
