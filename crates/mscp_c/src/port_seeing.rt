// What a port is. These calls change nothing.
#![tactic(auto, using(crate::proofs::Lent::lent_back))]

ghost use Rattle.std.specs.Prelude.{◌≡◌, true, false};
ghost use Rattle.mscp_c.specs.PortHandleCalls as calls;
ghost use Rattle.mscp_c.specs.PortHandleCalls.{AnswersHandle};
ghost use Rattle.mscp_memory.specs.PortHandles.{is_made};

use crate::outs::{FigureOut, HolderOut, StateOut, UpcomingOut, VolumeOut};
use crate::port_given::{HardwareIn, tell_hardware};
use crate::status::{BAD_CONNECTION, DONE, NOT_MADE};
use crate::telling::{flag, tell_figures, tell_holders, tell_upcoming, tell_volume};
use crate::units::{Limits, UnitIn, connection_of, tell_settings};
use mscp_memory::port::{Handle, is_made, lend};

/// What kind of port it is.
#[unsafe(no_mangle)]
pub extern "C" fn mscp_port_hardware(handle: &mut Handle, out: &mut HardwareIn) -> i32
    ensures call { is_made handle.old ≡ true
        → AnswersHandle handle.old (calls.Hardware out.old result out.new) handle.new }
    ensures same { handle.new ≡ handle.old }
    ensures unmade { is_made handle.old ≡ false → (result ≡ NOT_MADE) × (out.new ≡ out.old) }
{
    if !is_made(handle) {
        return NOT_MADE;
    }
    *out = tell_hardware(lend(handle).hardware());
    DONE
}

/// How far the port has come.
#[unsafe(no_mangle)]
pub extern "C" fn mscp_port_state(handle: &mut Handle, out: &mut StateOut) -> i32
    ensures call { is_made handle.old ≡ true
        → AnswersHandle handle.old (calls.State out.old result out.new) handle.new }
    ensures same { handle.new ≡ handle.old }
    ensures unmade { is_made handle.old ≡ false → (result ≡ NOT_MADE) × (out.new ≡ out.old) }
{
    if !is_made(handle) {
        return NOT_MADE;
    }
    let port = lend(handle);
    *out = StateOut {
        word: port.stage().word(),
        stage: port.stage().number(),
        is_held_back: flag(port.is_held_back()),
    };
    DONE
}

/// The limits of the port's controller, and its units, as many as there is room for: how many there are.
#[unsafe(no_mangle)]
pub extern "C" fn mscp_port_settings_at(
    handle: &mut Handle,
    limits: &mut Limits,
    units: &mut [UnitIn],
) -> i32
    ensures call { is_made handle.old ≡ true
        → AnswersHandle handle.old (calls.Configured limits.old units.old result limits.new units.new) handle.new }
    ensures same { handle.new ≡ handle.old }
    ensures unmade { is_made handle.old ≡ false
        → (result ≡ NOT_MADE) × (limits.new ≡ limits.old) × (units.new ≡ units.old) }
{
    if !is_made(handle) {
        return NOT_MADE;
    }
    tell_settings(limits, units, lend(handle).controller().config())
}

/// The volume of a unit.
#[unsafe(no_mangle)]
pub extern "C" fn mscp_port_volume(handle: &mut Handle, unit: u16, out: &mut VolumeOut) -> i32
    ensures call { is_made handle.old ≡ true
        → AnswersHandle handle.old (calls.Volume unit out.old result out.new) handle.new }
    ensures same { handle.new ≡ handle.old }
    ensures unmade { is_made handle.old ≡ false → (result ≡ NOT_MADE) × (out.new ≡ out.old) }
{
    if !is_made(handle) {
        return NOT_MADE;
    }
    let volume = lend(handle).volume(unit);
    tell_volume(out, &volume)
}

/// The step that the port's controller has begun: that of the block which the port wants moved.
#[unsafe(no_mangle)]
pub extern "C" fn mscp_port_begun(handle: &mut Handle, out: &mut UpcomingOut) -> i32
    ensures call { is_made handle.old ≡ true
        → AnswersHandle handle.old (calls.Begun out.old result out.new) handle.new }
    ensures same { handle.new ≡ handle.old }
    ensures unmade { is_made handle.old ≡ false → (result ≡ NOT_MADE) × (out.new ≡ out.old) }
{
    if !is_made(handle) {
        return NOT_MADE;
    }
    let port = lend(handle);
    let upcoming = port.controller().upcoming();
    tell_upcoming(out, &upcoming, port.serial().unwrap_or(0))
}

/// The figures of the commands that wait, oldest first, as many as there is room for: how many wait.
#[unsafe(no_mangle)]
pub extern "C" fn mscp_port_look_at(handle: &mut Handle, out: &mut [FigureOut]) -> i32
    ensures call { is_made handle.old ≡ true → AnswersHandle handle.old (calls.Look out.old result out.new) handle.new }
    ensures same { handle.new ≡ handle.old }
    ensures unmade { is_made handle.old ≡ false → (result ≡ NOT_MADE) × (out.new ≡ out.old) }
{
    if !is_made(handle) {
        return NOT_MADE;
    }
    let list = lend(handle).controller().look();
    tell_figures(out, list.as_slice());
    list.len() as i32
}

/// Who keeps the waiting command of the connection back, oldest first, as many as there is room for: how many do.
#[unsafe(no_mangle)]
pub extern "C" fn mscp_port_why_at(
    handle: &mut Handle,
    connection: u32,
    reference: u32,
    out: &mut [HolderOut],
) -> i32
    ensures call { is_made handle.old ≡ true
        → AnswersHandle handle.old (calls.Why connection reference out.old result out.new) handle.new }
    ensures same { handle.new ≡ handle.old }
    ensures unmade { is_made handle.old ≡ false → (result ≡ NOT_MADE) × (out.new ≡ out.old) }
{
    if !is_made(handle) {
        return NOT_MADE;
    }
    let Some(connection) = connection_of(connection) else {
        return BAD_CONNECTION;
    };
    let list = lend(handle).controller().holders(connection, reference);
    tell_holders(out, list.as_slice());
    list.len() as i32
}
