// The calls that change nothing.
#![tactic(auto, using(crate::proofs::Lent::lent_back))]

ghost use Rattle.std.specs.Prelude.{◌≡◌, true, false};
ghost use Rattle.mscp_c.specs.Common.{AnswersHandle};
ghost use Rattle.mscp_memory.specs.ControllerHandles.{is_made};
ghost use Rattle.mscp_c.specs.HandleCalls as calls;

use crate::outs::{FigureOut, HolderOut};
use crate::status::{BAD_CONNECTION, NOT_MADE};
use crate::telling::{flag, tell_figures, tell_holders};
use crate::units::{Limits, UnitIn, connection_of, tell_settings};
use mscp_memory::controller::{Handle, is_made, lend};

/// The figures of the waiting commands, oldest first, as many as there is room for: how many wait.
#[unsafe(no_mangle)]
pub extern "C" fn mscp_look_at(handle: &mut Handle, out: &mut [FigureOut]) -> i32
    ensures same { handle.new ≡ handle.old }
    ensures call { is_made handle.old ≡ true → AnswersHandle handle.old (calls.Look out.old result out.new) handle.new }
    ensures unmade { is_made handle.old ≡ false → (result ≡ NOT_MADE) × (out.new ≡ out.old) }
{
    if !is_made(handle) {
        return NOT_MADE;
    }
    let list = lend(handle).look();
    tell_figures(out, list.as_slice());
    list.len() as i32
}

/// The limits of the controller, and its units, as many as there is room for: how many there are.
#[unsafe(no_mangle)]
pub extern "C" fn mscp_settings_at(
    handle: &mut Handle,
    limits: &mut Limits,
    units: &mut [UnitIn],
) -> i32
    ensures same { handle.new ≡ handle.old }
    ensures call { is_made handle.old ≡ true → AnswersHandle handle.old
        (calls.Configured limits.old units.old result limits.new units.new) handle.new }
    ensures unmade { is_made handle.old ≡ false
        → (result ≡ NOT_MADE) × (limits.new ≡ limits.old) × (units.new ≡ units.old) }
{
    if !is_made(handle) {
        return NOT_MADE;
    }
    tell_settings(limits, units, lend(handle).config())
}

/// The figure of a waiting command of the connection, 0 where none waits of that reference number.
#[unsafe(no_mangle)]
pub extern "C" fn mscp_figure(handle: &mut Handle, connection: u32, reference: u32) -> i64
    ensures same { handle.new ≡ handle.old }
    ensures call { is_made handle.old ≡ true
        → AnswersHandle handle.old (calls.Figure connection reference result) handle.new }
    ensures unmade { is_made handle.old ≡ false → result ≡ NOT_MADE }
{
    if !is_made(handle) {
        return i64::from(NOT_MADE);
    }
    let Some(connection) = connection_of(connection) else {
        return i64::from(BAD_CONNECTION);
    };
    i64::from(lend(handle).figure(connection, reference))
}

/// Who keeps the waiting command of the connection back, oldest first, as many as there is room for: how many do.
#[unsafe(no_mangle)]
pub extern "C" fn mscp_why_at(
    handle: &mut Handle,
    connection: u32,
    reference: u32,
    out: &mut [HolderOut],
) -> i32
    ensures same { handle.new ≡ handle.old }
    ensures call { is_made handle.old ≡ true
        → AnswersHandle handle.old (calls.Why connection reference out.old result out.new) handle.new }
    ensures unmade { is_made handle.old ≡ false → (result ≡ NOT_MADE) × (out.new ≡ out.old) }
{
    if !is_made(handle) {
        return NOT_MADE;
    }
    let Some(connection) = connection_of(connection) else {
        return BAD_CONNECTION;
    };
    let list = lend(handle).holders(connection, reference);
    tell_holders(out, list.as_slice());
    list.len() as i32
}

/// How many commands of the connection wait.
#[unsafe(no_mangle)]
pub extern "C" fn mscp_waiting(handle: &mut Handle, connection: u32) -> i64
    ensures same { handle.new ≡ handle.old }
    ensures call { is_made handle.old ≡ true → AnswersHandle handle.old (calls.Waiting connection result) handle.new }
    ensures unmade { is_made handle.old ≡ false → result ≡ NOT_MADE }
{
    if !is_made(handle) {
        return i64::from(NOT_MADE);
    }
    let Some(connection) = connection_of(connection) else {
        return i64::from(BAD_CONNECTION);
    };
    i64::from(lend(handle).waiting(connection))
}

/// How many ends of the connection weren't taken.
#[unsafe(no_mangle)]
pub extern "C" fn mscp_untaken(handle: &mut Handle, connection: u32) -> i64
    ensures same { handle.new ≡ handle.old }
    ensures call { is_made handle.old ≡ true → AnswersHandle handle.old (calls.Untaken connection result) handle.new }
    ensures unmade { is_made handle.old ≡ false → result ≡ NOT_MADE }
{
    if !is_made(handle) {
        return i64::from(NOT_MADE);
    }
    let Some(connection) = connection_of(connection) else {
        return i64::from(BAD_CONNECTION);
    };
    i64::from(lend(handle).untaken(connection))
}

/// Whether the unit of this number is online: not where it isn't configured.
#[unsafe(no_mangle)]
pub extern "C" fn mscp_is_online(handle: &mut Handle, unit: u16) -> i32
    ensures same { handle.new ≡ handle.old }
    ensures call { is_made handle.old ≡ true → AnswersHandle handle.old (calls.Online unit result) handle.new }
    ensures unmade { is_made handle.old ≡ false → result ≡ NOT_MADE }
{
    if !is_made(handle) {
        return NOT_MADE;
    }
    i32::from(flag(lend(handle).is_online(unit)))
}

/// How many credits of the connection are free.
#[unsafe(no_mangle)]
pub extern "C" fn mscp_balance(handle: &mut Handle, connection: u32) -> i64
    ensures same { handle.new ≡ handle.old }
    ensures call { is_made handle.old ≡ true → AnswersHandle handle.old (calls.Balance connection result) handle.new }
    ensures unmade { is_made handle.old ≡ false → result ≡ NOT_MADE }
{
    if !is_made(handle) {
        return i64::from(NOT_MADE);
    }
    let Some(connection) = connection_of(connection) else {
        return i64::from(BAD_CONNECTION);
    };
    i64::from(lend(handle).balance(connection))
}
