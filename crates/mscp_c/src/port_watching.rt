// What comes to a port from elsewhere than its host: volumes, and time.

ghost use Rattle.std.specs.Prelude.{◌≡◌, true, false};
ghost use Rattle.mscp_c.specs.PortHandleCalls as calls;
ghost use Rattle.mscp_c.specs.PortHandleCalls.{AnswersHandle};
ghost use Rattle.mscp_memory.specs.PortHandles.{is_made};

use crate::port_given::{MediumIn, medium_of};
use crate::status::{DONE, NOT_MADE, put_code, volume_code};
use mscp_memory::port::{Handle, is_made, lend};

/// The host may have given slots of its ring of ends back, of which nothing tells.
#[unsafe(no_mangle)]
pub extern "C" fn mscp_port_look_again(handle: &mut Handle) -> i32
    ensures call { is_made handle.old ≡ true → AnswersHandle handle.old (calls.LookAgain result) handle.new }
    ensures unmade { is_made handle.old ≡ false → (result ≡ NOT_MADE) × (handle.new ≡ handle.old) }
{
    if !is_made(handle) {
        return NOT_MADE;
    }
    lend(handle).look_again();
    DONE
}

/// A second went by.
#[unsafe(no_mangle)]
pub extern "C" fn mscp_port_tick(handle: &mut Handle) -> i32
    ensures call { is_made handle.old ≡ true → AnswersHandle handle.old (calls.Tick result) handle.new }
    ensures unmade { is_made handle.old ≡ false → (result ≡ NOT_MADE) × (handle.new ≡ handle.old) }
{
    if !is_made(handle) {
        return NOT_MADE;
    }
    lend(handle).tick();
    DONE
}

/// A volume came into a unit.
#[unsafe(no_mangle)]
pub extern "C" fn mscp_port_volume_came(handle: &mut Handle, unit: u16, medium: &MediumIn) -> i32
    ensures call { is_made handle.old ≡ true
        → AnswersHandle handle.old (calls.VolumeCame unit medium.now result) handle.new }
    ensures unmade { is_made handle.old ≡ false → (result ≡ NOT_MADE) × (handle.new ≡ handle.old) }
{
    if !is_made(handle) {
        return NOT_MADE;
    }
    put_code(lend(handle).volume_came(unit, medium_of(medium)))
}

/// The volume of a unit went.
#[unsafe(no_mangle)]
pub extern "C" fn mscp_port_volume_went(handle: &mut Handle, unit: u16) -> i32
    ensures call { is_made handle.old ≡ true → AnswersHandle handle.old (calls.VolumeWent unit result) handle.new }
    ensures unmade { is_made handle.old ≡ false → (result ≡ NOT_MADE) × (handle.new ≡ handle.old) }
{
    if !is_made(handle) {
        return NOT_MADE;
    }
    volume_code(lend(handle).volume_went(unit))
}

/// Nothing may be written on the volume of a unit from now on, or something may again where the flag is 0.
#[unsafe(no_mangle)]
pub extern "C" fn mscp_port_protect(handle: &mut Handle, unit: u16, is_protected: u32) -> i32
    ensures call { is_made handle.old ≡ true
        → AnswersHandle handle.old (calls.Protect unit is_protected result) handle.new }
    ensures unmade { is_made handle.old ≡ false → (result ≡ NOT_MADE) × (handle.new ≡ handle.old) }
{
    if !is_made(handle) {
        return NOT_MADE;
    }
    volume_code(lend(handle).protect(unit, is_protected != 0))
}
