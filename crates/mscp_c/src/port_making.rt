// The calls before a port is there.

ghost use Rattle.std.specs.Prelude.{◌≡◌, None, IsSome, OnErr, OnOk};
ghost use Rattle.mscp_c.specs.Common.{port_init_answer, port_init_code, port_init_fault, MakesPort};
ghost use Rattle.mscp_memory.specs.PortHandles.{row_alignment, row_size};

use crate::making::{config_of, read_config};
use crate::port_given::{HardwareIn, PortInitFault, hardware_of};
use crate::status::port_init_code;
use crate::units::{InitFault, Limits, UnitIn, policy_of};
use arrayvec::ArrayVec;
use mscp_controller::Controller;
use mscp_memory::port::{ALIGN, Handle, SIZE, place, room_fault};
use mscp_port::Port;

/// How many bytes a port takes.
#[unsafe(no_mangle)]
pub extern "C" fn mscp_port_size() -> usize
    ensures { result ≡ row_size }
{
    SIZE
}

/// What the address of a port is a multiple of.
#[unsafe(no_mangle)]
pub extern "C" fn mscp_port_align() -> usize
    ensures { result ≡ row_alignment }
{
    ALIGN
}

/// Makes a port, with a controller, in the room that the handle has, or says why not, and then nothing changes.
fn init(
    handle: &mut Handle,
    limits: &Limits,
    units: &[UnitIn],
    picker: u32,
    hardware: &HardwareIn,
    credits: u32,
) -> Result<(), PortInitFault>
    ensures answer { result
        ≡ port_init_answer (port_init_fault handle.old limits.now units.now picker hardware.now credits) }
    ensures made { OnOk result (MakesPort limits.now units.now picker hardware.now credits handle.old handle.new) }
    ensures refused { OnErr result (handle.new ≡ handle.old) }
{
    if let Some(fault) = room_fault(handle) {
        return Err(PortInitFault::Controller(InitFault::Room(fault)));
    }
    let Some(policy) = policy_of(picker) else {
        return Err(PortInitFault::Controller(InitFault::Picker));
    };
    let mut list = ArrayVec::new();
    if let Some(fault) = read_config(&mut list, limits, units) {
        return Err(PortInitFault::Controller(fault));
    }
    let Some(hardware) = hardware_of(hardware) else {
        return Err(PortInitFault::Bus);
    };
    if credits > 63 {
        return Err(PortInitFault::Credits);
    }
    match Port::new(
        hardware,
        credits as u8,
        Controller::new(config_of(limits, list), policy),
    ) {
        Ok(port) => {
            place(handle, port);
            Ok(())
        }
        Err(_) => Err(PortInitFault::Credits),
    }
}

/// Makes a port of this hardware, whose host may have so many commands outstanding, over a controller of these limits
/// and units, in the room that the handle has.
#[unsafe(no_mangle)]
pub extern "C" fn mscp_port_init_at(
    handle: &mut Handle,
    limits: &Limits,
    units: &[UnitIn],
    picker: u32,
    hardware: &HardwareIn,
    credits: u32,
) -> i32
    ensures code { result ≡ port_init_code (port_init_answer
        (port_init_fault handle.old limits.now units.now picker hardware.now credits)) }
    ensures made { port_init_fault handle.old limits.now units.now picker hardware.now credits ≡ None
        → MakesPort limits.now units.now picker hardware.now credits handle.old handle.new }
    ensures refused { IsSome (port_init_fault handle.old limits.now units.now picker hardware.now credits)
        → handle.new ≡ handle.old }
{
    port_init_code(&init(handle, limits, units, picker, hardware, credits))
}
