// What a program in C gives for a port, and hardware as it was given.

ghost use Rattle.std.specs.Prelude.{◌≡◌};
ghost use Rattle.mscp_c.specs.PortSeen.{bus_told, hardware_told};
ghost use Rattle.mscp_c.specs.PortGiven.{bus_given, fault_given, hardware_given, medium_given, outcome_given};

use crate::units::InitFault;
use mscp_controller::FaultStatus;
use mscp_port::{Bus, Hardware, Medium, Outcome};

/// What kind of port it is.
#[repr(C)]
#[derive(Clone, Copy)]
pub struct HardwareIn {
    pub bus: u8,
    pub model: u8,
    pub software: u8,
    pub version: u8,
}

/// What is put into a unit. A flag holds where it isn't 0.
#[repr(C)]
#[derive(Clone, Copy)]
pub struct MediumIn {
    pub size: u32,
    pub media: u32,
    pub is_protected: u8,
    pub is_removable: u8,
}

/// Why no port is made: the first that holds, in this order.
#[derive(Clone, Copy)]
pub(crate) enum PortInitFault {
    /// There is no such controller, or no room.
    Controller(InitFault),
    /// No bus has this number.
    Bus,
    /// So many commands of a host are refused.
    Credits,
}

/// The bus of this number: 0 the Q-bus, 1 the Unibus.
fn bus_of(number: u8) -> Option<Bus>
    ensures { result ≡ bus_given number }
{
    match number {
        0 => Some(Bus::Q),
        1 => Some(Bus::Uni),
        _ => None,
    }
}

/// The number of this bus.
fn bus_number(bus: Bus) -> u8
    ensures { result ≡ bus_told bus }
{
    match bus {
        Bus::Q => 0,
        Bus::Uni => 1,
    }
}

/// The numbers of this hardware.
pub(crate) fn tell_hardware(hardware: Hardware) -> HardwareIn
    ensures { result ≡ hardware_told hardware }
{
    HardwareIn {
        bus: bus_number(hardware.bus),
        model: hardware.model,
        software: hardware.software,
        version: hardware.version,
    }
}

/// The hardware of these numbers, where its bus is one.
pub(crate) fn hardware_of(given: &HardwareIn) -> Option<Hardware>
    ensures { result ≡ hardware_given given.now }
{
    Some(Hardware {
        bus: bus_of(given.bus)?,
        model: given.model,
        software: given.software,
        version: given.version,
    })
}

/// What is put into a unit, by these numbers.
pub(crate) fn medium_of(given: &MediumIn) -> Medium
    ensures { result ≡ medium_given given.now }
{
    Medium {
        size: given.size,
        media: given.media,
        is_protected: given.is_protected != 0,
        is_removable: given.is_removable != 0,
    }
}

/// A block that couldn't be moved, where this is the status of one.
fn failed(status: u16) -> Option<Outcome>
    ensures { result ≡ fault_given status }
{
    FaultStatus::new(status).map(Outcome::Failed)
}

/// How an action went, by this number, and by this status where its block couldn't be moved.
pub(crate) fn outcome_of(number: u32, status: u16) -> Option<Outcome>
    ensures { result ≡ outcome_given number status }
{
    match number {
        0 => Some(Outcome::Done),
        1 => Some(Outcome::Missing),
        2 => Some(Outcome::Parity),
        3 => Some(Outcome::Unmapped),
        4 => Some(Outcome::Different),
        5 => failed(status),
        _ => None,
    }
}
