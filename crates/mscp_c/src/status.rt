// What the calls answer: 0 and up what came of a call, below 0 why it was refused.
//
// A contract fixes the number of each, so that a program which was compiled once stays right. Each fault of an init
// has a number of its own, and the first in a fixed order is answered.

ghost use Rattle.std.specs.Prelude.{◌≡◌, ◌≢◌};
ghost use Rattle.mscp_c.specs.Common.{hear_code, host_code, limits_code, room_code, send_fault_code, unit_code, units_code, init_code, cause_code, show_code, port_init_code, told_code, volume_code, put_code};

use crate::port_given::PortInitFault;
use crate::units::InitFault;
use mscp_controller::{ConfigFault, SendFault};
use mscp_drive::{UnitFault, UnitsFault};
use mscp_host::{HearFault, HostFault};
use mscp_memory::RoomFault;
use mscp_port::{NoUnit, Unasked, VolumeFault};
use mscp_script::{Cause, ShowFault};

/// There is nothing: no command waits, no end was made, no poll is to be sent.
pub(crate) const NOTHING: i32 = 0;
/// The call did what it says.
pub(crate) const DONE: i32 = 1;
/// The command waits for steps.
pub(crate) const QUEUED: i32 = 2;
/// The command's end was made at once.
pub(crate) const ANSWERED: i32 = 3;
/// The end of a poll is still to come.
pub(crate) const BUSY: i32 = 4;
/// A command ended, or a poll was refused.
pub(crate) const ENDED: i32 = 5;
/// The polled command's first figure.
pub(crate) const FIRST: i32 = 6;
/// The polled command's figure, which has fallen.
pub(crate) const PROGRESS: i32 = 7;
/// The polled command has ended in the meantime.
pub(crate) const LATE: i32 = 8;
/// The polled command's figure hasn't fallen.
pub(crate) const NO_PROGRESS: i32 = 9;
/// The controller doesn't know the polled command.
pub(crate) const LOST: i32 = 10;

/// The end tells more bytes than were asked for.
pub(crate) const MOVED_TOO_MUCH: i32 = 11;
/// The end of a poll tells no figure.
pub(crate) const REFUSED: i32 = 12;
/// A unit became available.
pub(crate) const NOW_AVAILABLE: i32 = 13;
/// Another attention message.
pub(crate) const ATTENTION: i32 = 14;
/// An error log.
pub(crate) const LOGGED: i32 = 15;
/// Credits, and nothing else.
pub(crate) const CREDITS: i32 = 16;
/// The oldest command is to be polled.
pub(crate) const POLL: i32 = 17;
/// An answer is owed for over a timeout.
pub(crate) const SILENT: i32 = 18;

pub(crate) const SHORT: i32 = -1;

pub(crate) const LONG: i32 = -2;

pub(crate) const NO_CREDIT: i32 = -3;

pub(crate) const LAST_CREDIT: i32 = -4;

pub(crate) const DOUBLED: i32 = -5;
/// No command of that connection and reference number is begun.
pub(crate) const NOT_BEGUN: i32 = -6;
/// Neither 0 nor the status of a bad block.
pub(crate) const BAD_STATUS: i32 = -7;
/// The bytes are no end.
pub(crate) const UNREADABLE: i32 = -8;
/// It is the end of no outstanding command.
pub(crate) const UNKNOWN: i32 = -9;

/// The handle's memory holds nothing that was made.
pub(crate) const NOT_MADE: i32 = -10;

pub(crate) const MADE: i32 = -11;

pub(crate) const NO_HANDLE: i32 = -12;

pub(crate) const NO_MEMORY: i32 = -13;

pub(crate) const MISALIGNED: i32 = -14;

pub(crate) const SMALL: i32 = -15;

/// The envelope tells more bytes than there are.
pub(crate) const CUT: i32 = -16;
/// A message of another connection than the disks'.
pub(crate) const OTHER_CONNECTION: i32 = -17;
/// A message of no known type.
pub(crate) const BAD_KIND: i32 = -18;

/// No picker has this number.
pub(crate) const BAD_PICKER: i32 = -20;

pub(crate) const ZERO_TRACK: i32 = -21;

pub(crate) const ZERO_GROUP: i32 = -22;

pub(crate) const ZERO_CYLINDER: i32 = -23;

pub(crate) const ZERO_SIZE: i32 = -24;

pub(crate) const MANY_UNITS: i32 = -25;

pub(crate) const UNITS_FALL: i32 = -26;

pub(crate) const NO_UNITS: i32 = -27;

pub(crate) const BAD_CREDITS: i32 = -28;

pub(crate) const BAD_LONGEST: i32 = -29;

pub(crate) const BAD_TIMEOUT: i32 = -30;

pub(crate) const BAD_BOUND: i32 = -31;

/// No connection has this number.
pub(crate) const BAD_CONNECTION: i32 = -32;

/// No bus has this number.
pub(crate) const BAD_BUS: i32 = -33;
/// A port's host may have no commands outstanding, or as many as its controller has credits.
pub(crate) const BAD_HOST_CREDITS: i32 = -34;
/// Nothing goes so.
pub(crate) const BAD_OUTCOME: i32 = -35;
/// The port didn't want what was told.
pub(crate) const UNASKED: i32 = -36;
/// No unit has this number.
pub(crate) const UNKNOWN_UNIT: i32 = -37;

pub(crate) const BAD_SIZE: i32 = -38;

/// Bytes that are no saved controller, no saved host, and no saved port.
pub(crate) const SAVED_LENGTH: i32 = -40;

pub(crate) const SAVED_MAGIC: i32 = -41;

pub(crate) const SAVED_VERSION: i32 = -42;

pub(crate) const SAVED_LIMITS: i32 = -44;

pub(crate) const SAVED_UNITS: i32 = -43;

pub(crate) const SAVED_HEADS: i32 = -45;

pub(crate) const SAVED_CREDITS: i32 = -46;

pub(crate) const SAVED_COMMAND: i32 = -47;

pub(crate) const SAVED_DOUBLED: i32 = -48;

pub(crate) const SAVED_STEPS: i32 = -49;

pub(crate) const SAVED_PASSED: i32 = -50;

pub(crate) const SAVED_ENDS: i32 = -51;

pub(crate) const SAVED_BEGUN: i32 = -52;

pub(crate) const SAVED_PICKER: i32 = -53;

pub(crate) const SAVED_FORM: i32 = -54;
/// A poll in flight about nobody.
pub(crate) const SAVED_POLL: i32 = -55;
/// What a port has in hand has a size that nothing in hand has.
pub(crate) const SAVED_SIZE: i32 = -56;

/// What is wrong in a line of a script.
pub(crate) const SCRIPT_SIZE: i32 = -60;

pub(crate) const SCRIPT_LINES: i32 = -61;

pub(crate) const SCRIPT_LONG: i32 = -62;

pub(crate) const SCRIPT_BYTE: i32 = -63;

pub(crate) const SCRIPT_WORD: i32 = -64;

pub(crate) const SCRIPT_COUNT: i32 = -65;

pub(crate) const SCRIPT_NUMBER: i32 = -66;

pub(crate) const SCRIPT_HEX: i32 = -67;

pub(crate) const SCRIPT_STATUS: i32 = -68;

pub(crate) const SCRIPT_UNIT: i32 = -69;

pub(crate) const SCRIPT_CONFIG: i32 = -70;

pub(crate) const SCRIPT_HEADER: i32 = -71;

pub(crate) const SCRIPT_EVENTS: i32 = -72;

/// A word that is no packet.
pub(crate) const WORD_HEX: i32 = -73;

pub(crate) const WORD_SHORT: i32 = -74;

pub(crate) const WORD_LONG: i32 = -75;

pub(crate) const WORD_CODE: i32 = -76;

pub(crate) const WORD_LENGTH: i32 = -77;

/// The status of memory that is no room.
pub(crate) fn room_code(fault: RoomFault) -> i32
    ensures { result ≡ room_code fault }
{
    match fault {
        RoomFault::Made => MADE,
        RoomFault::NoHandle => NO_HANDLE,
        RoomFault::Null => NO_MEMORY,
        RoomFault::Misaligned => MISALIGNED,
        RoomFault::Small => SMALL,
    }
}

/// The status of a unit that is refused.
pub(crate) fn unit_code(fault: UnitFault) -> i32
    ensures { result ≡ unit_code fault }
{
    match fault {
        UnitFault::ZeroTrack => ZERO_TRACK,
        UnitFault::ZeroGroup => ZERO_GROUP,
        UnitFault::ZeroCylinder => ZERO_CYLINDER,
        UnitFault::ZeroSize => ZERO_SIZE,
    }
}

/// The status of units that are refused together.
pub(crate) fn units_code(fault: UnitsFault) -> i32
    ensures { result ≡ units_code fault }
{
    match fault {
        UnitsFault::TooMany => MANY_UNITS,
        UnitsFault::NotAscending => UNITS_FALL,
        UnitsFault::Empty => NO_UNITS,
    }
}

/// The status of limits that are refused.
pub(crate) fn limits_code(fault: ConfigFault) -> i32
    ensures { result ≡ limits_code fault }
{
    match fault {
        ConfigFault::Credits => BAD_CREDITS,
        ConfigFault::Longest => BAD_LONGEST,
        ConfigFault::Timeout => BAD_TIMEOUT,
        ConfigFault::Figure => BAD_BOUND,
    }
}

/// The status of a message that is refused.
pub(crate) fn send_fault_code(fault: SendFault) -> i32
    ensures { result ≡ send_fault_code fault }
{
    match fault {
        SendFault::Short => SHORT,
        SendFault::Long => LONG,
        SendFault::NoCredit => NO_CREDIT,
        SendFault::LastCredit => LAST_CREDIT,
        SendFault::Doubled => DOUBLED,
    }
}

/// The status of an init.
pub(crate) fn init_code(answer: &Result<(), InitFault>) -> i32
    ensures { result ≡ init_code answer.now }
{
    match *answer {
        Ok(()) => DONE,
        Err(InitFault::Room(fault)) => room_code(fault),
        Err(InitFault::Picker) => BAD_PICKER,
        Err(InitFault::Units(fault)) => units_code(fault),
        Err(InitFault::Unit(fault)) => unit_code(fault),
        Err(InitFault::Limits(fault)) => limits_code(fault),
    }
}

/// The status of an init of a port.
pub(crate) fn port_init_code(answer: &Result<(), PortInitFault>) -> i32
    ensures { result ≡ port_init_code answer.now }
{
    match *answer {
        Ok(()) => DONE,
        Err(PortInitFault::Controller(fault)) => init_code(&Err(fault)),
        Err(PortInitFault::Bus) => BAD_BUS,
        Err(PortInitFault::Credits) => BAD_HOST_CREDITS,
    }
}

/// The status of what a host refuses.
pub(crate) fn host_code(fault: HostFault) -> i32
    ensures { result ≡ host_code fault }
{
    match fault {
        HostFault::Credits => BAD_CREDITS,
        HostFault::NoCredit => NO_CREDIT,
        HostFault::LastCredit => LAST_CREDIT,
        HostFault::Doubled => DOUBLED,
        HostFault::Unreadable => UNREADABLE,
        HostFault::Unknown => UNKNOWN,
    }
}

/// The status of what a host of a port refuses.
pub(crate) fn hear_code(fault: HearFault) -> i32
    ensures { result ≡ hear_code fault }
{
    match fault {
        HearFault::Cut => CUT,
        HearFault::Connection => OTHER_CONNECTION,
        HearFault::Kind => BAD_KIND,
        HearFault::Unreadable => UNREADABLE,
        HearFault::Unknown => UNKNOWN,
    }
}

/// The status of what was told of a port's action.
pub(crate) fn told_code(answer: Result<(), Unasked>) -> i32
    ensures { result ≡ told_code answer }
{
    if answer.is_ok() { DONE } else { UNASKED }
}

/// The status of a volume that came or went.
pub(crate) fn volume_code(answer: Result<(), NoUnit>) -> i32
    ensures { result ≡ volume_code answer }
{
    if answer.is_ok() { DONE } else { UNKNOWN_UNIT }
}

/// The status of a volume that came.
pub(crate) fn put_code(answer: Result<(), VolumeFault>) -> i32
    ensures { result ≡ put_code answer }
{
    match answer {
        Ok(()) => DONE,
        Err(VolumeFault::NoUnit) => UNKNOWN_UNIT,
        Err(VolumeFault::Size) => BAD_SIZE,
    }
}

/// The status of what is wrong in a line of a script.
pub(crate) fn cause_code(cause: Cause) -> i32
    ensures value { result ≡ cause_code cause }
    ensures below { result ≢ DONE }
    ensures told { result ≢ SMALL }
{
    match cause {
        Cause::Size => SCRIPT_SIZE,
        Cause::Lines => SCRIPT_LINES,
        Cause::Long => SCRIPT_LONG,
        Cause::Byte => SCRIPT_BYTE,
        Cause::Word => SCRIPT_WORD,
        Cause::Count => SCRIPT_COUNT,
        Cause::Number => SCRIPT_NUMBER,
        Cause::Hex => SCRIPT_HEX,
        Cause::Status => SCRIPT_STATUS,
        Cause::Unit => SCRIPT_UNIT,
        Cause::Config => SCRIPT_CONFIG,
        Cause::Header => SCRIPT_HEADER,
        Cause::Events => SCRIPT_EVENTS,
    }
}

/// The status of a packet that isn't shown.
pub(crate) fn show_code(fault: ShowFault) -> i32
    ensures value { result ≡ show_code fault }
    ensures below { result ≢ DONE }
{
    match fault {
        ShowFault::Hex => WORD_HEX,
        ShowFault::Short => WORD_SHORT,
        ShowFault::Long => WORD_LONG,
        ShowFault::Code => WORD_CODE,
        ShowFault::Length => WORD_LENGTH,
        ShowFault::OutOfMemory => SMALL,
    }
}
