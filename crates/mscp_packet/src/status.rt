//! The statuses of ends, by their names (manual, "Status and Event Codes"). The low five bits of a status are its code,
//! and the rest its sub-code. The sub-code of an Invalid Command tells at which byte the field at fault stands: the
//! status's high byte. A bad block's status, which a drive hands in, has a code of 5 to 31.

ghost use Rattle.std.specs.Prelude.{◌≡◌, ◌<◌};
ghost use Rattle.mscp_packet.specs.Statuses as statuses;

use crate::codes;

/// Success.
pub const SUCCESS: u16 = 0x0000;

/// Success, and the unit was online already.
pub const ALREADY_ONLINE: u16 = 0x0100;

/// Invalid Command: the message is shorter than a command of its opcode may be.
pub const INVALID_LENGTH: u16 = 0x0001;

/// Invalid Command: the opcode, in byte 8, isn't known.
pub const INVALID_OPCODE: u16 = 0x0801;

/// Invalid Command: the MSCP version, or the byte count of a transfer, both in bytes 12 and 13, isn't right.
pub const INVALID_VERSION: u16 = 0x0C01;

/// Invalid Command: the logical block number, from byte 28 on, isn't one of the unit's.
pub const INVALID_BLOCK: u16 = 0x1C01;

/// Command Aborted.
pub const ABORTED: u16 = 0x0002;

/// Unit-Offline: the unit isn't configured.
pub const UNIT_OFFLINE: u16 = 0x0003;

/// Unit-Offline: no volume is in the unit, or its switch is off.
pub const NO_VOLUME: u16 = 0x0023;

/// Unit-Available: the unit isn't online.
pub const UNIT_AVAILABLE: u16 = 0x0004;

/// Write Protected: by the host.
pub const PROTECTED_BY_HOST: u16 = 0x1006;

/// Write Protected: by the hardware.
pub const PROTECTED: u16 = 0x2006;

/// Compare Error: the bytes that were compared differ.
pub const DIFFERENT: u16 = 0x0007;

/// Host Buffer Access Error: the address of the data is odd.
pub const ODD_ADDRESS: u16 = 0x0029;

/// Host Buffer Access Error: the count of the bytes is odd.
pub const ODD_COUNT: u16 = 0x0049;

/// Host Buffer Access Error: not all of the memory is there.
pub const MISSING: u16 = 0x0069;

/// Host Buffer Access Error: the memory has a parity error.
pub const PARITY: u16 = 0x0089;

/// Host Buffer Access Error: the bus maps no memory there.
pub const UNMAPPED: u16 = 0x00A9;

/// Drive Error.
pub const DRIVE_ERROR: u16 = 0x000B;

/// The code of a status (manual, "Status and Event Codes").
pub fn code_of(status: u16) -> u16
    ensures value { result ≡ statuses.code_of status }
    ensures low { result < 32 }
{
    status % 32
}

/// What the manual calls statuses of this code.
pub fn code_name(code: u16) -> &'static str
    ensures { result.now ≡ statuses.code_name code }
{
    match code {
        codes::SUCCESS => "Success",
        codes::INVALID_COMMAND => "Invalid Command",
        codes::ABORTED => "Command Aborted",
        codes::UNIT_OFFLINE => "Unit-Offline",
        codes::UNIT_AVAILABLE => "Unit-Available",
        codes::MEDIA_FORMAT_ERROR => "Media Format Error",
        codes::WRITE_PROTECTED => "Write Protected",
        codes::COMPARE_ERROR => "Compare Error",
        codes::DATA_ERROR => "Data Error",
        codes::HOST_BUFFER_ACCESS_ERROR => "Host Buffer Access Error",
        codes::CONTROLLER_ERROR => "Controller Error",
        codes::DRIVE_ERROR => "Drive Error",
        _ => "unknown status",
    }
}

/// Words for a status: the manual's name of its code, and what its sub-code says if it has words.
pub fn status_words(status: u16) -> &'static str
    ensures { result.now ≡ statuses.status_words status }
{
    match status {
        ALREADY_ONLINE => "Success: already online",
        INVALID_LENGTH => "Invalid Command: message length",
        INVALID_OPCODE => "Invalid Command: opcode",
        INVALID_VERSION => "Invalid Command: byte count, or MSCP version",
        INVALID_BLOCK => "Invalid Command: logical block number",
        UNIT_OFFLINE => "Unit-Offline: unknown unit",
        NO_VOLUME => "Unit-Offline: no volume",
        PROTECTED_BY_HOST => "Write Protected: by software",
        PROTECTED => "Write Protected: by hardware",
        ODD_ADDRESS => "Host Buffer Access Error: odd transfer address",
        ODD_COUNT => "Host Buffer Access Error: odd byte count",
        MISSING => "Host Buffer Access Error: non-existent memory",
        PARITY => "Host Buffer Access Error: memory parity error",
        UNMAPPED => "Host Buffer Access Error: invalid page table entry",
        _ => code_name(code_of(status)),
    }
}
