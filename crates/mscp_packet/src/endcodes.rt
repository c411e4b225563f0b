//! The endcodes, by the manual's names of their opcodes (manual, "End Messages"): an endcode is its opcode with the top
//! bit set. An attention message has a code of its own (manual, "Attention Messages").

/// That bit. Alone it is the endcode of an opcode that isn't known (profile).
pub const UNKNOWN: u8 = 0x80;
/// ABORT
pub const ABORT: u8 = 0x81;
/// GET COMMAND STATUS
pub const GET_COMMAND_STATUS: u8 = 0x82;
/// GET UNIT STATUS
pub const GET_UNIT_STATUS: u8 = 0x83;
/// SET CONTROLLER CHARACTERISTICS
pub const SET_CONTROLLER_CHARACTERISTICS: u8 = 0x84;
/// AVAILABLE
pub const AVAILABLE: u8 = 0x88;
/// ONLINE
pub const ONLINE: u8 = 0x89;
/// SET UNIT CHARACTERISTICS
pub const SET_UNIT_CHARACTERISTICS: u8 = 0x8A;
/// DETERMINE ACCESS PATHS
pub const DETERMINE_ACCESS_PATHS: u8 = 0x8B;
/// ACCESS
pub const ACCESS: u8 = 0x90;
/// COMPARE CONTROLLER DATA
pub const COMPARE_CONTROLLER_DATA: u8 = 0x91;
/// ERASE
pub const ERASE: u8 = 0x92;
/// FLUSH
pub const FLUSH: u8 = 0x93;
/// COMPARE HOST DATA
pub const COMPARE_HOST_DATA: u8 = 0xA0;
/// READ
pub const READ: u8 = 0xA1;
/// WRITE
pub const WRITE: u8 = 0xA2;
/// AVAILABLE ATTENTION
pub const AVAILABLE_ATTENTION: u8 = 0x40;
