//! The opcodes, by the manual's names (manual, "Command Messages").

/// ABORT
pub const ABORT: u8 = 1;
/// GET COMMAND STATUS
pub const GET_COMMAND_STATUS: u8 = 2;
/// GET UNIT STATUS
pub const GET_UNIT_STATUS: u8 = 3;
/// SET CONTROLLER CHARACTERISTICS
pub const SET_CONTROLLER_CHARACTERISTICS: u8 = 4;
/// AVAILABLE
pub const AVAILABLE: u8 = 8;
/// ONLINE
pub const ONLINE: u8 = 9;
/// SET UNIT CHARACTERISTICS
pub const SET_UNIT_CHARACTERISTICS: u8 = 10;
/// DETERMINE ACCESS PATHS
pub const DETERMINE_ACCESS_PATHS: u8 = 11;
/// ACCESS
pub const ACCESS: u8 = 16;
/// COMPARE CONTROLLER DATA
pub const COMPARE_CONTROLLER_DATA: u8 = 17;
/// ERASE
pub const ERASE: u8 = 18;
/// FLUSH
pub const FLUSH: u8 = 19;
/// REPLACE
pub const REPLACE: u8 = 20;
/// FORMAT
pub const FORMAT: u8 = 24;
/// COMPARE HOST DATA
pub const COMPARE_HOST_DATA: u8 = 32;
/// READ
pub const READ: u8 = 33;
/// WRITE
pub const WRITE: u8 = 34;

/// FORMAT, as SIMH's disk numbers it.
pub const FORMAT_OF_SIMH: u8 = 47;
