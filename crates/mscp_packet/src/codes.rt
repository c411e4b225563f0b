//! The codes of statuses, by the manual's names (manual, "Status and Event Codes").

/// Success
pub const SUCCESS: u16 = 0;
/// Invalid Command
pub const INVALID_COMMAND: u16 = 1;
/// Command Aborted
pub const ABORTED: u16 = 2;

/// Unit-Offline
pub const UNIT_OFFLINE: u16 = 3;

/// Unit-Available
pub const UNIT_AVAILABLE: u16 = 4;
/// Media Format Error
pub const MEDIA_FORMAT_ERROR: u16 = 5;
/// Write Protected
pub const WRITE_PROTECTED: u16 = 6;
/// Compare Error
pub const COMPARE_ERROR: u16 = 7;
/// Data Error
pub const DATA_ERROR: u16 = 8;
/// Host Buffer Access Error
pub const HOST_BUFFER_ACCESS_ERROR: u16 = 9;
/// Controller Error
pub const CONTROLLER_ERROR: u16 = 10;
/// Drive Error
pub const DRIVE_ERROR: u16 = 11;
