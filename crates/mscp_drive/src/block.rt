// The outcome of one block.

ghost use Rattle.std.specs.Prelude.{◌≡◌, ◌↔◌, ◌≤◌, ◌%◌, IsSome, IfSome};

use std::marker::Model;

/// The status of a bad block: its code, the low five bits, is at least 5 (manual, "Status and Event
/// Codes"; the lower codes are Success, and those that a controller itself finds).
#[derive(Clone, Copy)]
pub struct FaultStatus {
    status: u16,
}

// A clause sees the status as a number.
impl Model for FaultStatus {
    ghost use Rattle.std.specs.Prelude.{◌%◌, ◌≤◌, ℕ};

    ghost Value = { ℕ };

    ghost view = { λ s. s.status };

    ghost invariant = { λ s. 5 ≤ s.status % 32 };

    ghost inverse = { λ n. record { status = n } };
}

impl FaultStatus {
    /// The status of a bad block, if its code is at least 5.
    pub fn new(status: u16) -> Option<FaultStatus>
        ensures some { IsSome result ↔ (5 ≤ status % 32) }
        ensures value { IfSome result (λ s. s ≡ status) }
    {
        if status % 32 < 5 {
            return None;
        }
        Some(FaultStatus { status })
    }

    /// The status as a number, whose code is at least 5.
    pub fn get(self) -> u16
        ensures value { result ≡ self }
        ensures code { 5 ≤ result % 32 }
    {
        self.status
    }
}

/// How one block was served.
#[derive(Clone, Copy)]
pub enum Block {
    /// The block was read or written, or the command needs none.
    Good,
    /// The command that it was served for ends with this status.
    Bad(FaultStatus),
}
