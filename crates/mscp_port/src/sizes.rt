// Sizes that a task has.

ghost use Rattle.std.specs.Prelude.{◌≡◌, ◌≤◌, ◌<◌, ◌+◌, ◌%◌};
ghost use Rattle.mscp_port.specs.Sizes.{clear_size, text_size};

use std::marker::Model;

/// How many bytes of a command's text are read, at most.
pub(crate) const LONGEST_TEXT: u32 = 64;

/// How many bytes the text of a command has: 12 to 64.
#[derive(Clone, Copy)]
pub(crate) struct TextSize {
    bytes: u32,
}

// A clause sees the number.
impl Model for TextSize {
    ghost use Rattle.std.specs.Prelude.{ℕ, ◌≤◌};

    ghost Value = { ℕ };

    ghost view = { λ s. s.bytes };

    ghost invariant = { λ s. (12 ≤ s.bytes) × (s.bytes ≤ 64) };

    ghost inverse = { λ n. record { bytes = n } };
}

impl TextSize {
    /// The size of so many bytes, if a text has it.
    pub fn of(bytes: u32) -> Option<TextSize>
        ensures { result ≡ text_size bytes }
    {
        if 12 <= bytes && bytes <= LONGEST_TEXT {
            Some(TextSize { bytes })
        } else {
            None
        }
    }

    /// How many bytes there are.
    pub fn get(self) -> u32
        ensures value { result ≡ self }
        ensures some { 12 ≤ result }
        ensures few { result ≤ 64 }
    {
        self.bytes
    }
}

/// The bytes that one action clears, at most.
pub(crate) const CLEARED: u32 = 64;

/// How many bytes of a communication area are clear while others are to be cleared: whole parts of 64, and fewer than
/// the 1,032 that the longest area has.
#[derive(Clone, Copy)]
pub(crate) struct ClearSize {
    bytes: u32,
}

// A clause sees the number.
impl Model for ClearSize {
    ghost use Rattle.std.specs.Prelude.{◌≡◌, ℕ, ◌%◌, ◌<◌};

    ghost Value = { ℕ };

    ghost view = { λ s. s.bytes };

    ghost invariant = { λ s. (s.bytes % 64 ≡ 0) × (s.bytes < 1032) };

    ghost inverse = { λ n. record { bytes = n } };
}

impl ClearSize {
    /// None is clear.
    pub fn none() -> ClearSize
        ensures { result ≡ 0 }
    {
        ClearSize { bytes: 0 }
    }

    /// So many are clear, if they are parts of an area.
    pub fn of(bytes: u32) -> Option<ClearSize>
        ensures { result ≡ clear_size bytes }
    {
        if bytes % CLEARED == 0 && bytes < 1032 {
            Some(ClearSize { bytes })
        } else {
            None
        }
    }

    /// One part more is clear.
    pub fn next(self) -> ClearSize
        requires { self + 64 < 1032 }
        ensures { result ≡ self + 64 }
    {
        ClearSize {
            bytes: self.bytes + CLEARED,
        }
    }

    /// How many bytes there are.
    pub fn get(self) -> u32
        ensures value { result ≡ self }
        ensures whole { result % 64 ≡ 0 }
        ensures few { result < 1032 }
    {
        self.bytes
    }
}
