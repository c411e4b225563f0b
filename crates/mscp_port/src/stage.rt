// How far a port has come.

ghost use Rattle.std.specs.Prelude.{◌≡◌};
ghost use Rattle.mscp_port.specs.Codes.{stage_byte, stage_word};

/// How far a port has come since its host wrote register IP.
#[derive(Clone, Copy, PartialEq, Eq)]
pub enum Stage {
    /// The first step of the initialisation: the host is to write its first word, with the lengths of the rings and the
    /// vector.
    First,
    /// Whatever the host writes to SA is shown there again.
    Wrapped(u16),
    /// The host is to write the low half of the base.
    Second,
    /// The host is to write the high half of the base.
    Third,
    /// The host is to write 0 to SA, as if it purged an adapter.
    Purging,
    /// The host is to read IP.
    Probing,
    /// The communication area is cleared.
    Clearing,
    /// The last step: the host is to say go.
    Last,
    /// The rings are in use.
    Up,
    /// A fatal error, by its code.
    Dead(u16),
}

impl Stage {
    /// Its number, from 0 for the first to 9 for a fatal error.
    pub fn number(self) -> u8
        ensures { result ≡ stage_byte self }
    {
        match self {
            Stage::First => 0,
            Stage::Wrapped(_) => 1,
            Stage::Second => 2,
            Stage::Third => 3,
            Stage::Purging => 4,
            Stage::Probing => 5,
            Stage::Clearing => 6,
            Stage::Last => 7,
            Stage::Up => 8,
            Stage::Dead(_) => 9,
        }
    }

    /// The word that is shown again, or the code of the fatal error; 0 in any other stage.
    pub fn word(self) -> u16
        ensures { result ≡ stage_word self }
    {
        match self {
            Stage::Wrapped(word) => word,
            Stage::Dead(code) => code,
            _ => 0,
        }
    }
}
