// What a host keeps of a command that it sent.

ghost use Rattle.std.specs.Prelude.{◌≡◌};
ghost use Rattle.mscp_host.specs.Accounts.{submission_of};

use mscp_packet::Command;

/// A command whose end wasn't received. It is a submission, and not a number: a number that is used again is another.
#[derive(Clone, Copy)]
pub struct Submission {
    /// Its reference number.
    pub reference: u32,
    /// The unit that it names.
    pub unit: u16,
    /// Its opcode byte.
    pub opcode: u8,
    /// The figure that the last answer about it told, if there was one.
    pub told: Option<u32>,
}

impl Submission {
    /// The submission of a command, of which nothing was told yet.
    pub fn of(command: &Command) -> Submission
        ensures { result ≡ submission_of command.now }
    {
        Submission {
            reference: command.reference,
            unit: command.unit,
            opcode: command.opcode(),
            told: None,
        }
    }
}

/// A submission of nothing, which fills the places of a list that isn't full.
impl Default for Submission {
    ghost use Rattle.std.specs.Prelude.{None};

    fn default() -> Submission
        ensures { result ≡ record { reference = 0; unit = 0; opcode = 0; told = None } }
    {
        Submission {
            reference: 0,
            unit: 0,
            opcode: 0,
            told: None,
        }
    }
}
