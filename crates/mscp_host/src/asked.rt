// What was asked of a port, and hasn't ended.

ghost use Rattle.std.specs.Prelude.{◌≡◌, find, option_copied};
ghost use Rattle.mscp_host.specs.Common.{position};
ghost use Rattle.mscp_host.specs.PortAccounts.{asked_of, bytes_of, is_of, without_by};

use arrayvec::ArrayVec;
use mscp_packet::{Command, Order};

/// A command whose end wasn't heard. It lies in memory as C has it.
#[repr(C)]
#[derive(Clone, Copy)]
pub struct Asked {
    /// Its reference number.
    pub reference: u32,
    /// The unit that it names.
    pub unit: u16,
    /// Its opcode byte.
    pub opcode: u8,
    /// How many bytes it asks to be moved.
    pub bytes: u32,
}

/// What fills the places of a list that isn't full.
impl Default for Asked {
    fn default() -> Asked
        ensures { result ≡ record { reference = 0; unit = 0; opcode = 0; bytes = 0 } }
    {
        Asked {
            reference: 0,
            unit: 0,
            opcode: 0,
            bytes: 0,
        }
    }
}

/// How many bytes an order asks for.
fn bytes_of(order: &Order) -> u32
    ensures { result ≡ bytes_of order.now }
{
    match order {
        Order::Move(_, count, _) => *count,
        _ => 0,
    }
}

impl Asked {
    /// What a command asks.
    pub fn of(command: &Command) -> Asked
        ensures { result ≡ asked_of command.now }
    {
        Asked {
            reference: command.reference,
            unit: command.unit,
            opcode: command.opcode(),
            bytes: bytes_of(&command.order),
        }
    }
}

/// The command of this reference number, if there is one.
pub(crate) fn find_asked(asked: &[Asked], reference: u32) -> Option<&Asked>
    ensures { option_copied result ≡ find (is_of reference) asked.now }
{
    asked.iter().find(|asked| asked.reference == reference)
}

/// The place of the command of this reference number, if there is one.
fn place_of(asked: &[Asked], reference: u32) -> Option<usize>
    ensures { result ≡ position (is_of reference) asked.now }
{
    asked.iter().position(|asked| asked.reference == reference)
}

/// Removes the command of this reference number, if there is one.
pub(crate) fn remove_asked(asked: &mut ArrayVec<Asked, 64>, reference: u32)
    ensures { asked.new.items ≡ without_by (is_of reference) asked.old.items }
{
    if let Some(place) = place_of(asked.as_slice(), reference) {
        asked.remove(place);
    }
}
