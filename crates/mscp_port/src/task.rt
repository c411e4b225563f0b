// What a port has in hand.

ghost use Rattle.std.specs.Prelude.{◌≡◌, ◌≤◌, ℕ, Bool};
ghost use Rattle.mscp_port.specs.declared.slot.Descriptor.{Descriptor as Slot};
ghost use Rattle.mscp_port.specs.declared.task.Task.TheVariants as tasks;

use crate::rings::Side;
use crate::sizes::{ClearSize, TextSize};
use crate::slot::Descriptor;
use crate::verdict::Verdict;

/// What the port has in hand: the next action, with what is known for it. Of a step of a command that is what the
/// controller doesn't know: which step is begun, its block and its command are read there.
#[derive(Clone, Copy)]
pub(crate) enum Task {
    /// Nothing.
    Free,
    /// A step of the initialisation is taken, once the machine went on a little.
    Settle,
    /// The communication area is cleared, behind so many bytes that are clear.
    Clear(ClearSize),
    /// The next slot of a ring is read.
    Slot(Side),
    /// The header of a command's packet is read.
    Header(Descriptor),
    /// The text of a command is read, which has so many bytes. A foreign one is for another connection than the disk's.
    Text {
        slot: Descriptor,
        length: TextSize,
        is_foreign: bool,
    },
    /// The packet of what goes out is written.
    Packet(Descriptor),
    /// The next slot of a ring is given back.
    Return(Side, Descriptor),
    /// The slot in front of the one that was given back is read.
    Neighbour(Side),
    /// The interrupt word of a ring is written.
    Word(Side),
    /// The host is interrupted.
    Interrupt,
    /// A step of a command that moves no block, and went so, is taken once the machine went on a little.
    Step(Verdict),
    /// A block is moved.
    Transfer,
}

impl Task {
    /// How many bytes the text has that is read, if one is: at most 64.
    pub fn text_size(self) -> u32
        ensures value { (slot : Slot) (size : ℕ) (foreign : Bool) → self ≡ tasks.Text slot size foreign
            → result ≡ size }
        ensures few { result ≤ 64 }
    {
        match self {
            Task::Text { length, .. } => length.get(),
            _ => 0,
        }
    }

    /// Behind how many bytes the area is cleared, if it is.
    pub fn clear_size(self) -> ClearSize
        ensures { (done : ℕ) → self ≡ tasks.Clear done → result ≡ done }
    {
        match self {
            Task::Clear(done) => done,
            _ => ClearSize::none(),
        }
    }
}
