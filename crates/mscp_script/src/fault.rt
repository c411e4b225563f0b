// What can go wrong in a call of the program.

ghost use Rattle.std.specs.Prelude.{◌≡◌, ◌⊎◌, ◌↔◌};
ghost use Rattle.mscp_script.specs.declared.fault.Fault.TheVariants as faults;

use crate::choosing::LineFault;
use crate::simulation::SimFault;
use crate::stream::Failed;
use mscp_text::ShowFault;
use std::alloc::AllocError;
use std::io::ErrorKind;

/// Why the program ends with another status than 0.
#[derive(Clone, Copy)]
pub enum Fault {
    /// The words of the command line aren't those of a call.
    Usage,
    /// The script was not run, or its report not written.
    Simulation(SimFault),
    /// The packet was not shown.
    Packet(ShowFault),
    /// The file of the script can't be opened.
    Open,
    /// The line of the packet was not written. Nothing is said of how much went out.
    Write,
    /// No memory was left for the words of the command line.
    OutOfMemory,
}

impl From<LineFault> for Fault {
    ghost from_gives = { λ _ e. e ≡ faults.Usage };

    fn from(_fault: LineFault) -> Fault {
        Fault::Usage
    }
}

impl From<SimFault> for Fault {
    ghost from_gives = { λ fault e. e ≡ faults.Simulation fault };

    fn from(fault: SimFault) -> Fault {
        Fault::Simulation(fault)
    }
}

impl From<ShowFault> for Fault {
    ghost from_gives = { λ fault e. e ≡ faults.Packet fault };

    fn from(fault: ShowFault) -> Fault {
        Fault::Packet(fault)
    }
}

/// A write that fails.
impl From<Failed> for Fault {
    ghost from_gives = { λ _ e. e ≡ faults.Write };

    fn from(_failure: Failed) -> Fault {
        Fault::Write
    }
}

impl From<AllocError> for Fault {
    ghost from_gives = { λ _ e. e ≡ faults.OutOfMemory };

    fn from(_refusal: AllocError) -> Fault {
        Fault::OutOfMemory
    }
}

/// What it is called where the words of the command line can't be had: only want of memory is no wrong word.
pub fn words_fault(kind: ErrorKind) -> Fault
    ensures memory { (result ≡ Fault.OutOfMemory) ↔ (kind ≡ ErrorKind.OutOfMemory) }
    ensures usage { (result ≡ Fault.OutOfMemory) ⊎ (result ≡ Fault.Usage) }
{
    match kind {
        ErrorKind::OutOfMemory => Fault::OutOfMemory,
        _ => Fault::Usage,
    }
}
