// What can go wrong in a call of the program.

ghost use Rattle.std.specs.Prelude.{◌≡◌, ◌↔◌, ◌⊎◌};
ghost use Rattle.mscpjudge.specs.Said.{fault_of_reading, fault_of_log};
ghost use Rattle.mscpjudge.specs.declared.fault.Fault.TheVariants as faults;

use mscp_controller::OutOfMemory;
use mscp_reader::{ReadFault, ScriptFault};
use mscp_script::{Failed, ReadAllFault};
use std::alloc::AllocError;
use std::io::ErrorKind;

/// Why a log isn't judged.
#[derive(Clone, Copy)]
pub enum Fault {
    /// The words of the command line aren't those of a call.
    Usage,
    /// The bytes aren't a log: the first line at fault.
    Log(ScriptFault),
    /// The file can't be opened, or a read failed.
    Read,
    /// The write failed. Nothing is said of how much went out.
    Write,
    OutOfMemory,
}

impl From<ReadAllFault> for Fault {
    ghost from_gives = { λ fault e. e ≡ fault_of_reading fault };

    fn from(fault: ReadAllFault) -> Fault {
        match fault {
            ReadAllFault::Read => Fault::Read,
            ReadAllFault::OutOfMemory => Fault::OutOfMemory,
        }
    }
}

impl From<ReadFault> for Fault {
    ghost from_gives = { λ fault e. e ≡ fault_of_log fault };

    fn from(fault: ReadFault) -> Fault {
        match fault {
            ReadFault::Script(fault) => Fault::Log(fault),
            ReadFault::OutOfMemory => Fault::OutOfMemory,
        }
    }
}

/// A write that fails.
impl From<Failed> for Fault {
    ghost from_gives = { λ _ e. e ≡ faults.Write };

    fn from(_failure: Failed) -> Fault {
        Fault::Write
    }
}

impl From<OutOfMemory> for Fault {
    ghost from_gives = { λ _ e. e ≡ faults.OutOfMemory };

    fn from(_refusal: OutOfMemory) -> Fault {
        Fault::OutOfMemory
    }
}

impl From<AllocError> for Fault {
    ghost from_gives = { λ _ e. e ≡ faults.OutOfMemory };

    fn from(_refusal: AllocError) -> Fault {
        Fault::OutOfMemory
    }
}

/// Why the words of the command line aren't read. A word that is no text is a wrong word.
pub(crate) fn words_fault(kind: ErrorKind) -> Fault
    ensures memory { (result ≡ faults.OutOfMemory) ↔ (kind ≡ ErrorKind.OutOfMemory) }
    ensures usage { (result ≡ faults.OutOfMemory) ⊎ (result ≡ faults.Usage) }
{
    match kind {
        ErrorKind::OutOfMemory => Fault::OutOfMemory,
        _ => Fault::Usage,
    }
}
