// How the program ends: its exit status, and the line on standard error.

ghost use Rattle.std.specs.Prelude.{◌≡◌, ◌+◌, ◌≤◌, ◌++◌, length};
ghost use Rattle.mscp_script.specs.Common.{array_string_len, decimal, error_line, exit_status, fault_status, fault_text, show_text};

use crate::fault::Fault;
use crate::simulation::SimFault;
use arrayvec::ArrayString;
use itoa::Buffer;
use mscp_text::ShowFault;

/// How the program ends.
#[derive(Clone, Copy)]
pub struct Ending {
    /// The exit status: 0 where all was done, 1 for a script or a packet at fault, 2 for the command line, and 3 for a
    /// device or memory.
    pub status: u8,
    /// The line on standard error, with its line feed. It is empty where all was done.
    pub line: ArrayString<40>,
}

impl Ending {
    /// The ending of a call that came out so.
    pub fn of(outcome: Result<(), Fault>) -> Ending
        ensures status { result.status ≡ exit_status outcome }
        ensures line { result.line.bytes ≡ error_line outcome }
    {
        let mut line = ArrayString::new();
        match outcome {
            Ok(()) => Ending { status: 0, line },
            Err(fault) => {
                put_fault(&mut line, &fault);
                line.push_str("\n");
                Ending {
                    status: fault_status(&fault),
                    line,
                }
            }
        }
    }
}

/// The exit status of a fault.
fn fault_status(fault: &Fault) -> u8
    ensures { result ≡ fault_status fault.now }
{
    match fault {
        Fault::Simulation(SimFault::Read | SimFault::Write | SimFault::OutOfMemory)
        | Fault::Packet(ShowFault::OutOfMemory)
        | Fault::Open
        | Fault::Write
        | Fault::OutOfMemory => 3,
        Fault::Usage => 2,
        Fault::Simulation(SimFault::Script(_)) | Fault::Packet(_) => 1,
    }
}

/// What is said of a packet's fault.
fn show_text(fault: ShowFault) -> &'static str
    ensures value { result.now ≡ show_text fault }
    ensures short { length result.now ≤ 39 }
{
    match fault {
        ShowFault::Hex => "packet: hex",
        ShowFault::Short => "packet: short",
        ShowFault::Long => "packet: long",
        ShowFault::Code => "packet: code",
        ShowFault::Length => "packet: length",
        ShowFault::OutOfMemory => "out of memory",
    }
}

/// Appends what is said of a fault.
fn put_fault(line: &mut ArrayString<40>, fault: &Fault)
    requires { array_string_len line.old ≡ 0 }
    ensures text { line.new.bytes ≡ line.old.bytes ++ fault_text fault.now }
    ensures short { array_string_len line.new ≤ 39 }
{
    match fault {
        Fault::Usage => line.push_str("usage: mscpq [run FILE | packet HEX]"),
        Fault::Simulation(SimFault::Script(fault)) => {
            line.push_str("line ");
            put_number(line, fault.line);
            line.push_str(": ");
            line.push_str(fault.cause.word());
        }
        Fault::Packet(fault) => line.push_str(show_text(*fault)),
        Fault::Simulation(SimFault::Read) | Fault::Open => line.push_str("cannot read"),
        Fault::Simulation(SimFault::Write) | Fault::Write => line.push_str("cannot write"),
        Fault::Simulation(SimFault::OutOfMemory) | Fault::OutOfMemory => {
            line.push_str("out of memory")
        }
    }
}

/// Appends a number, of at most 10 digits.
fn put_number(line: &mut ArrayString<40>, number: u32)
    requires { array_string_len line.old ≤ 30 }
    ensures text { line.new.bytes ≡ line.old.bytes ++ decimal number }
    ensures short { array_string_len line.new ≤ array_string_len line.old + 10 }
{
    line.push_str(Buffer::new().format(number));
}
