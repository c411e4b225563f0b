// How the program ends: its exit status, and the line on standard error.

ghost use Rattle.std.specs.Prelude.{◌≡◌, ◌+◌, ◌≤◌, ◌++◌};
ghost use Rattle.mscpjudge.specs.Common.{array_string_len, decimal, error_line, exit_status, fault_text};

use crate::fault::Fault;
use crate::judging::Outcome;
use arrayvec::ArrayString;
use itoa::Buffer;

/// How the program ends.
#[derive(Clone, Copy)]
pub struct Ending {
    /// The exit status: 0 of a log that is legal, or in which no host would have reset, 1 of one that
    /// isn't, or in which one would have, or that has a fault, 2 for the command line, and 3 for
    /// a device or memory.
    pub status: u8,
    /// The line on standard error, with its line feed. It is empty where the log was judged.
    pub line: ArrayString<56>,
}

impl Ending {
    /// The ending of a call that came out so.
    pub(crate) fn of(outcome: Result<Outcome, Fault>) -> Ending
        ensures status { result.status ≡ exit_status outcome }
        ensures line { result.line.bytes ≡ error_line outcome }
    {
        let mut line = ArrayString::new();
        let status = match outcome {
            Ok(Outcome::Legal) => return Ending { status: 0, line },
            Ok(Outcome::Wrong) => return Ending { status: 1, line },
            Err(Fault::Log(_)) => 1,
            Err(Fault::Usage) => 2,
            Err(Fault::Read | Fault::Write | Fault::OutOfMemory) => 3,
        };
        if let Err(fault) = &outcome {
            put_fault(&mut line, fault);
            line.push_str("\n");
        }
        Ending { status, line }
    }
}

/// Appends what is said of a fault.
fn put_fault(line: &mut ArrayString<56>, fault: &Fault)
    requires { array_string_len line.old ≡ 0 }
    ensures text { line.new.bytes ≡ line.old.bytes ++ fault_text fault.now }
    ensures short { array_string_len line.new ≤ 55 }
{
    match fault {
        Fault::Usage => line.push_str("usage: mscpjudge legal|host|wire [--all|--show] [FILE]"),
        Fault::Log(fault) => {
            line.push_str("line ");
            put_number(line, fault.line);
            line.push_str(": ");
            line.push_str(fault.cause.word());
        }
        Fault::Read => line.push_str("cannot read"),
        Fault::Write => line.push_str("cannot write"),
        Fault::OutOfMemory => line.push_str("out of memory"),
    }
}

/// Appends a number, of at most 10 digits.
fn put_number(line: &mut ArrayString<56>, number: u32)
    requires { array_string_len line.old ≤ 46 }
    ensures text { line.new.bytes ≡ line.old.bytes ++ decimal number }
    ensures short { array_string_len line.new ≤ array_string_len line.old + 10 }
{
    line.push_str(Buffer::new().format(number));
}
