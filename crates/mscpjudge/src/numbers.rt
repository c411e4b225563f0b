// The numbers that lines of a log have among all lines, where the log is that of a port. Where none are told, each line
// has its own.

ghost use Rattle.std.specs.Prelude.{◌≡◌};
ghost use Rattle.mscpjudge.specs.Numbers as told;

use mscp_reader::{Cause, MOST_LINES, ScriptFault};

/// The number of a line.
#[tactic(auto, unfolding(crate::specs::Numbers::number_by))]
pub(crate) fn number_of(numbers: &[u32], line: u32) -> u32
    ensures { result ≡ told.number_by numbers.now line }
{
    if numbers.is_empty() {
        return line;
    }
    let place = line.saturating_sub(1) as usize;
    if place < numbers.len() {
        numbers[place]
    } else {
        0
    }
}

/// The cause of a fault in the line of this number: there may be too many.
fn cause_at(number: u32, cause: Cause) -> Cause
    ensures { result ≡ told.cause_at number cause }
{
    if number > MOST_LINES {
        Cause::Lines
    } else {
        cause
    }
}

/// A fault, by the number of its line.
pub(crate) fn fault_of(numbers: &[u32], fault: ScriptFault) -> ScriptFault
    ensures { result ≡ told.fault_by (told.number_by numbers.now) fault }
{
    let line = number_of(numbers, fault.line);
    ScriptFault {
        line,
        cause: cause_at(line, fault.cause),
    }
}
