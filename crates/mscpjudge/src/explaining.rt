// What a fault of a log means: what would be right, and the line that was read.

use mscp_reader::{Cause, ScriptFault, lines_of};

/// What is right, of each cause of a fault.
pub(crate) fn limit_of(cause: Cause) -> &'static str {
    match cause {
        Cause::Size => "a log has 16777216 bytes at most",
        Cause::Lines => "a log has 1000000 lines at most",
        Cause::Long => "a line has 200 bytes at most",
        Cause::Byte =>
            "a line has spaces and printed ASCII characters alone, but for a comment, which begins with #",
        Cause::Word =>
            "a line begins with a word that may be here: in a header credits to go, in their order",
        Cause::Count => "a line has as many words as its first one wants, as read 1 0 1024 40",
        Cause::Number =>
            "a number has 1 to 10 digits: 0 to 65535 of a unit, 1 to 1000 of step, 0 to 4294967295 of others",
        Cause::Hex =>
            "a message has two hexadecimal digits for each of 1 to 64 bytes, and a status has four",
        Cause::Status => "the low five bits of a bad block's status are 5 or more, as of 0008",
        Cause::Unit => "no size of a unit is 0, and 1 to 16 units have rising numbers",
        Cause::Config =>
            "credits are 2 to 64 (second 2 to 62 or 0), longest 1 to 8388608, timeout 1 to 255, the bound of 32 bits",
        Cause::Header => "a header ends with go",
        Cause::Events => "a log has 1000000 events at most",
    }
}

/// The same of a log of the wire, where another word is right.
pub(crate) fn limit_on_wire(cause: Cause) -> &'static str {
    match cause {
        Cause::Word =>
            "a line begins with send, end, from, to, second, reset, credits, begun or port, or with a time and one of these; begun and then credits stand before all others of their port",
        Cause::Count =>
            "behind credits and port stands one number, behind send, end, from and to all digits of a packet, without spaces between them",
        Cause::Byte =>
            "a line has spaces and printed ASCII characters alone: no tab, and no byte order mark",
        Cause::Hex => {
            "a packet has two hexadecimal digits for each of 1 to 64 bytes; behind from and to stand the four of its envelope first"
        }
        Cause::Number =>
            "a number has 1 to 10 digits: 0 to 7 of a port, 0 to 4294967295 of credits",
        _ => limit_of(cause),
    }
}

/// The line of a fault, if it has printed ASCII characters alone, as one has in which bytes were judged first.
pub(crate) fn line_of(log: &[u8], fault: ScriptFault) -> Option<&[u8]> {
    if let Cause::Size | Cause::Lines | Cause::Long | Cause::Byte | Cause::Header = fault.cause {
        return None;
    }
    let mut lines = lines_of(log).ok()?;
    for _ in 1..fault.line {
        lines.cut()?;
    }
    lines.cut()
}
