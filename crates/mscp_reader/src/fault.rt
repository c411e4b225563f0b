// What can be wrong with a script.

ghost use Rattle.std.specs.Prelude.{◌≡◌, ◌≤◌, length};
ghost use Rattle.mscp_reader.specs.Common.{cause_word, in_line};
ghost use Rattle.mscp_reader.specs.declared.fault.ReadFault.TheVariants as variants;

use mscp_drive::OutOfMemory;
use thiserror::Error;

/// What is wrong with a line: the first that holds, in this order.
#[derive(Clone, Copy, Debug)]
pub enum Cause {
    /// The script has over 16,777,216 bytes.
    Size,
    /// It is line 1,000,001.
    Lines,
    /// It has over 200 bytes.
    Long,
    /// It has a byte other than a space or a printed ASCII character, and isn't a comment.
    Byte,
    /// Its first word isn't one that may stand here.
    Word,
    /// It has too few or too many words.
    Count,
    /// A field isn't a number of 1 to 10 decimal digits, or is out of its range.
    Number,
    /// A field isn't hexadecimal, has an odd number of digits, or a wrong length.
    Hex,
    /// The status of a bad block has a code below 5.
    Status,
    /// The unit is refused.
    Unit,
    /// The limits are refused.
    Config,
    /// The script has ended before its header.
    Header,
    /// The line brings the events over 1,000,000.
    Events,
}

impl Cause {
    /// The word that a fault's line tells the cause by, of at most 6 bytes.
    pub fn word(self) -> &'static str
        ensures value { result.now ≡ cause_word self }
        ensures short { length result.now ≤ 6 }
    {
        match self {
            Cause::Size => "size",
            Cause::Lines => "lines",
            Cause::Long => "long",
            Cause::Byte => "byte",
            Cause::Word => "word",
            Cause::Count => "count",
            Cause::Number => "number",
            Cause::Hex => "hex",
            Cause::Status => "status",
            Cause::Unit => "unit",
            Cause::Config => "config",
            Cause::Header => "header",
            Cause::Events => "events",
        }
    }
}

/// The first fault of a script. Lines count from 1, skipped ones too. The line is 0 where the script is too
/// large, and the number of lines plus 1 where the header isn't whole.
#[derive(Clone, Copy, Debug, Error)]
#[error("line {line}: {}", .cause.word())]
pub struct ScriptFault {
    pub line: u32,
    pub cause: Cause,
}

/// Why a script isn't read.
#[derive(Clone, Copy, Debug, Error)]
pub enum ReadFault {
    /// The script has a fault.
    #[error(transparent)]
    Script(ScriptFault),
    /// No memory was left for the events.
    #[error("out of memory")]
    OutOfMemory,
}

impl From<ScriptFault> for ReadFault {
    ghost from_gives = { λ fault e. e ≡ variants.Script fault };

    fn from(fault: ScriptFault) -> ReadFault {
        ReadFault::Script(fault)
    }
}

impl From<OutOfMemory> for ReadFault {
    ghost from_gives = { λ _ e. e ≡ variants.OutOfMemory };

    fn from(_refusal: OutOfMemory) -> ReadFault {
        ReadFault::OutOfMemory
    }
}

impl ScriptFault {
    /// The outcome of reading this line, with the line in its fault.
    pub(super) fn at<T>(line: u32, outcome: Result<T, Cause>) -> Result<T, ScriptFault>
        ensures { result ≡ in_line line outcome }
    {
        match outcome {
            Ok(value) => Ok(value),
            Err(cause) => Err(ScriptFault { line, cause }),
        }
    }
}
