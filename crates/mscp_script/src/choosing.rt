// What the words of a command line ask for.

ghost use Rattle.mscp_script.specs.Common.{map, string_bytes, Gives, chosen, seen};

use thiserror::Error;

/// What a call of the program is to do.
#[derive(Clone, Copy)]
pub enum Deed<'a> {
    /// Run the script of this file, or where it is `-` that on standard input.
    Run(&'a str),
    /// Show the packet that this word is the hexadecimal digits of.
    Packet(&'a str),
}

/// Why the words of a command line are no call.
#[derive(Clone, Copy, Debug, Error)]
pub enum LineFault {
    #[error("usage: mscpq [run FILE | packet HEX]")]
    Usage,
}

/// What the words of a command line ask for, without the program's name: `run FILE`, `packet HEX`, or where there are
/// none `run -`. It takes no memory.
///
/// # Errors
///
/// `Usage` for any other words.
pub fn choose(words: &[String]) -> Result<Deed<'_>, LineFault>
    ensures { Gives seen result (chosen (map string_bytes words.now)) }
{
    match words {
        [] => Ok(Deed::Run("-")),
        [command, operand] => match command.as_str() {
            "run" => Ok(Deed::Run(operand.as_str())),
            "packet" => Ok(Deed::Packet(operand.as_str())),
            _ => Err(LineFault::Usage),
        },
        _ => Err(LineFault::Usage),
    }
}
