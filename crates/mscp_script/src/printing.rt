// The line of a packet, written.

ghost use Rattle.std.specs.Prelude.{◌≡◌, ◌↔◌, true, false};
ghost use Rattle.mscp_script.specs.Common.{shown, Prints, PrintsOnce};

use crate::fault::Fault;
use crate::stream::Sink;
use mscp_text::show_packet;
use std::alloc::Global;

/// Writes the line of the packet that a word is the hexadecimal digits of, in one write. Except where it says `Write`,
/// nothing was written on a fault.
///
/// # Errors
///
/// `Packet` if the word is no packet's or memory runs out, and `Write` if the write fails.
pub fn print_packet<W: Sink>(alloc: Global, word: &str, writer: &mut W) -> Result<(), Fault>
    requires { W.has_failed writer.old ≡ false }
    ensures write { (result ≡ Err Fault.Write) ↔ (W.has_failed writer.new ≡ true) }
    ensures printed { Prints result (shown word.now) (W.contents writer.old) (W.contents writer.new) }
    ensures once { PrintsOnce result (W.writes writer.old) (W.writes writer.new) }
{
    let line = show_packet(alloc, word)?;
    Ok(writer.write_all(&line)?)
}
