// The totals of a log of the wire.

ghost use Rattle.std.specs.Prelude.{◌≡◌, ◌<◌, ◌++◌, length, OnOk};
ghost use Rattle.mscpjudge.specs.Counted as counted;

use mscp_packet::opcode_name;
use mscp_packet::status::code_name;
use mscp_text::{put, put_field};
use mscp_wire::{Counts, Falls, Totals};
use std::alloc::{AllocError, Allocator};

/// Appends the line of so many commands of an opcode, if there is one.
fn put_sent<A: Allocator>(
    text: &mut Vec<u8, A>,
    opcode: usize,
    count: u32,
) -> Result<(), AllocError>
    requires { opcode < 256 }
    ensures { OnOk result (text.new.items ≡ text.old.items ++ counted.sent_text opcode count) }
{
    if count == 0 {
        return Ok(());
    }
    put_field(text, "sent: ", count)?;
    put(text, " ")?;
    put(text, opcode_name(opcode as u8))?;
    put_field(text, " (", opcode)?;
    put(text, ")\n")
}

/// Appends the lines of all opcodes.
fn put_commands<A: Allocator>(text: &mut Vec<u8, A>, commands: &[u32]) -> Result<(), AllocError>
    requires { length commands.now ≡ 256 }
    ensures { OnOk result (text.new.items ≡ text.old.items ++ counted.commands_text commands.now) }
{
    for opcode in 0..256 {
        put_sent(text, opcode, commands[opcode])?;
    }
    Ok(())
}

/// Appends the line of so many ends whose status has a code, if there is one.
fn put_ended<A: Allocator>(text: &mut Vec<u8, A>, code: u16, count: u32) -> Result<(), AllocError>
    ensures { OnOk result (text.new.items ≡ text.old.items ++ counted.ended_text code count) }
{
    if count == 0 {
        return Ok(());
    }
    put_field(text, "ended: ", count)?;
    put(text, " ")?;
    put(text, code_name(code))?;
    put_field(text, " (", code)?;
    put(text, ")\n")
}

/// Appends the lines of all codes.
fn put_statuses<A: Allocator>(text: &mut Vec<u8, A>, statuses: &[u32]) -> Result<(), AllocError>
    requires { length statuses.now ≡ 32 }
    ensures { OnOk result (text.new.items ≡ text.old.items ++ counted.statuses_text statuses.now) }
{
    for code in 0..32 {
        put_ended(text, code, statuses[usize::from(code)])?;
    }
    Ok(())
}

/// Appends the rest of the line of the counts.
#[tactic(auto, unfolding(crate::specs::Counted::ends_text))]
fn put_ends<A: Allocator>(
    text: &mut Vec<u8, A>,
    counts: &Counts,
    queue: usize,
) -> Result<(), AllocError>
    ensures { OnOk result (text.new.items ≡ text.old.items ++ counted.ends_text counts.now queue) }
{
    put_field(text, " polls ", counts.polls)?;
    put_field(text, " ends ", counts.ends)?;
    put_field(text, " resets ", counts.resets)?;
    put_field(text, " queue ", queue)?;
    put(text, "\n")
}

/// Appends the line of the counts, behind that of a log that is right.
fn put_counts<A: Allocator>(
    text: &mut Vec<u8, A>,
    counts: &Counts,
    queue: usize,
) -> Result<(), AllocError>
    ensures { OnOk result (text.new.items ≡ text.old.items ++ counted.counts_text counts.now queue) }
{
    put_field(text, "right\nmoments ", counts.moments)?;
    put_field(text, " messages ", counts.messages)?;
    put_ends(text, counts, queue)
}

/// Appends the line of the falls, if a figure fell.
fn put_falls<A: Allocator>(text: &mut Vec<u8, A>, falls: &Falls) -> Result<(), AllocError>
    ensures { OnOk result (text.new.items ≡ text.old.items ++ counted.falls_text falls.now) }
{
    if falls.greatest == 0 {
        return Ok(());
    }
    put_field(text, "falls ", falls.least)?;
    put_field(text, " to ", falls.greatest)?;
    put(text, "\n")
}

/// Appends the lines of a log that is right, and has these totals.
pub(crate) fn put_totals<A: Allocator>(
    text: &mut Vec<u8, A>,
    totals: &Totals,
) -> Result<(), AllocError>
    ensures { OnOk result (text.new.items ≡ text.old.items ++ counted.totals_text totals.now) }
{
    put_counts(text, &totals.counts, totals.queue)?;
    put_falls(text, &totals.falls)?;
    put_commands(text, &totals.commands)?;
    put_statuses(text, &totals.statuses)
}
