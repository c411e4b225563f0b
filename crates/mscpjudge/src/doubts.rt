// The doubts of a log of the wire that is right.

ghost use Rattle.std.specs.Prelude.{◌≡◌, ◌++◌, OnOk};
ghost use Rattle.mscpjudge.specs.Numbers.{number_by};
ghost use Rattle.mscpjudge.specs.Wired as wired;

use crate::numbers::number_of;
use crate::wire::put_command;
use mscp_text::{put, put_field};
use mscp_wire::{Doubt, Doubts, Found, Sent};
use std::alloc::{AllocError, Allocator};

/// Appends the end of a line about the command of a moment, if it has one.
fn put_answered<A: Allocator>(
    text: &mut Vec<u8, A>,
    command: &Option<Sent>,
) -> Result<(), AllocError>
    ensures { OnOk result (text.new.items ≡ text.old.items ++ wired.answered_text command.now) }
{
    match command {
        Some(command) => {
            put(text, ": ")?;
            put_command(text, command)
        }
        None => put(text, "\n"),
    }
}

/// Appends the line of so many doubts of one kind, of which the first is in this line, and about this command.
fn put_first<A: Allocator>(
    text: &mut Vec<u8, A>,
    kind: &str,
    count: u32,
    line: u32,
    command: &Option<Sent>,
) -> Result<(), AllocError>
    ensures { OnOk result (text.new.items ≡ text.old.items ++ wired.first_in kind.now count line command.now) }
{
    put_field(text, "doubt: ", count)?;
    put(text, " ")?;
    put(text, kind)?;
    put_field(text, ", first in line ", line)?;
    put_answered(text, command)
}

/// Appends the line of the doubts of one kind, if there are any.
#[tactic(auto, unfolding(crate::specs::Wired::doubt_text))]
fn put_doubt<A: Allocator>(
    text: &mut Vec<u8, A>,
    kind: &str,
    doubt: &Doubt,
    numbers: &[u32],
) -> Result<(), AllocError>
    ensures { OnOk result (text.new.items ≡ text.old.items
        ++ wired.doubt_text (number_by numbers.now) kind.now doubt.now) }
{
    match doubt.first {
        Some(found) => put_first(
            text,
            kind,
            doubt.count,
            number_of(numbers, found.line),
            &found.command,
        ),
        None => Ok(()),
    }
}

/// Appends the lines of all kinds.
pub(crate) fn put_doubts<A: Allocator>(
    text: &mut Vec<u8, A>,
    doubts: &Doubts,
    numbers: &[u32],
) -> Result<(), AllocError>
    ensures { OnOk result (text.new.items ≡ text.old.items ++ wired.doubts_text (number_by numbers.now) doubts.now) }
{
    put_doubt(text, "identity", &doubts.identity, numbers)?;
    put_doubt(text, "size", &doubts.size, numbers)?;
    put_doubt(text, "status", &doubts.status, numbers)?;
    put_doubt(text, "protection", &doubts.protection, numbers)?;
    put_doubt(text, "identifier", &doubts.identifier, numbers)?;
    put_doubt(text, "next unit", &doubts.next, numbers)?;
    put_doubt(text, "figure", &doubts.figure, numbers)
}
