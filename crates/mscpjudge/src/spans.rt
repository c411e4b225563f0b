// How the times of a log are written: the longest of a command and of a poll, and how many polls were hasty.

ghost use Rattle.std.specs.Prelude.{◌≡◌, ◌++◌, OnOk};
ghost use Rattle.mscpjudge.specs.Numbers.{number_by};
ghost use Rattle.mscpjudge.specs.Timing as timings;

use crate::numbers::number_of;
use crate::time::put_seconds;
use crate::timing::Span;
use crate::wire::put_command;
use mscp_text::{put, put_field};
use std::alloc::{AllocError, Allocator};

/// Appends from which line to which.
#[tactic(auto, unfolding(crate::specs::Timing::lines_text))]
fn put_lines<A: Allocator>(text: &mut Vec<u8, A>, first: u32, last: u32) -> Result<(), AllocError>
    ensures { OnOk result (text.new.items ≡ text.old.items ++ timings.lines_text first last) }
{
    put_field(text, ", from line ", first)?;
    put_field(text, " to line ", last)?;
    put(text, ": ")
}

/// Appends a time behind a word, from which line to which, and of which command.
fn put_told<A: Allocator>(
    text: &mut Vec<u8, A>,
    word: &str,
    span: &Span,
    numbers: &[u32],
) -> Result<(), AllocError>
    ensures { OnOk result (text.new.items ≡ text.old.items
        ++ timings.told_text (number_by numbers.now) word.now span.now) }
{
    put(text, word)?;
    put_seconds(text, span.time)?;
    put_lines(
        text,
        number_of(numbers, span.first),
        number_of(numbers, span.last),
    )?;
    put_command(text, &span.command)
}

/// The same, if there is one.
#[tactic(auto, unfolding(crate::specs::Timing::span_text))]
fn put_span<A: Allocator>(
    text: &mut Vec<u8, A>,
    word: &str,
    span: &Option<Span>,
    numbers: &[u32],
) -> Result<(), AllocError>
    ensures { OnOk result (text.new.items ≡ text.old.items
        ++ timings.span_text (number_by numbers.now) word.now span.now) }
{
    match span {
        Some(span) => put_told(text, word, span, numbers),
        None => Ok(()),
    }
}

/// Appends how many polls were hasty, if some were.
fn put_hasty<A: Allocator>(text: &mut Vec<u8, A>, count: u32) -> Result<(), AllocError>
    ensures { OnOk result (text.new.items ≡ text.old.items ++ timings.hasty_text count) }
{
    if count == 0 {
        return Ok(());
    }
    put_field(text, "hasty polls: ", count)?;
    put(text, "\n")
}

/// Appends the lines of what was timed.
#[tactic(auto, unfolding(crate::specs::Timing::spans_text))]
pub(crate) fn put_spans<A: Allocator>(
    text: &mut Vec<u8, A>,
    longest: &Option<Span>,
    poll: &Option<Span>,
    hasty: u32,
    numbers: &[u32],
) -> Result<(), AllocError>
    ensures { OnOk result (text.new.items ≡ text.old.items
        ++ timings.spans_text (number_by numbers.now) longest.now poll.now hasty) }
{
    put_span(text, "longest: ", longest, numbers)?;
    put_span(text, "longest poll: ", poll, numbers)?;
    put_hasty(text, hasty)
}
