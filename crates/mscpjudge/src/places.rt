// In which lines is told what a moment that breaks a rule is compared with.

ghost use Rattle.std.specs.Prelude.{◌≡◌, ◌++◌, OnOk};
ghost use Rattle.mscpjudge.specs.Common.{place_text, places_text};
ghost use Rattle.mscpjudge.specs.Numbers.{number_by};
ghost use Rattle.mscpjudge.specs.Times.{time_of};

use crate::numbers::number_of;
use crate::time::put_at;
use crate::times::Times;
use mscp_text::{put, put_field};
use mscp_wire::{Places, Rule};
use std::alloc::{AllocError, Allocator};

/// Appends a line behind words, if it is known.
fn put_place<A: Allocator>(
    text: &mut Vec<u8, A>,
    words: &str,
    line: Option<u32>,
    times: &Times<'_>,
) -> Result<(), AllocError>
    ensures { OnOk result (text.new.items ≡ text.old.items
        ++ place_text (number_by times.now.numbers.now) (time_of times.now.lines) words.now line) }
{
    match line {
        Some(line) => {
            put(text, words)?;
            put_field(text, " in line ", number_of(times.numbers, line))?;
            put_at(text, times.at(line))?;
            put(text, "\n")
        }
        None => Ok(()),
    }
}

/// Appends the lines that are of use where this rule is broken.
#[tactic(auto, unfolding(crate::specs::Places::places_text))]
pub(crate) fn put_places<A: Allocator>(
    text: &mut Vec<u8, A>,
    rule: Rule,
    places: &Places,
    times: &Times<'_>,
) -> Result<(), AllocError>
    ensures { OnOk result (text.new.items ≡ text.old.items
        ++ places_text (number_by times.now.numbers.now) (time_of times.now.lines) rule places.now) }
{
    match rule {
        Rule::Message | Rule::Credits => Ok(()),
        Rule::Number => put_place(text, "the other was sent", places.sent, times),
        Rule::Order => {
            put_place(text, "sent", places.sent, times)?;
            put_place(text, "what it passes was sent", places.passed, times)
        }
        Rule::Figure => {
            put_place(text, "sent", places.sent, times)?;
            put_place(text, "the last was told", places.asked, times)
        }
        _ => put_place(text, "sent", places.sent, times),
    }
}
