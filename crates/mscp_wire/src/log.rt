// What is judged of a log, line by line.

ghost use Rattle.std.specs.Prelude.{◌≡◌, ◌≤◌, false, length, Result, Ok};
ghost use Rattle.mscp_wire.specs.Log.{Log};
ghost use Rattle.mscp_wire.specs.Right.{Comes, Judges, Says};
ghost use Rattle.mscp_wire.specs.Wire.{AreRight};

use crate::doubts::Doubts;
use crate::judge::Judge;
use crate::reading::Reading;
use crate::sent::Sent;
use crate::totals::Totals;
use crate::wrong::Wrong;
use mscp_reader::{Lines, ReadFault, ScriptFault, lines_of};
use std::alloc::Allocator;

/// What is said of a log.
#[derive(Drop)]
pub enum Verdict<A: Allocator> {
    /// Each moment is right. These are the totals, the doubts, and the commands that are still outstanding.
    Right(Totals, Doubts, Vec<Sent, A>),
    /// This one isn't.
    Wrong(Wrong),
}

/// What is said of the lines of a log.
fn judge_lines<A: Allocator + Copy>(
    alloc: A,
    lines: &mut Lines<'_>,
) -> Result<Verdict<A>, ReadFault>
    requires first { lines.old.number ≡ 0 }
    requires small { length lines.old.rest.now ≤ 16777216 }
    ensures { Judges result lines.old.rest.now }
{
    let mut reading = Reading::new(alloc);
    while let Some(bytes) = lines.cut() {
        if let Some(wrong) = reading.line(alloc, lines.number, bytes)? {
            return Ok(Verdict::Wrong(wrong));
        }
    }
    let Reading {
        judge,
        totals,
        doubts,
        middle: _,
    } = reading;
    let Judge {
        credits: _,
        controller: _,
        timeout: _,
        units: _,
        commands,
    } = judge;
    Ok(Verdict::Right(totals, doubts, commands.into_list(alloc)?))
}

/// What is said of a log.
fn judged<A: Allocator + Copy>(alloc: A, bytes: &[u8]) -> Result<Verdict<A>, ReadFault>
    ensures { Judges result bytes.now }
{
    let mut lines = lines_of(bytes)?;
    judge_lines(alloc, &mut lines)
}

/// Judges a log of the wire: says that each of its moments is right, or the first that isn't, unless a line before it
/// is at fault.
///
/// # Errors
///
/// The first line at fault, if all moments before it are right, or `OutOfMemory`.
pub fn judge_wire<A: Allocator + Copy>(alloc: A, bytes: &[u8]) -> Result<Verdict<A>, ReadFault>
    ensures judges { Judges result bytes.now }
    // And whatever comes of a log is said of it, so that each log of which all moments are right is judged to be right.
    ensures only { (came : Result (Result Log Wrong) ScriptFault) → Comes bytes.now came → Says result came }
    // And of a log that doesn't begin in the middle that is each of which each moment is right after those before it.
    ensures whole { (log : Log) → Comes bytes.now (Ok (Ok log)) → log.begun ≡ false → AreRight log.credits log.moments }
{
    judged(alloc, bytes)
}
