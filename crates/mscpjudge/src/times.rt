// The times of a log's lines, by the numbers of these in it, and the numbers that they have among all lines: made only
// of a log that isn't right.

ghost use Rattle.std.specs.Prelude.{◌≡◌, IfOk};
ghost use Rattle.mscp_reader.specs.Lexical as lexical;
ghost use Rattle.mscpjudge.specs.Times as told;

use crate::time::line_time;
use mscp_controller::OutOfMemory;
use mscp_reader::{Lines, lines_of};
use std::alloc::Global;
use std::collections::BTreeMap;

/// The times of lines, by their numbers, and the numbers that these are told by.
#[derive(Drop)]
pub struct Times<'a> {
    pub lines: BTreeMap<u32, u64>,
    pub numbers: &'a [u32],
}

impl<'a> Times<'a> {
    /// Of no line.
    fn none(alloc: Global, numbers: &'a [u32]) -> Times<'a>
        ensures times { told.time_of result.lines ≡ told.no_time }
        ensures numbers { result.numbers.now ≡ numbers.now }
    {
        Times {
            lines: BTreeMap::new(alloc),
            numbers,
        }
    }

    /// The time of a line, if it tells one.
    pub(crate) fn at(&self, line: u32) -> Option<u64>
        ensures { result ≡ told.time_of self.now.lines line }
    {
        self.lines.get(&line).copied()
    }
}

/// The times of these lines.
fn times_of<'a>(
    alloc: Global,
    lines: &mut Lines<'_>,
    numbers: &'a [u32],
) -> Result<Times<'a>, OutOfMemory>
    requires { lines.old.number ≡ 0 }
    ensures times { IfOk result (λ times. told.time_of times.lines
        ≡ told.lines_time 0 (lexical.lines lines.old.rest.now)) }
    ensures numbers { IfOk result (λ times. times.numbers.now ≡ numbers.now) }
{
    let mut times = Times::none(alloc, numbers);
    while let Some(line) = lines.cut() {
        if let Some(time) = line_time(lines.number, line) {
            times.lines.insert(lines.number, time)?;
        }
    }
    Ok(times)
}

/// The times of a log.
pub(crate) fn times_in<'a>(
    alloc: Global,
    log: &[u8],
    numbers: &'a [u32],
) -> Result<Times<'a>, OutOfMemory>
    ensures times { IfOk result (λ times. told.time_of times.lines ≡ told.log_time log.now) }
    ensures numbers { IfOk result (λ times. times.numbers.now ≡ numbers.now) }
{
    match lines_of(log) {
        Ok(mut lines) => times_of(alloc, &mut lines, numbers),
        Err(_) => Ok(Times::none(alloc, numbers)),
    }
}
