// The totals of a log.

ghost use Rattle.std.specs.Prelude.{◌≡◌};
ghost use Rattle.mscp_judge.specs.Common.{bound, IsLarger, figure_queued};
ghost use Rattle.mscp_controller.specs.declared.entry.Entry.TheVariants as entries;

use crate::naming::Wanted;
use mscp_controller::{Config, Connection, Controller, SendFault, Sent};

/// The totals of a legal log.
#[derive(Clone, Copy)]
pub struct Totals {
    /// How many moments it has: an event each, and its answer.
    pub moments: u64,
    /// How many of them are steps.
    pub steps: u64,
    /// The largest figure that a waiting command had.
    pub figure: u32,
    /// The bound, which no figure exceeds.
    pub bound: u32,
    /// The most blocks by which a waiting command was passed.
    pub passed: u32,
}

/// The largest figure so far, and the most blocks by which a command was passed.
#[derive(Clone, Copy)]
pub struct Peaks {
    pub figure: u32,
    pub passed: u32,
}

/// The larger of two numbers.
fn larger(first: u32, second: u32) -> u32
    ensures { IsLarger first second result }
{
    if first < second { second } else { first }
}

impl Peaks {
    /// Those of no command.
    pub(crate) fn none() -> Peaks
        ensures figure { result.figure ≡ 0 }
        ensures passed { result.passed ≡ 0 }
    {
        Peaks {
            figure: 0,
            passed: 0,
        }
    }

    /// A figure and such a count come.
    pub(crate) fn rise(&mut self, figure: u32, passed: u32)
        ensures figure { IsLarger self.old.figure figure self.new.figure }
        ensures passed { IsLarger self.old.passed passed self.new.passed }
    {
        self.figure = larger(self.figure, figure);
        self.passed = larger(self.passed, passed);
    }
}

/// The figure of the command that was queued, if one was, and else 0.
pub(crate) fn figure_queued(
    controller: &Controller<Wanted>,
    connection: Connection,
    sent: &Result<Sent, SendFault>,
) -> u32
    ensures { result ≡ figure_queued controller.now (entries.Sent connection sent.now) }
{
    match sent {
        Ok(Sent::Queued(reference)) => controller.figure(connection, *reference),
        _ => 0,
    }
}

/// The bound of a configuration.
pub(crate) fn bound_of(config: &Config) -> u32
    ensures { result ≡ bound config.now }
{
    config.room() * config.longest() + config.budget()
}
