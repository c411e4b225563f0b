// A controller that is driven event by event, and the report of what it answers.

ghost use Rattle.std.specs.Prelude.{◌≡◌, ◌+◌, ◌<◌, ◌^◌, [], length, replicate, OnErr, OnOk};
ghost use Rattle.mscp_controller.specs.Holdings.{Steps, fresh};
ghost use Rattle.mscp_packet.specs.Commands.{command_bytes};
ghost use Rattle.mscp_queue.specs.Pickers.{IsSweep};
ghost use Rattle.mscp_queue.specs.declared.report.Report.TheVariants.{Idle};
ghost use Rattle.mscp_drive.specs.Settings.{IsValid};
ghost use Rattle.mscp_drive.specs.declared.event.Event.TheVariants as events;
ghost use Rattle.mscp_reader.specs.Requests.{bytes_in, events_of};
ghost use Rattle.mscp_script.specs.Running.{Meets, Ran};
ghost use Rattle.mscp_script.specs.Text.{reported};

use crate::reporting::Reporter;
use mscp_controller::{Block, Config, Connection, Controller, OutOfMemory, Report, Sweep};
use mscp_reader::{Request, ValidCommand, bytes_in};
use mscp_text::Out;

/// A controller whose picker sweeps, and the report of what it answered so far. No entry is kept.
#[derive(Drop)]
pub struct Run<O: Out> {
    controller: Controller<Sweep>,
    pub reporter: Reporter<O>,
}

impl<O: Out> Run<O> {
    /// A new controller, to which nothing came.
    pub(crate) fn new(out: O, config: Config) -> Run<O>
        requires { O.text out ≡ [] }
        ensures controller { result.controller ≡ fresh config result.controller.picker }
        ensures report { result.reporter ≡ reported [] }
        ensures valid { IsValid config }
    {
        Run {
            controller: Controller::new(config, Sweep),
            reporter: Reporter::new(out),
        }
    }

    /// How many events came.
    pub(crate) fn count(&self) -> u64
        ensures { result ≡ self.now.reporter.count }
    {
        self.reporter.count()
    }

    /// The connection's host sends this message. Few lines have bytes: it isn't made part of the loop over all, which
    /// would clear room for them at each.
    #[inline(never)]
    fn send(&mut self, connection: Connection, message: &[u8]) -> Result<(), OutOfMemory>
        requires { self.old.reporter.count + 1 < 2 ^ 64 }
        ensures ran { OnOk result (Ran self.old self.new (events.Send connection (record { items = message.now }))) }
        ensures refused { OnErr result O.refuses }
    {
        let sent = self.controller.send(connection, message);
        self.reporter.sent(connection, &sent)
    }

    /// The connection's host sends the message of these digits.
    #[inline(never)]
    fn send_packet(&mut self, connection: Connection, digits: &[u8]) -> Result<(), OutOfMemory>
        requires room { self.old.reporter.count + 1 < 2 ^ 64 }
        ensures ran { OnOk result
            (Ran self.old self.new (events.Send connection (record { items = bytes_in digits.now }))) }
        ensures refused { OnErr result O.refuses }
    {
        self.send(connection, bytes_in(digits).as_slice())
    }

    /// The connection's host sends the message of this command. Its bytes aren't written, only to be read again.
    fn send_command(
        &mut self,
        connection: Connection,
        valid: ValidCommand,
    ) -> Result<(), OutOfMemory>
        requires { self.old.reporter.count + 1 < 2 ^ 64 }
        ensures ran { OnOk result
            (Ran self.old self.new (events.Send connection (record { items = command_bytes valid.command }))) }
        ensures refused { OnErr result O.refuses }
    {
        let sent = self.controller.send_command(connection, valid.command);
        self.reporter.sent(connection, &sent)
    }

    /// The connection's host takes an end. Neither this nor what steps do is made part of the loop over all lines,
    /// which has fewer registers then.
    #[inline(never)]
    fn take(&mut self, connection: Connection) -> Result<(), OutOfMemory>
        requires { self.old.reporter.count + 1 < 2 ^ 64 }
        ensures ran { OnOk result (Ran self.old self.new (events.Take connection)) }
        ensures refused { OnErr result O.refuses }
    {
        let end = self.controller.take(connection);
        self.reporter.taken(connection, &end)
    }

    /// So many idle steps, where nothing waits: the controller isn't asked, since each would leave it as it is.
    fn idle(&mut self, count: u32) -> Result<(), OutOfMemory>
        requires room { self.old.reporter.count + count < 2 ^ 64 }
        requires idle { (k : Block) → Steps IsSweep k self.old.controller Idle self.old.controller }
        ensures met { OnOk result ((k : Block) → Meets self.old self.new (replicate count (events.Step k))) }
        ensures count { OnOk result (self.new.reporter.count ≡ self.old.reporter.count + count) }
        ensures refused { OnErr result O.refuses }
    {
        for _step in 0..count {
            self.reporter.idled()?;
        }
        Ok(())
    }

    /// The figures of all waiting commands are asked for.
    fn look(&mut self) -> Result<(), OutOfMemory>
        requires { self.old.reporter.count + 1 < 2 ^ 64 }
        ensures ran { OnOk result (Ran self.old self.new events.Look) }
        ensures refused { OnErr result O.refuses }
    {
        let shown = self.controller.look();
        self.reporter.looked(&shown)
    }

    /// The drive serves so many blocks, each with this outcome.
    #[inline(never)]
    fn steps(&mut self, count: u32, block: &Block) -> Result<(), OutOfMemory>
        requires { self.old.reporter.count + count < 2 ^ 64 }
        ensures met { OnOk result (Meets self.old self.new (replicate count (events.Step block.now))) }
        ensures count { OnOk result (self.new.reporter.count ≡ self.old.reporter.count + count) }
        ensures refused { OnErr result O.refuses }
    {
        for step in 0..count {
            let report = self.controller.step(*block);
            if let Report::Idle = report {
                return self.idle(count - step);
            }
            self.reporter.stepped(&report)?;
        }
        Ok(())
    }

    /// The events of a request come.
    pub(crate) fn meet(&mut self, request: &Request<'_>) -> Result<(), OutOfMemory>
        requires { self.old.reporter.count + length (events_of request.now) < 2 ^ 64 }
        ensures met { OnOk result (Meets self.old self.new (events_of request.now)) }
        ensures count { OnOk result (self.new.reporter.count
            ≡ self.old.reporter.count + length (events_of request.now)) }
        ensures refused { OnErr result O.refuses }
    {
        match request {
            Request::Send(connection, valid) => self.send_command(*connection, *valid),
            Request::Packet(connection, digits) => self.send_packet(*connection, digits),
            Request::Take(connection) => self.take(*connection),
            Request::Steps(count, block) => self.steps(*count, block),
            Request::Look => self.look(),
        }
    }
}
