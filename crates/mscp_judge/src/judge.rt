// A controller that answers what a log says, and what of its answers wasn't told yet.
//
// The judge is a controller with a picker of its own, which picks the command that the log names. A step is answered
// when the line of its answer is read, since that line names the command that starts.

ghost use Rattle.std.specs.Prelude.{◌≡◌, ◌+◌, ◌-◌, ◌<◌, ◌^◌, [], codes, length, true, false, OnOk, IfOk, None};
ghost use Rattle.mscp_judge.specs.Common.{IsValid, Settings, events_of, AreAnswers, Log, nothing, telling, Came, HasShortLine, IsSettled, Stands, due, totals_of};
ghost use Rattle.mscp_drive.specs.declared.event.Event.TheVariants as events;
ghost use Rattle.mscp_judge.specs.Logs.{asking};

mod telling;

pub use crate::judge::telling::Right;
use crate::naming::Wanted;
use crate::starting::Starts;
use crate::totals::{Peaks, Totals, bound_of, figure_queued};
use mscp_controller::{Block, Config, Connection, Controller, Name, OutOfMemory};
use mscp_packet::write_command;
use mscp_reader::{Request, bytes_in};
use mscp_script::Reporter;
use std::alloc::Allocator;

/// A controller, what it answered to the last events, and how many steps aren't answered yet.
#[derive(Drop)]
pub struct Judge<A: Allocator> {
    controller: Controller<Wanted>,
    reporter: Reporter<Vec<u8, A>>,
    peaks: Peaks,
    // How many bytes of the reporter's lines the log has told.
    told: usize,
    // What might have started at the last step whose line names none of these.
    starts: Starts,
    // How many steps are to be answered yet, and the outcome of their blocks. A step is answered when its line is read,
    // since that says which command starts.
    owed: u32,
    block: Block,
}

impl<A: Allocator> Judge<A> {
    /// A judge of a controller to which nothing came.
    pub(crate) fn new(alloc: A, config: Config) -> Judge<A>
        ensures stands { Stands config nothing result }
        ensures count { result.reporter.count + result.owed ≡ 0 }
    {
        Judge {
            controller: Controller::new(config, Wanted { named: None }),
            reporter: Reporter::new(Vec::new(alloc)),
            peaks: Peaks::none(),
            told: 0,
            starts: Starts::new(),
            owed: 0,
            block: Block::Good,
        }
    }

    /// Forgets all that came.
    pub(crate) fn restart(&mut self)
        ensures stands { (c : Settings) → IsValid c → self.old.controller.settings ≡ c → Stands c nothing self.new }
        ensures count { self.new.reporter.count + self.new.owed ≡ 0 }
    {
        self.controller.replace_picker(Wanted { named: None });
        self.controller.reset();
        self.reporter.restart();
        self.peaks = Peaks::none();
        self.told = 0;
        self.owed = 0;
    }

    /// How many events were asked for.
    pub(crate) fn count(&self) -> u64
        requires { self.now.reporter.count + self.now.owed < 2 ^ 64 }
        ensures { result ≡ self.now.reporter.count + self.now.owed }
    {
        self.reporter.count() + u64::from(self.owed)
    }

    /// The totals of the events so far.
    pub(crate) fn totals(&self) -> Totals
        ensures { result ≡ totals_of self.now.controller.settings self.now }
    {
        Totals {
            moments: self.reporter.count(),
            steps: self.reporter.steps(),
            figure: self.peaks.figure,
            bound: bound_of(self.controller.config()),
            passed: self.peaks.passed,
        }
    }

    /// What is answered and wasn't told yet.
    pub(crate) fn due(&self) -> &[u8]
        ensures { result.now ≡ due self.now }
    {
        let lines = self.reporter.lines();
        &lines[self.told.min(lines.len())..]
    }

    /// Whether all is answered and told.
    pub(crate) fn is_settled(&self) -> bool
        ensures yes { result ≡ true → IsSettled self.now }
        ensures no { result ≡ false → ¬ (IsSettled self.now) }
    {
        self.owed == 0 && self.due().is_empty()
    }

    /// The connection's host sends this message. Told is how many lines are due then.
    fn send(&mut self, connection: Connection, message: &[u8]) -> Result<u32, OutOfMemory>
        requires { self.old.reporter.count + 1 < 2 ^ 64 }
        ensures came { OnOk result (Came self.old.controller.picker.named self.old self.new
            (events.Send connection (record { items = message.now }))) }
        ensures answers { IfOk result (λ count. AreAnswers (due self.new) count) }
        ensures owed { self.new.owed ≡ self.old.owed }
        ensures block { self.new.block ≡ self.old.block }
    {
        self.reporter.forget_lines();
        self.told = 0;
        let sent = self.controller.send(connection, message);
        let figure = figure_queued(&self.controller, connection, &sent);
        self.peaks.rise(figure, self.controller.most_passed());
        self.reporter.sent(connection, &sent)?;
        Ok(1)
    }

    /// The connection's host takes an end. Told is how many lines are due then.
    fn take(&mut self, connection: Connection) -> Result<u32, OutOfMemory>
        requires { self.old.reporter.count + 1 < 2 ^ 64 }
        ensures came { OnOk result (Came self.old.controller.picker.named self.old self.new (events.Take connection)) }
        ensures answers { IfOk result (λ count. AreAnswers (due self.new) count) }
        ensures owed { self.new.owed ≡ self.old.owed }
        ensures block { self.new.block ≡ self.old.block }
    {
        self.reporter.forget_lines();
        self.told = 0;
        let end = self.controller.take(connection);
        self.peaks.rise(0, self.controller.most_passed());
        self.reporter.taken(connection, &end)?;
        Ok(1)
    }

    /// The figures of all waiting commands are asked for. Told is how many lines are due then.
    fn look(&mut self) -> Result<u32, OutOfMemory>
        requires { self.old.reporter.count + 1 < 2 ^ 64 }
        ensures came { OnOk result (Came self.old.controller.picker.named self.old self.new events.Look) }
        ensures answers { IfOk result (λ count. AreAnswers (due self.new) count) }
        ensures owed { self.new.owed ≡ self.old.owed }
        ensures block { self.new.block ≡ self.old.block }
    {
        self.reporter.forget_lines();
        self.told = 0;
        let shown = self.controller.look();
        self.peaks.rise(0, self.controller.most_passed());
        self.reporter.looked(&shown)?;
        Ok(shown.len() as u32)
    }

    /// Whether the next answer is that of a step.
    pub(crate) fn owes(&self) -> bool
        ensures due { result ≡ true → due self.now ≡ [] }
        ensures owed { result ≡ true → 0 < self.now.owed }
    {
        self.owed != 0 && self.due().is_empty()
    }

    /// A step is answered, at which the command that is named starts, if it may, and else the oldest that may.
    pub(crate) fn step(&mut self, wanted: Option<Name>) -> Result<(), OutOfMemory>
        requires count { self.old.reporter.count + 1 < 2 ^ 64 }
        requires owed { 0 < self.old.owed }
        ensures came { OnOk result (Came wanted self.old self.new (events.Step self.old.block)) }
        ensures answers { OnOk result (AreAnswers (due self.new) 1) }
        ensures short { OnOk result (HasShortLine (due self.new)) }
        ensures starts { self.new.starts ≡ self.old.starts }
        ensures owed { self.new.owed ≡ self.old.owed - 1 }
        ensures block { self.new.block ≡ self.old.block }
        ensures count { OnOk result (self.new.reporter.count + self.new.owed
            ≡ self.old.reporter.count + self.old.owed) }
    {
        self.owed -= 1;
        self.reporter.forget_lines();
        self.told = 0;
        self.controller.replace_picker(Wanted { named: wanted });
        let report = self.controller.step(self.block);
        self.peaks.rise(0, self.controller.most_passed());
        self.reporter.stepped(&report)
    }

    /// Whether the next answer is that of a step at which nothing waits.
    pub(crate) fn is_idle(&self) -> bool
        ensures due { result ≡ true → due self.now ≡ [] }
        ensures owed { result ≡ true → 0 < self.now.owed }
        ensures nothing { result ≡ true → self.now.controller.waiting ≡ [] }
        ensures begun { result ≡ true → self.now.controller.begun ≡ None }
    {
        self.owes() && self.controller.len() == 0 && self.controller.begun().is_none()
    }

    /// A step is answered at which nothing waits, and its line is told.
    pub(crate) fn idle(&mut self) -> Result<(), OutOfMemory>
        requires count { self.old.reporter.count + 1 < 2 ^ 64 }
        requires due { due self.old ≡ [] }
        requires owed { 0 < self.old.owed }
        requires nothing { self.old.controller.waiting ≡ [] }
        requires begun { self.old.controller.begun ≡ None }
        ensures told { OnOk result ((c : Settings) (log : Log) → Stands c log self.old
            → Stands c (telling log (codes "idle\n")) self.new) }
        ensures count { OnOk result (self.new.reporter.count + self.new.owed
            ≡ self.old.reporter.count + self.old.owed) }
    {
        self.idle_step()?;
        self.tell_all();
        Ok(())
    }

    /// What `step` does where nothing waits: the controller is idle, and stays as it is.
    #[inline(always)]
    fn idle_step(&mut self) -> Result<(), OutOfMemory>
        requires count { self.old.reporter.count + 1 < 2 ^ 64 }
        requires owed { 0 < self.old.owed }
        requires nothing { self.old.controller.waiting ≡ [] }
        requires begun { self.old.controller.begun ≡ None }
        ensures came { OnOk result (Came None self.old self.new (events.Step self.old.block)) }
        ensures owed { self.new.owed ≡ self.old.owed - 1 }
        ensures block { self.new.block ≡ self.old.block }
        ensures count { OnOk result (self.new.reporter.count + self.new.owed
            ≡ self.old.reporter.count + self.old.owed) }
    {
        self.owed -= 1;
        self.reporter.forget_lines();
        self.told = 0;
        let _before = self.controller.replace_picker(Wanted { named: None });
        self.peaks.rise(0, 0);
        self.reporter.idled()
    }

    /// So many steps are asked for, each with this outcome.
    fn owe(&mut self, count: u32, block: Block)
        ensures controller { self.new.controller ≡ self.old.controller }
        ensures reporter { self.new.reporter ≡ self.old.reporter }
        ensures peaks { self.new.peaks ≡ self.old.peaks }
        ensures told { self.new.told ≡ self.old.told }
        ensures owed { self.new.owed ≡ count }
        ensures block { self.new.block ≡ block }
    {
        self.owed = count;
        self.block = block;
    }

    /// A line asks for events. Told is how many lines are due then.
    pub(crate) fn ask(&mut self, request: &Request<'_>) -> Result<u32, OutOfMemory>
        requires settled { IsSettled self.old }
        requires count { self.old.reporter.count + length (events_of request.now) < 2 ^ 64 }
        ensures stands { OnOk result ((c : Settings) (log : Log) → Stands c log self.old
            → Stands c (asking log (events_of request.now)) self.new) }
        ensures answers { IfOk result (λ count. AreAnswers (due self.new) count) }
        ensures count { OnOk result (self.new.reporter.count + self.new.owed
            ≡ self.old.reporter.count + length (events_of request.now)) }
    {
        match request {
            Request::Send(connection, valid) => {
                self.send(*connection, write_command(&valid.command).as_slice())
            }
            Request::Packet(connection, digits) => {
                self.send(*connection, bytes_in(digits).as_slice())
            }
            Request::Take(connection) => self.take(*connection),
            Request::Steps(count, block) => {
                self.owe(*count, *block);
                Ok(0)
            }
            Request::Look => self.look(),
        }
    }

    /// All that is due was told.
    pub(crate) fn tell_all(&mut self)
        ensures kept { self.new ≡ record self.old { told = self.new.told } }
        ensures none { due self.new ≡ [] }
        ensures count { self.new.reporter.count + self.new.owed ≡ self.old.reporter.count + self.old.owed }
    {
        self.told = self.reporter.lines().len();
    }
}
