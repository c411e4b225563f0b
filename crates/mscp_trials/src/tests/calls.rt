// A controller on trial: a call each, and what it answers.

use super::told::{answer, step};
use super::values::FIRST;
use crate::tests::checks::{holds, same};
use mscp_controller::{Block, Config, Connection, Controller, Picker, Report, Sent};
use mscp_packet::{Command, Order, write_command};
use std::process::Abort;

/// A controller. Who is told of a wrong answer is handed in at each call: a field of it would make each call dearer.
#[derive(Drop)]
pub struct Trial<K> {
    pub controller: Controller<K>,
}

impl<K: Picker> Trial<K> {
    /// A new controller whose unit 0 is online.
    pub fn online(rt: &impl Abort, config: Config, picker: K) -> Trial<K> {
        let controller = Controller::new(config, picker);
        let mut trial = Trial { controller };
        trial.bring_online(rt, 0);
        trial
    }

    /// The command waits.
    pub fn queues(&mut self, rt: &impl Abort, connection: Connection, command: &Command) {
        let message = write_command(command);
        let sent = self.controller.send(connection, message.as_slice());
        let wanted = Ok(Sent::Queued(command.reference));
        same(rt, answer(&sent), answer(&wanted));
    }

    /// Each end was taken.
    pub fn takes_nothing(&mut self, rt: &impl Abort, connection: Connection) {
        holds(rt, self.controller.take(connection).is_none());
    }

    /// A step with this block does this.
    pub fn steps(&mut self, rt: &impl Abort, block: Block, report: Report) {
        same(rt, step(&self.controller.step(block)), step(&report));
    }

    /// The command has this figure.
    pub fn has_figure(&self, rt: &impl Abort, connection: Connection, reference: u32, figure: u32) {
        same(rt, self.controller.figure(connection, reference), figure);
    }

    /// Brings a unit online, and takes the end.
    pub fn bring_online(&mut self, rt: &impl Abort, unit: u16) {
        let online = Command {
            reference: 900,
            unit,
            order: Order::Online,
        };
        self.queues(rt, FIRST, &online);
        let _report = self.controller.step(Block::Good);
        holds(rt, self.controller.take(FIRST).is_some());
    }
}
