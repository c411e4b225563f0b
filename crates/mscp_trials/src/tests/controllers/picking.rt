// Who is served, under one picker and under another.

use super::{Newest, Sweep};
use crate::tests::calls::Trial;
use crate::tests::checks::{same, same_of};
use crate::tests::values::{FIRST, command, limits, read, unit};
use mscp_controller::{Block, Connection, Oldest, Picker, Report};
use mscp_packet::{Command, Order};
use std::process::Abort;

/// A controller of two units with 8 credits, which may pass each command by so many blocks.
fn controller<K: Picker>(rt: &impl Abort, budget: u64, picker: K) -> Trial<K> {
    let config = limits(rt, (8, 0), budget, &[unit(rt, 0), unit(rt, 1)]);
    let mut trial = Trial::online(rt, config, picker);
    trial.bring_online(rt, 1);
    trial
}

/// A READ of one block.
fn one(reference: u32, unit: u16, block: u32) -> Command {
    Command {
        unit,
        ..read(reference, 512, block)
    }
}

impl<K: Picker> Trial<K> {
    /// These come.
    fn get(&mut self, rt: &impl Abort, commands: &[Command]) {
        for command in commands {
            self.queues(rt, FIRST, command);
        }
    }

    /// The command that a step serves, 0 if none waits.
    fn next(&mut self) -> u32 {
        match self.controller.step(Block::Good) {
            Report::Served { reference, .. } => reference,
            Report::Idle => 0,
        }
    }

    /// Four steps serve these.
    fn serves_each(&mut self, rt: &impl Abort, wanted: [u32; 4]) {
        for reference in wanted {
            same_of(rt, wanted, self.next(), reference);
        }
    }
}

/// Of these commands, with this budget, four steps serve these.
fn serves_of<K: Picker + Drop>(
    rt: &impl Abort,
    budget: u64,
    picker: K,
    commands: &[Command; 4],
    wanted: [u32; 4],
) {
    let mut trial = controller(rt, budget, picker);
    trial.get(rt, commands);
    trial.serves_each(rt, wanted);
}

// A SET UNIT CHARACTERISTICS stands between two reads of its unit, beside a read of another unit.
#[test]
fn a_fence_is_one_units(rt: HostRuntime) {
    let fence = command(2, Order::SetUnit);
    let fenced = [one(1, 0, 400), fence, one(3, 0, 0), one(4, 1, 0)];
    serves_of(&rt, 2, Oldest, &fenced, [1, 2, 3, 4]);
    serves_of(&rt, 2, Newest, &fenced, [4, 1, 2, 3]);
}

#[test]
fn a_command_is_passed_by_the_budget_at_most(rt: HostRuntime) {
    let reads = [one(1, 0, 0), one(2, 1, 0), one(3, 1, 0), one(4, 1, 0)];
    serves_of(&rt, 2, Oldest, &reads, [1, 2, 3, 4]);
    serves_of(&rt, 2, Newest, &reads, [4, 3, 1, 2]);
}

// The start of 3 passes 1 and 2, each by all of its budget. So 4, which comes then, passes neither.
#[test]
fn a_start_passes_every_earlier_command(rt: HostRuntime) {
    let mut newest = controller(&rt, 1, Newest);
    newest.get(&rt, &[one(1, 0, 0), one(2, 0, 0), one(3, 0, 0)]);
    same(&rt, newest.next(), 3);
    newest.queues(&rt, FIRST, &one(4, 0, 0));
    newest.serves_each(&rt, [1, 2, 4, 0]);
}

/// This command is in service, or none, and the most blocks by which a command was passed are so many.
fn is_serving(rt: &impl Abort, trial: &Trial<Sweep>, serving: Option<u32>, passed: u32) {
    let told = match trial.controller.serving() {
        Some((Connection::First, reference)) => Some(reference),
        _ => None,
    };
    let most = trial.controller.most_passed();
    same(rt, (told, most), (serving, passed));
}

// Of two READs, of one block and of four, the sweep starts the second, which passes the first by its four blocks.
#[test]
fn what_is_in_service_is_told(rt: HostRuntime) {
    let rt = &rt;
    let mut trial = controller(rt, 4, Sweep);
    same(rt, trial.controller.config().credits(), 8);
    trial.get(rt, &[one(1, 0, 800), read(2, 2048, 0)]);
    is_serving(rt, &trial, None, 0);
    same(rt, trial.next(), 2);
    is_serving(rt, &trial, Some(2), 4);
}
