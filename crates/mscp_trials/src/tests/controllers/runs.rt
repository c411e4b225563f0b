// Runs of three events and of many, and the memory that they ask for.

use crate::tests::moments::Moments;
use crate::tests::values::{FIRST, config};
use arrayvec::ArrayVec;
use mscp_controller::{Entry, Event};
use mscp_queue::{Block, Oldest, Report};

#[test]
fn run_finds_memory(rt: HostRuntime) {
    let rt = &rt;
    let mut moments = Moments::new(rt);
    moments.takes_nothing(rt, FIRST);
    moments.steps(rt, Block::Good, Report::Idle);
    moments.push(rt, Event::Look, Entry::Looked(ArrayVec::new()));
    moments.are_run(rt, config(rt, 4, 16), Oldest);
}

#[test]
fn long_run_finds_memory(rt: HostRuntime) {
    let rt = &rt;
    let mut moments = Moments::new(rt);
    for _moment in 0..100_000 {
        moments.takes_nothing(rt, FIRST);
    }
    moments.are_run(rt, config(rt, 4, 16), Oldest);
}
