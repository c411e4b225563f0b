// Talks of two hosts and a controller.

mod paired;

use super::moments::Moments;
use super::told::heard;
use super::values::*;
use crate::tests::checks::{same, same_of};
use mscp_controller::{Block, Connection, Report, Sent, Sweep};
use mscp_host::{HostFault, News};
use mscp_packet::{Command, End, Order};
use mscp_sim::{Heard, Talk, Turn, converse};
use std::process::Abort;

/// The talk of these turns with a controller of 4 credits on the first connection and so many on the second, of unit 0,
/// in which a command may be passed by 16 blocks.
fn talk_of(rt: &(impl Abort + AllocGlobal), second: u32, turns: &[Turn]) -> Talk {
    let config = limits(rt, (4, second), 16, &[unit(rt, 0)]);
    converse(rt.alloc(), config, Sweep, turns)
        .ok()
        .expect(rt, "memory")
}

/// Turns of a talk, and what is heard in each.
#[derive(Drop)]
struct Told {
    turns: Vec<Turn>,
    heard: Vec<Heard>,
}

impl Told {
    /// None so far.
    fn new(rt: &impl AllocGlobal) -> Told {
        Told {
            turns: Vec::new(rt.alloc()),
            heard: Vec::new(rt.alloc()),
        }
    }

    /// Unit 0 comes online.
    fn online(rt: &(impl Abort + AllocGlobal)) -> Told {
        let mut told = Told::new(rt);
        let end = online_ended(9);
        let report = served(FIRST, 9, None, true, 0, Some(end));
        told.queues(rt, FIRST, ONLINE);
        told.steps(rt, report);
        told.takes(rt, FIRST, Heard::News(News::Ended(end)));
        told
    }

    /// In this turn this is heard.
    fn hears(&mut self, rt: &impl Abort, turn: Turn, heard: Heard) {
        self.turns.push(turn).ok().expect(rt, "memory");
        self.heard.push(heard).ok().expect(rt, "memory");
    }

    /// A command is submitted, and waits.
    fn queues(&mut self, rt: &impl Abort, connection: Connection, command: Command) {
        let heard = Heard::Submitted(Sent::Queued(command.reference));
        self.hears(rt, Turn::Submit(connection, command), heard);
    }

    /// A command isn't submitted.
    fn refuses(
        &mut self,
        rt: &impl Abort,
        connection: Connection,
        command: Command,
        fault: HostFault,
    ) {
        let turn = Turn::Submit(connection, command);
        self.hears(rt, turn, Heard::Refused(fault));
    }

    /// A poll of this number is this.
    fn polls(&mut self, rt: &impl Abort, connection: Connection, reference: u32, heard: Heard) {
        self.hears(rt, Turn::Poll(connection, reference), heard);
    }

    /// An end is taken, or none.
    fn takes(&mut self, rt: &impl Abort, connection: Connection, heard: Heard) {
        self.hears(rt, Turn::Take(connection), heard);
    }

    /// A poll of this number is sent, and its end says this.
    fn is_told(&mut self, rt: &impl Abort, reference: u32, news: News) {
        self.polls(rt, FIRST, reference, Heard::Asked);
        self.takes(rt, FIRST, Heard::News(news));
    }

    /// A step with a good block does this.
    fn steps(&mut self, rt: &impl Abort, report: Report) {
        self.hears(rt, Turn::Step(Block::Good), Heard::Stepped(report));
    }

    /// Just this is heard, where the second connection has so many credits. What came to the controller is given back.
    fn talk(&self, rt: &(impl Abort + AllocGlobal), second: u32) -> Talk {
        let talk = talk_of(rt, second, self.turns.as_slice());
        same(rt, talk.heard.len(), self.heard.len());
        for (turn, (made, wanted)) in talk.heard.iter().zip(&self.heard).enumerate() {
            same_of(rt, turn, heard(made), heard(wanted));
        }
        talk
    }

    /// The same of one connection, where something comes to the controller in each turn.
    fn is_heard(&self, rt: &(impl Abort + AllocGlobal)) {
        let talk = self.talk(rt, 0);
        same(rt, talk.trace.len(), self.turns.len());
    }
}

/// ONLINE of command 9.
const ONLINE: Command = Command {
    reference: 9,
    unit: 0,
    order: Order::Online,
};

/// READ of 1024 bytes, which are two blocks, at block 40.
fn two(reference: u32) -> Command {
    read(reference, 1024, 40)
}

/// The end of READ 1.
fn two_ended() -> End {
    read_ended(1, 0, 1024)
}

/// A step of READ 1, its first, for which the head crosses so many cylinders.
fn first(seek: u32) -> Report {
    served(FIRST, 1, Some(40), true, seek, None)
}

/// Its last.
fn last() -> Report {
    served(FIRST, 1, Some(41), false, 0, Some(two_ended()))
}

#[test]
fn an_answer_that_stands_is_reset(rt: HostRuntime) {
    let rt = &rt;
    let mut told = Told::online(rt);
    told.queues(rt, FIRST, two(1));
    told.is_told(rt, 10, News::First(18));
    told.is_told(rt, 11, News::Reset);
    told.is_heard(rt);
}

#[test]
fn converse_finds_memory(rt: HostRuntime) {
    let rt = &rt;
    let mut told = Told::online(rt);
    told.queues(rt, FIRST, two(1));
    told.is_told(rt, 10, News::First(18));
    told.steps(rt, first(2));
    told.is_told(rt, 11, News::Progress(1));
    told.steps(rt, last());
    told.is_told(rt, 12, News::Ended(two_ended()));
    told.takes(rt, FIRST, Heard::News(News::Late));
    told.is_heard(rt);
}

/// Polls and commands of which not all reach the controller, and what is heard of them.
fn with_some_refused(rt: &(impl Abort + AllocGlobal)) -> Told {
    let mut told = Told::new(rt);
    told.polls(rt, FIRST, 10, Heard::Nothing);
    told.takes(rt, FIRST, Heard::Quiet);
    told.queues(rt, FIRST, two(1));
    told.polls(rt, FIRST, 10, Heard::Asked);
    told.polls(rt, FIRST, 11, Heard::Busy);
    told.refuses(rt, FIRST, two(1), HostFault::Doubled);
    told.queues(rt, FIRST, two(2));
    told.refuses(rt, FIRST, two(3), HostFault::LastCredit);
    told.takes(rt, FIRST, Heard::News(News::First(18)));
    told
}

#[test]
fn says_what_never_reaches_the_controller(rt: HostRuntime) {
    let rt = &rt;
    let mut came = Moments::new(rt);
    came.takes_nothing(rt, FIRST);
    came.queues(rt, 1, &read_message(1, 0, 1024, 40));
    came.answers(rt, 10, b"\x0a\0\0\0\0\0\0\0\x02\0\0\0\x01\0\0\0");
    came.queues(rt, 2, &read_message(2, 0, 1024, 40));
    came.takes(rt, b"\x0a\0\0\0\0\0\0\0\x82\0\0\0\x01\0\0\0\x12\0\0\0");
    came.are(rt, with_some_refused(rt).talk(rt, 0).trace.as_slice());
}
