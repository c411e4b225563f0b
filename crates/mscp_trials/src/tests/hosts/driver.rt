// A driver's loop, as docs/HOST.md has it, and what it does.

use super::{answer, read_end, status_bytes};
use crate::tests::checks::{holds, same};
use arrayvec::ArrayVec;
use mscp_host::{Host, HostFault, News, Poll};
use mscp_packet::{Command, End, MoveKind, Order, write_end};
use std::process::Abort;

/// A driver of one controller.
#[derive(Drop)]
struct Driver {
    host: Host,
    last: u32,
}

/// What is to be done next.
#[derive(Clone, Copy)]
enum Deed {
    /// Nothing.
    Wait,
    /// Tell the one who asked for this command how it ended.
    Complete(End),
    /// Reset the controller and submit anew what has not ended.
    Resynchronise,
}

impl Driver {
    /// The next command reference number.
    fn number(&mut self) -> u32 {
        self.last = self.last.wrapping_add(1);
        self.last
    }

    /// The message of a READ, for the port; or none, if it has to wait for a credit.
    fn read(&mut self, count: u32, block: u32) -> Option<ArrayVec<u8, 48>> {
        let command = Command {
            reference: self.number(),
            unit: 0,
            order: Order::Move(MoveKind::Read, count, block),
        };
        self.host.submit(&command).ok()
    }

    /// The controller timeout has passed since this was called before: the message of a poll, for the port, if one is
    /// to be sent; and what is to be done.
    fn on_timer(&mut self) -> (Option<ArrayVec<u8, 48>>, Deed) {
        let number = self.number();
        match self.host.poll(number) {
            Ok(Poll::Ask(message)) => (Some(message), Deed::Wait),
            Ok(Poll::Nothing) => (None, Deed::Wait),
            // A whole timeout, and the controller didn't answer.
            Ok(Poll::Busy) => (None, Deed::Resynchronise),
            // The number has come round and is outstanding: the next one does.
            Err(HostFault::Doubled) => (None, Deed::Wait),
            // All credits are held by commands that are answered when they arrive, for a whole timeout.
            Err(_) => (None, Deed::Resynchronise),
        }
    }

    /// The port has an end.
    fn on_end(&mut self, bytes: &[u8]) -> Deed {
        match self.host.receive(bytes) {
            Ok(News::Ended(end)) => Deed::Complete(end),
            // The controller works on it: look again when the timer goes off.
            Ok(News::First(_)) => Deed::Wait,
            Ok(News::Progress(_)) => Deed::Wait,
            // The command has ended in the meantime.
            Ok(News::Late) => Deed::Wait,
            // The controller doesn't work on it, or has forgotten it.
            Ok(News::Reset) => Deed::Resynchronise,
            Ok(News::Lost) => Deed::Resynchronise,
            // No end of ours: the controller is out of step.
            Err(_) => Deed::Resynchronise,
        }
    }
}

fn new_driver(rt: &impl Abort) -> Driver {
    Driver {
        host: Host::new(4).expect(rt, "2 to 64 credits"),
        last: 0,
    }
}

/// What is to be done, in a word, and the bytes of the end that is told.
fn told(deed: &Deed) -> (&'static str, Option<ArrayVec<u8, 48>>) {
    match deed {
        Deed::Wait => ("wait", None),
        Deed::Complete(end) => ("complete", Some(write_end(end))),
        Deed::Resynchronise => ("resynchronise", None),
    }
}

/// A driver whose READ 1 of blocks 40 and 41 was sent.
fn reading(rt: &impl Abort) -> Driver {
    let mut driver = new_driver(rt);
    holds(rt, driver.read(1024, 40).is_some());
    driver
}

/// The timer goes off: the poll of this number is to be sent, and the driver waits.
fn polls(rt: &impl Abort, driver: &mut Driver, number: u8) {
    let (poll, deed) = driver.on_timer();
    let poll = poll.expect(rt, "a poll");
    same(rt, poll.as_slice(), status_bytes(number, 1).as_slice());
    holds(rt, matches!(deed, Deed::Wait));
}

/// The timer goes off: no poll is to be sent, and the driver does this.
fn times_out(rt: &impl Abort, driver: &mut Driver, wanted: Deed) {
    let (poll, deed) = driver.on_timer();
    holds(rt, poll.is_none());
    same(rt, told(&deed), told(&wanted));
}

/// This end comes, and the driver does this.
fn gets(rt: &impl Abort, driver: &mut Driver, end: End, wanted: Deed) {
    let deed = driver.on_end(write_end(&end).as_slice());
    same(rt, told(&deed), told(&wanted));
}

#[test]
fn a_driver_waits_while_the_figure_falls(rt: HostRuntime) {
    let rt = &rt;
    let mut driver = reading(rt);
    polls(rt, &mut driver, 2);
    gets(rt, &mut driver, answer(2, 1, 18), Deed::Wait);
    polls(rt, &mut driver, 3);
    gets(rt, &mut driver, answer(3, 1, 1), Deed::Wait);
    gets(rt, &mut driver, read_end(1), Deed::Complete(read_end(1)));
    times_out(rt, &mut driver, Deed::Wait);
}

/// Of a READ the figure 18 was told, and then comes this answer: the driver resynchronises.
fn resynchronises(rt: &impl Abort, told: End) {
    let mut driver = reading(rt);
    polls(rt, &mut driver, 2);
    gets(rt, &mut driver, answer(2, 1, 18), Deed::Wait);
    polls(rt, &mut driver, 3);
    gets(rt, &mut driver, told, Deed::Resynchronise);
}

// Its figure stands, it has forgotten the command, it answers for another one, or it doesn't answer.
#[test]
fn a_driver_resynchronises_where_the_controller_stands(rt: HostRuntime) {
    let rt = &rt;
    resynchronises(rt, answer(3, 1, 18));
    resynchronises(rt, answer(3, 1, 0));
    resynchronises(rt, answer(3, 7, 5));
    let mut silent = reading(rt);
    polls(rt, &mut silent, 2);
    times_out(rt, &mut silent, Deed::Resynchronise);
}
