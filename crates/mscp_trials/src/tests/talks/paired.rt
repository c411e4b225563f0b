// Two hosts that talk with one controller, and one whose connection isn't there.

use super::*;
use crate::tests::values::{abort_ended, command};

/// READ 1 of 1024 bytes, which are two blocks, at this block.
fn two_at(block: u32) -> Command {
    read(1, 1024, block)
}

/// Each of them has a READ 1, and polls it under this number. The ends say this to the first and to the second.
fn both_poll(rt: &impl Abort, told: &mut Told, reference: u32, first: News, second: News) {
    told.polls(rt, FIRST, reference, Heard::Asked);
    told.polls(rt, SECOND, reference, Heard::Asked);
    told.takes(rt, SECOND, Heard::News(second));
    told.takes(rt, FIRST, Heard::News(first));
}

/// The first host aborts its READ, of which one block was read. The second hears nothing of it.
fn first_aborts(rt: &impl Abort, told: &mut Told) {
    let abort = command(2, Order::Abort(1));
    let answered = Sent::Answered {
        reference: 2,
        aborted: Some(1),
    };
    let read = News::Ended(read_ended(1, 2, 512));
    let own = News::Ended(abort_ended(2, 1));
    told.hears(rt, Turn::Submit(FIRST, abort), Heard::Submitted(answered));
    told.takes(rt, SECOND, Heard::Quiet);
    told.takes(rt, FIRST, Heard::News(read));
    told.takes(rt, FIRST, Heard::News(own));
    told.polls(rt, FIRST, 12, Heard::Nothing);
}

/// The second host's READ is served to its end. The first hears nothing of it.
fn second_is_served(rt: &impl Abort, told: &mut Told) {
    let first = served(SECOND, 1, Some(60), true, 1, None);
    let last = served(SECOND, 1, Some(61), false, 0, Some(two_ended()));
    told.steps(rt, first);
    told.polls(rt, SECOND, 12, Heard::Asked);
    told.takes(rt, SECOND, Heard::News(News::Progress(1)));
    told.steps(rt, last);
    told.takes(rt, FIRST, Heard::Quiet);
    told.takes(rt, SECOND, Heard::News(News::Ended(two_ended())));
    told.polls(rt, SECOND, 13, Heard::Nothing);
}

// A step lies between any two polls of one command.
#[test]
fn each_host_has_its_own_commands(rt: HostRuntime) {
    let rt = &rt;
    let mut told = Told::online(rt);
    told.queues(rt, FIRST, two_at(40));
    told.queues(rt, SECOND, two_at(60));
    both_poll(rt, &mut told, 10, News::First(18), News::First(20));
    told.steps(rt, first(2));
    both_poll(rt, &mut told, 11, News::Progress(1), News::Progress(19));
    first_aborts(rt, &mut told);
    second_is_served(rt, &mut told);
    let _talk = told.talk(rt, 4);
}

// A host that has no connection has no credit, nothing to poll, and no end. Its take comes to the controller.
#[test]
fn an_absent_host_sends_nothing(rt: HostRuntime) {
    let rt = &rt;
    let mut told = Told::new(rt);
    told.refuses(rt, SECOND, two_at(40), HostFault::NoCredit);
    told.polls(rt, SECOND, 10, Heard::Nothing);
    told.takes(rt, SECOND, Heard::Quiet);
    let mut came = Moments::new(rt);
    came.takes_nothing(rt, SECOND);
    came.are(rt, told.talk(rt, 0).trace.as_slice());
}
