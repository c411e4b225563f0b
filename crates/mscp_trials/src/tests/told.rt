// What values say, as words, numbers and bytes: tests compare these, and print them where they differ.

use super::values::SECOND;
use arrayvec::ArrayVec;
use mscp_controller::{Block, Connection, Entry, Event, Report, SendFault, Sent};
use mscp_host::News;
use mscp_packet::write_end;
use mscp_sim::Heard;

/// A step: whether its command is the second connection's, its number, unit and block, whether it is the first, how
/// many cylinders the head crosses, and the end that it brings.
pub type Step = (
    bool,
    u32,
    u16,
    Option<u32>,
    bool,
    u32,
    Option<ArrayVec<u8, 48>>,
);

/// What is said or heard: a word, a number, the number of a command that was aborted, an end, and a step.
pub type Told = (
    &'static str,
    u32,
    Option<u32>,
    Option<ArrayVec<u8, 48>>,
    Option<Step>,
);

/// A word, and a number.
fn word(word: &'static str, number: u32) -> Told {
    (word, number, None, None, None)
}

/// What a step did, if a command waits.
pub fn step(report: &Report) -> Option<Step> {
    let Report::Served {
        connection,
        reference,
        unit,
        lbn,
        started,
        seek,
        ended,
    } = report
    else {
        return None;
    };
    let end = ended.map(|end| write_end(&end));
    let second = is_second(connection);
    Some((second, *reference, *unit, *lbn, *started, *seek, end))
}

fn stepped(report: &Report) -> Told {
    ("stepped", 0, None, None, step(report))
}

/// What became of a message.
pub fn sent(sent: &Sent) -> Told {
    match *sent {
        Sent::Queued(reference) => word("queued", reference),
        Sent::Answered { reference, aborted } => ("answered", reference, aborted, None, None),
    }
}

/// The same, or why it is refused.
pub fn answer(answer: &Result<Sent, SendFault>) -> Told {
    match answer {
        Ok(said) => sent(said),
        Err(fault) => word("refused", *fault as u32),
    }
}

fn news(news: &News) -> Told {
    match *news {
        News::Ended(end) => ("ended", 0, None, Some(write_end(&end)), None),
        News::Progress(figure) => word("progress", figure),
        News::First(figure) => word("first", figure),
        News::Late => word("late", 0),
        News::Reset => word("reset", 0),
        News::Lost => word("lost", 0),
    }
}

/// What is heard in a turn.
pub fn heard(heard: &Heard) -> Told {
    match heard {
        Heard::Refused(fault) => word("refused", *fault as u32),
        Heard::Submitted(said) => sent(said),
        Heard::Asked => word("asked", 0),
        Heard::Nothing => word("nothing", 0),
        Heard::Busy => word("busy", 0),
        Heard::Stepped(report) => stepped(report),
        Heard::News(said) => news(said),
        Heard::Quiet => word("quiet", 0),
    }
}

fn copied(bytes: &ArrayVec<u8, 48>) -> ArrayVec<u8, 48> {
    let mut all = ArrayVec::new();
    let _ = all.try_extend_from_slice(bytes.as_slice());
    all
}

/// Whether it is of the second connection, and what a controller answers. Of a look the count is told.
pub fn entry(entry: &Entry) -> (bool, Told) {
    match entry {
        Entry::Sent(connection, said) => (is_second(connection), answer(said)),
        Entry::Taken(connection, end) => {
            let told = ("taken", 0, None, end.as_ref().map(copied), None);
            (is_second(connection), told)
        }
        Entry::Stepped(report) => (false, stepped(report)),
        Entry::Looked(list) => (false, word("looked", list.len() as u32)),
    }
}

/// What comes: whether it is of the second connection, a word, the status of a block, and a message.
pub fn event(event: &Event) -> (bool, &'static str, u16, &[u8]) {
    match event {
        Event::Send(connection, message) => (is_second(connection), "send", 0, message.as_slice()),
        Event::Take(connection) => (is_second(connection), "take", 0, &[]),
        Event::Step(Block::Good) => (false, "step", 0, &[]),
        Event::Step(Block::Bad(status)) => (false, "step", status.get(), &[]),
        Event::Look => (false, "look", 0, &[]),
    }
}

fn is_second(connection: &Connection) -> bool {
    *connection == SECOND
}
