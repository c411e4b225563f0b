// Moments of a run: each event, and what it answers.

use super::told::{entry, event};
use super::values::FIRST;
use crate::tests::checks::{got, same, same_of};
use arrayvec::ArrayVec;
use mscp_controller::{Block, Config, Connection, Entry, Event, Picker, Report, Sent, run};
use std::process::Abort;

/// Bytes in the room of a message or an end.
fn bytes_of<const ROOM: usize>(rt: &impl Abort, bytes: &[u8]) -> ArrayVec<u8, ROOM> {
    let mut all = ArrayVec::new();
    all.try_extend_from_slice(bytes).expect(rt, "room");
    all
}

/// A message of this connection comes.
pub fn event_of(rt: &impl Abort, connection: Connection, message: &[u8]) -> Event {
    Event::Send(connection, bytes_of(rt, message))
}

/// Moments, one after the other.
#[derive(Drop)]
pub struct Moments {
    list: Vec<(Event, Entry)>,
}

impl Moments {
    /// None so far.
    pub fn new(rt: &impl AllocGlobal) -> Moments {
        Moments {
            list: Vec::new(rt.alloc()),
        }
    }

    /// These.
    pub fn of(list: Vec<(Event, Entry)>) -> Moments {
        Moments { list }
    }

    /// Then this event comes, and answers so.
    pub fn push(&mut self, rt: &impl Abort, event: Event, entry: Entry) {
        got(rt, self.list.push((event, entry)));
    }

    /// Then the first connection's host sends a message, to which this is said.
    fn sends(&mut self, rt: &impl Abort, message: &[u8], sent: Sent) {
        let event = event_of(rt, FIRST, message);
        self.push(rt, event, Entry::Sent(FIRST, Ok(sent)));
    }

    /// Then its command waits.
    pub fn queues(&mut self, rt: &impl Abort, reference: u32, message: &[u8]) {
        self.sends(rt, message, Sent::Queued(reference));
    }

    /// Then its command has its end at once, and aborts none.
    pub fn answers(&mut self, rt: &impl Abort, reference: u32, message: &[u8]) {
        let aborted = None;
        self.sends(rt, message, Sent::Answered { reference, aborted });
    }

    /// Then it takes an end.
    pub fn takes(&mut self, rt: &impl Abort, end: &[u8]) {
        let taken = Entry::Taken(FIRST, Some(bytes_of(rt, end)));
        self.push(rt, Event::Take(FIRST), taken);
    }

    /// Then the connection's host takes nothing.
    pub fn takes_nothing(&mut self, rt: &impl Abort, connection: Connection) {
        let taken = Entry::Taken(connection, None);
        self.push(rt, Event::Take(connection), taken);
    }

    /// Then a step does this.
    pub fn steps(&mut self, rt: &impl Abort, block: Block, report: Report) {
        self.push(rt, Event::Step(block), Entry::Stepped(report));
    }

    /// All of them are these.
    pub fn are(&self, rt: &impl Abort, trace: &[(Event, Entry)]) {
        same(rt, trace.len(), self.list.len());
        for (place, (made, wanted)) in trace.iter().zip(&self.list).enumerate() {
            same_of(rt, place, event(&made.0), event(&wanted.0));
            same_of(rt, place, entry(&made.1), entry(&wanted.1));
        }
    }

    /// The events, and what they answer.
    fn split(self, rt: &(impl Abort + AllocGlobal)) -> (Vec<Event>, Vec<Entry>) {
        let mut events = Vec::new(rt.alloc());
        let mut entries = Vec::new(rt.alloc());
        for (event, entry) in self.list {
            got(rt, events.push(event));
            got(rt, entries.push(entry));
        }
        (events, entries)
    }

    /// A run of the events answers just so.
    pub fn are_run<K: Picker + Drop>(
        self,
        rt: &(impl Abort + AllocGlobal),
        config: Config,
        picker: K,
    ) {
        let (events, entries) = self.split(rt);
        let ran = got(rt, run(rt.alloc(), config, picker, events.as_slice()));
        same(rt, ran.len(), entries.len());
        for (place, (made, wanted)) in ran.iter().zip(&entries).enumerate() {
            same_of(rt, place, entry(made), entry(wanted));
        }
    }
}
