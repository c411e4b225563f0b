// Two hosts and a controller that talk.

ghost use Rattle.std.specs.Prelude.{◌≡◌, ◌+◌, ◌≤◌, ◌∷◌, ◌++◌, ℕ, [], length, option_to_list, Some, IfOk};
ghost use Rattle.mscp_sim.specs.Common.{IsValid, Both, Account, Goes, GoesOn, AreTwoEnds, Match, HasRoom};

use crate::hosts::Hosts;
use arrayvec::ArrayVec;
use mscp_controller::{
    Block, Config, Connection, Controller, Entry, Event, OutOfMemory, Picker, Report, Sent,
    controllers_keep_the_promise, runs_keep_the_promise,
};
use mscp_host::{HostFault, News, Poll};
use mscp_packet::Command;
use std::alloc::{Allocator, Global};

/// What comes next in a talk.
#[derive(Clone, Copy)]
pub enum Turn {
    /// The connection's host submits this command, and its message comes to the controller.
    Submit(Connection, Command),
    /// It polls its oldest command that isn't answered when it arrives, under this reference number.
    Poll(Connection, u32),
    /// The controller serves one block, with this outcome.
    Step(Block),
    /// The connection's host is handed the oldest end that the controller has for it.
    Take(Connection),
}

/// What is heard in a turn.
#[derive(Clone, Copy)]
pub enum Heard {
    /// The host refuses to submit or to poll.
    Refused(HostFault),
    /// What became of the message.
    Submitted(Sent),
    /// The poll was sent.
    Asked,
    /// There is nothing to poll.
    Nothing,
    /// The end of a poll is still to come.
    Busy,
    /// What the step did.
    Stepped(Report),
    /// What the host says of the end.
    News(News),
    /// There was no end.
    Quiet,
}

/// What was heard, in each turn, and what came to the controller and what it answered.
#[derive(Drop)]
pub struct Talk<A: Allocator = Global> {
    pub heard: Vec<Heard, A>,
    pub trace: Vec<(Event, Entry), A>,
}

/// A message of at most 48 bytes of a connection in the room of an event.
fn event_of(connection: Connection, message: &[u8]) -> Event
    requires { length message.now ≤ 64 }
    ensures { result ≡ Event.Send connection (record { items = message.now }) }
{
    let mut all = ArrayVec::new();
    all.try_extend_from_slice(message).unwrap();
    Event::Send(connection, all)
}

/// The connection's host submits a command, and its message comes to the controller.
fn submit<K: Picker>(
    hosts: &mut Hosts,
    controller: &mut Controller<K>,
    connection: Connection,
    command: Command,
) -> (Heard, Option<(Event, Entry)>)
    requires { Match hosts.old controller.old }
    ensures { Goes (K.picks controller.old.picker) hosts.old controller.old (Turn.Submit connection command) result
        hosts.new controller.new }
{
    match hosts.submit(connection, &command) {
        Err(fault) => (Heard::Refused(fault), None),
        Ok(message) => match controller.send(connection, &message) {
            Ok(sent) => (
                Heard::Submitted(sent),
                Some((
                    event_of(connection, &message),
                    Entry::Sent(connection, Ok(sent)),
                )),
            ),
            Err(_) => unreachable!(),
        },
    }
}

/// The connection's host polls its oldest command, and the poll comes to the controller.
fn poll<K: Picker>(
    hosts: &mut Hosts,
    controller: &mut Controller<K>,
    connection: Connection,
    reference: u32,
) -> (Heard, Option<(Event, Entry)>)
    requires { Match hosts.old controller.old }
    ensures { Goes (K.picks controller.old.picker) hosts.old controller.old (Turn.Poll connection reference) result
        hosts.new controller.new }
{
    match hosts.poll(connection, reference) {
        Err(fault) => (Heard::Refused(fault), None),
        Ok(Poll::Nothing) => (Heard::Nothing, None),
        Ok(Poll::Busy) => (Heard::Busy, None),
        Ok(Poll::Ask(message)) => match controller.send(connection, &message) {
            Ok(sent) => (
                Heard::Asked,
                Some((
                    event_of(connection, &message),
                    Entry::Sent(connection, Ok(sent)),
                )),
            ),
            Err(_) => unreachable!(),
        },
    }
}

/// The connection's host is handed the oldest end that the controller has for it, if there is one.
fn hand_over<K: Picker>(
    hosts: &mut Hosts,
    controller: &mut Controller<K>,
    connection: Connection,
) -> (Heard, Option<(Event, Entry)>)
    requires { Match hosts.old controller.old }
    ensures { Goes (K.picks controller.old.picker) hosts.old controller.old (Turn.Take connection) result hosts.new
        controller.new }
{
    match controller.take(connection) {
        None => (
            Heard::Quiet,
            Some((Event::Take(connection), Entry::Taken(connection, None))),
        ),
        Some(bytes) => match hosts.receive(connection, &bytes) {
            Ok(news) => (
                Heard::News(news),
                Some((
                    Event::Take(connection),
                    Entry::Taken(connection, Some(bytes)),
                )),
            ),
            Err(_) => unreachable!(),
        },
    }
}

/// What is heard of a step, and its moment.
fn told_of_step(block: &Block, report: &Report) -> (Heard, Option<(Event, Entry)>)
    ensures { result ≡ (Heard.Stepped report.now, Some (Event.Step block.now, Entry.Stepped report.now)) }
{
    (
        Heard::Stepped(*report),
        Some((Event::Step(*block), Entry::Stepped(*report))),
    )
}

/// The controller serves one block, with this outcome. The hosts have no part in it.
fn step<K: Picker>(controller: &mut Controller<K>, block: Block) -> (Heard, Option<(Event, Entry)>)
    ensures { (hosts : Both Account) → Match hosts controller.old
        → Goes (K.picks controller.old.picker) hosts controller.old (Turn.Step block) result hosts controller.new }
{
    let report = controller.step(block);
    told_of_step(&block, &report)
}

/// What is heard in a turn, and what came to the controller and what it answered, if something came.
fn hear<K: Picker>(
    hosts: &mut Hosts,
    controller: &mut Controller<K>,
    turn: Turn,
) -> (Heard, Option<(Event, Entry)>)
    requires { Match hosts.old controller.old }
    ensures { Goes (K.picks controller.old.picker) hosts.old controller.old turn result hosts.new controller.new }
{
    match turn {
        Turn::Submit(connection, command) => submit(hosts, controller, connection, command),
        Turn::Poll(connection, reference) => poll(hosts, controller, connection, reference),
        Turn::Step(block) => step(controller, block),
        Turn::Take(connection) => hand_over(hosts, controller, connection),
    }
}

impl<A: Allocator> Talk<A> {
    /// Keeps what was heard in a turn, and its moment, if it made one.
    fn keep(&mut self, heard: Heard, moment: Option<(Event, Entry)>)
        requires { HasRoom self.old 1 }
        ensures heard { self.new.heard.items ≡ self.old.heard.items ++ heard ∷ [] }
        ensures trace { self.new.trace.items ≡ self.old.trace.items ++ option_to_list moment }
        ensures room { (turns : ℕ) → HasRoom self.old (turns + 1) → HasRoom self.new turns }
    {
        self.heard.push_reserved(heard);
        if let Some(moment) = moment {
            self.trace.push_reserved(moment);
        }
    }
}

/// What is heard in the turns, one after the other. There is room, so it can't fail.
fn hear_each<K: Picker, A: Allocator>(
    hosts: &mut Hosts,
    controller: &mut Controller<K>,
    turns: &[Turn],
    talk: &mut Talk<A>,
)
    requires both { Match hosts.old controller.old }
    requires room { HasRoom talk.old (length turns.now) }
    ensures { GoesOn (K.picks controller.old.picker) hosts.old controller.old turns.now
        (talk.old.heard.items, talk.old.trace.items)
        (talk.new.heard.items, talk.new.trace.items) hosts.new controller.new }
{
    for turn in turns {
        let (heard, moment) = hear(hosts, controller, *turn);
        talk.keep(heard, moment);
    }
}

/// `converse` over any allocator, of which both lists of the talk take memory.
///
/// # Errors
///
/// `OutOfMemory` if memory runs out.
pub fn converse_in<K: Picker + Drop, A: Allocator + Copy>(
    alloc: A,
    config: Config,
    picker: K,
    turns: &[Turn],
) -> Result<Talk<A>, OutOfMemory>
    ensures valid { IsValid config }
    ensures talk { IfOk result (λ talk.
        AreTwoEnds (K.picks picker) config turns.now talk.heard.items talk.trace.items) }
{
    controllers_keep_the_promise(&picker);
    runs_keep_the_promise(&picker);
    let mut hosts = Hosts::new(&config);
    let mut controller = Controller::new(config, picker);
    let mut talk = Talk {
        heard: Vec::with_capacity(alloc, turns.len())?,
        trace: Vec::with_capacity(alloc, turns.len())?,
    };
    hear_each(&mut hosts, &mut controller, turns, &mut talk);
    Ok(talk)
}

/// New hosts talk with a new controller, one on each connection, with as many credits as the connection has: one thing
/// is heard in each turn. Where there is no second connection its host has no credit: it refuses each command, has
/// nothing to poll, and hears of no end. Each message of a host comes to the controller at once, and a take hands the
/// oldest end that the controller has for a connection to its host. Whatever the picker picks, the controller refuses
/// no message, and no host an end; a host says Reset exactly where the answer of a poll stands, never where a step lies
/// between any two polls about one command, and it never says Lost. Memory is asked for before the first turn, and
/// nothing is heard where it is refused.
///
/// # Errors
///
/// `OutOfMemory` if memory runs out.
pub fn converse<K: Picker + Drop>(
    alloc: Global,
    config: Config,
    picker: K,
    turns: &[Turn],
) -> Result<Talk, OutOfMemory>
    ensures valid { IsValid config }
    ensures talk { IfOk result (λ talk.
        AreTwoEnds (K.picks picker) config turns.now talk.heard.items talk.trace.items) }
{
    converse_in(alloc, config, picker, turns)
}
