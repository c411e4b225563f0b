// A run in which a command waits as long as the bound, written out.
//
// It asks no controller. So its trace is a second reading of the rules, and a test compares the two.

ghost use Rattle.std.specs.Prelude.{◌≡◌, ◌+◌, ◌-◌, ◌*◌, ◌^◌, ◌<◌, ◌≤◌, ◌∷◌, ◌++◌, [], is_some, vec_capacity, vec_len, IfOk, IfSome};
ghost use Rattle.mscp_control.specs.Common.{command_bytes, bound, room, IsLegal, WaitsTheBound, is_shown, block_before, come_on, handing, long_read, online_command, online_end, opened, pass_on, queueing, read_report, rest_on, runs_on, short_read, steps_on, worst_of};

use arrayvec::ArrayVec;
use mscp_controller::{Entry, Sent};
use mscp_drive::{Block, Config, Connection, Event, OutOfMemory, Unit};
use mscp_packet::status::SUCCESS;
use mscp_packet::{Command, End, EndBody, MoveKind, Order, write_command, write_end};
use mscp_queue::{Report, end_with};
use std::alloc::{Allocator, Global};

/// The greatest bound of which a run is written out.
const LONGEST: u64 = 100_000;

/// A READ of a unit: the connection that it comes by, its reference number, its bytes, its first block, and how many
/// blocks it takes.
#[derive(Clone, Copy)]
struct Transfer {
    connection: Connection,
    reference: u32,
    bytes: u32,
    first: u32,
    blocks: u32,
}

impl Transfer {
    ghost use Rattle.mscp_control.specs.Worst.{read_command, read_end};

    /// The command, to this unit.
    fn command(self, unit: &Unit) -> Command
        ensures { result ≡ read_command unit.now self }
    {
        Command {
            reference: self.reference,
            unit: unit.number(),
            order: Order::Move(MoveKind::Read, self.bytes, self.first),
        }
    }

    /// Its end, once all its blocks were good.
    fn end(self, unit: &Unit) -> End
        ensures { result ≡ read_end unit.now self }
    {
        end_with(&self.command(unit), SUCCESS, EndBody::Moved(self.bytes))
    }
}

// ---- moments

/// Appends an event and what is answered to it.
fn push<A: Allocator>(trace: &mut Vec<(Event, Entry), A>, event: Event, entry: Entry)
    requires { vec_len trace.old < vec_capacity trace.old }
    ensures items { trace.new.items ≡ trace.old.items ++ (event, entry) ∷ [] }
    ensures len { vec_len trace.new ≡ vec_len trace.old + 1 }
    ensures same_room { vec_capacity trace.new ≡ vec_capacity trace.old }
{
    trace.push_reserved((event, entry));
}

/// The message of a command.
fn message_of(command: &Command) -> ArrayVec<u8, 64>
    ensures { result.items ≡ command_bytes command.now }
{
    let mut message = ArrayVec::new();
    message
        .try_extend_from_slice(write_command(command).as_slice())
        .unwrap();
    message
}

/// A command of the connection comes, and is queued.
fn push_queued<A: Allocator>(
    trace: &mut Vec<(Event, Entry), A>,
    connection: Connection,
    command: &Command,
)
    requires { vec_len trace.old < vec_capacity trace.old }
    ensures items { trace.new.items ≡ trace.old.items ++ queueing connection command.now ∷ [] }
    ensures len { vec_len trace.new ≡ vec_len trace.old + 1 }
    ensures same_room { vec_capacity trace.new ≡ vec_capacity trace.old }
{
    let sent = Ok(Sent::Queued(command.reference));
    push(
        trace,
        Event::Send(connection, message_of(command)),
        Entry::Sent(connection, sent),
    );
}

/// The connection takes this end.
fn push_taken<A: Allocator>(trace: &mut Vec<(Event, Entry), A>, connection: Connection, end: &End)
    requires { vec_len trace.old < vec_capacity trace.old }
    ensures items { trace.new.items ≡ trace.old.items ++ handing connection end.now ∷ [] }
    ensures len { vec_len trace.new ≡ vec_len trace.old + 1 }
    ensures same_room { vec_capacity trace.new ≡ vec_capacity trace.old }
{
    push(
        trace,
        Event::Take(connection),
        Entry::Taken(connection, Some(write_end(end))),
    );
}

/// A good step, with this report.
fn push_step<A: Allocator>(trace: &mut Vec<(Event, Entry), A>, report: Report)
    requires { vec_len trace.old < vec_capacity trace.old }
    ensures items { trace.new.items ≡ trace.old.items ++ (Event.Step Block.Good, Entry.Stepped report) ∷ [] }
    ensures len { vec_len trace.new ≡ vec_len trace.old + 1 }
    ensures same_room { vec_capacity trace.new ≡ vec_capacity trace.old }
{
    push(trace, Event::Step(Block::Good), Entry::Stepped(report));
}

// ---- the unit is brought online

fn online_command(unit: &Unit, reference: u32) -> Command
    ensures { result ≡ online_command unit.now reference }
{
    Command {
        reference,
        unit: unit.number(),
        order: Order::Online,
    }
}

fn online_end(unit: &Unit, reference: u32) -> End
    ensures { result ≡ online_end unit.now reference }
{
    let body = EndBody::Online {
        id: unit.id(),
        media: unit.media(),
        size: unit.size(),
        serial: unit.serial(),
    };
    end_with(&online_command(unit, reference), SUCCESS, body)
}

/// An ONLINE of this reference number comes, runs, and its end is taken.
fn push_opening<A: Allocator>(trace: &mut Vec<(Event, Entry), A>, unit: &Unit, reference: u32)
    requires empty { trace.old.items ≡ [] }
    requires room { vec_len trace.old + 3 ≤ vec_capacity trace.old }
    ensures items { trace.new.items ≡ opened unit.now reference }
    ensures len { vec_len trace.new ≡ vec_len trace.old + 3 }
    ensures same_room { vec_capacity trace.new ≡ vec_capacity trace.old }
{
    let end = online_end(unit, reference);
    let report = Report::Served {
        connection: Connection::First,
        reference,
        unit: unit.number(),
        lbn: None,
        started: true,
        seek: 0,
        ended: Some(end),
    };
    push_queued(trace, Connection::First, &online_command(unit, reference));
    push_step(trace, report);
    push_taken(trace, Connection::First, &end);
}

// ---- a READ

/// The block that the head is on before the step of the READ that comes after so many others of it.
fn block_before(read: Transfer, from: u32, after: u32) -> u32
    requires { read.first + after < 2 ^ 32 }
    ensures { result ≡ block_before read from after }
{
    if after == 0 {
        from
    } else {
        read.first + after - 1
    }
}

/// What that step reports.
fn read_report(unit: &Unit, read: Transfer, from: u32, after: u32) -> Report
    requires { read.first + after < 2 ^ 32 }
    ensures { result ≡ read_report unit.now read from after }
{
    let block = read.first + after;
    let last = unit.cylinder(block_before(read, from, after));
    Report::Served {
        connection: read.connection,
        reference: read.reference,
        unit: unit.number(),
        lbn: Some(block),
        started: after == 0,
        seek: last.abs_diff(unit.cylinder(block)),
        ended: if read.blocks.saturating_sub(after) > 1 {
            None
        } else {
            Some(read.end(unit))
        },
    }
}

/// All its steps.
#[tactic(auto, using(crate::proofs::Longest::Builds::steps_next))]
fn push_steps<A: Allocator>(
    trace: &mut Vec<(Event, Entry), A>,
    unit: &Unit,
    read: Transfer,
    from: u32,
)
    requires fits { read.first + read.blocks ≤ 2 ^ 32 }
    requires room { vec_len trace.old + read.blocks ≤ vec_capacity trace.old }
    ensures items { trace.new.items ≡ steps_on unit.now read from trace.old.items read.blocks }
    ensures len { vec_len trace.new ≡ vec_len trace.old + read.blocks }
    ensures same_room { vec_capacity trace.new ≡ vec_capacity trace.old }
{
    for after in 0..read.blocks {
        push_step(trace, read_report(unit, read, from, after));
    }
}

/// All its steps, and its end is taken.
fn push_run<A: Allocator>(
    trace: &mut Vec<(Event, Entry), A>,
    unit: &Unit,
    read: Transfer,
    from: u32,
)
    requires fits { read.first + read.blocks ≤ 2 ^ 32 }
    requires room { vec_len trace.old + read.blocks < vec_capacity trace.old }
    ensures items { trace.new.items ≡ runs_on unit.now read from trace.old.items }
    ensures len { vec_len trace.new ≡ vec_len trace.old + read.blocks + 1 }
    ensures same_room { vec_capacity trace.new ≡ vec_capacity trace.old }
{
    push_steps(trace, unit, read, from);
    push_taken(trace, read.connection, &read.end(unit));
}

// ---- the whole

/// The READ of the longest transfer that comes after so many others.
fn long_read(config: &Config, before: u32) -> Transfer
    ensures { result ≡ long_read config.now before }
{
    let longest = config.longest();
    let first = config.credits() - 1;
    Transfer {
        connection: if before < first {
            Connection::First
        } else {
            Connection::Second
        },
        reference: before,
        bytes: 512 * (longest - 1) + 511,
        first: 0,
        blocks: longest,
    }
}

/// The READ that passes them.
fn short_read(config: &Config) -> Transfer
    ensures { result ≡ short_read config.now }
{
    Transfer {
        connection: Connection::First,
        reference: config.room(),
        bytes: 512,
        first: config.longest() - 1,
        blocks: 1,
    }
}

/// The long ones come, as many as may wait.
fn push_all<A: Allocator>(trace: &mut Vec<(Event, Entry), A>, config: &Config, unit: &Unit)
    requires { vec_len trace.old + room config.now ≤ vec_capacity trace.old }
    ensures items { trace.new.items ≡ come_on config.now unit.now trace.old.items (room config.now) }
    ensures len { vec_len trace.new ≡ vec_len trace.old + room config.now }
    ensures same_room { vec_capacity trace.new ≡ vec_capacity trace.old }
{
    for before in 0..config.room() {
        let read = long_read(config, before);
        push_queued(trace, read.connection, &read.command(unit));
    }
}

/// The short ones come and run, one after the other, as many as the budget has blocks.
fn push_passing<A: Allocator>(trace: &mut Vec<(Event, Entry), A>, config: &Config, unit: &Unit)
    requires { vec_len trace.old + 3 * config.now.budget ≤ vec_capacity trace.old }
    ensures items { trace.new.items ≡ pass_on config.now unit.now trace.old.items config.now.budget }
    ensures len { vec_len trace.new ≡ vec_len trace.old + 3 * config.now.budget }
    ensures same_room { vec_capacity trace.new ≡ vec_capacity trace.old }
{
    let read = short_read(config);
    for _passed in 0..config.budget() {
        push_queued(trace, Connection::First, &read.command(unit));
        push_run(trace, unit, read, config.longest() - 1);
    }
}

/// The long ones run, from the second on to the last but one.
#[tactic(auto, using(crate::proofs::Longest::Builds::rest_next))]
fn push_rest<A: Allocator>(trace: &mut Vec<(Event, Entry), A>, config: &Config, unit: &Unit)
    requires several { 2 ≤ room config.now }
    requires room { vec_len trace.old + (room config.now - 2) * (config.now.longest + 1) ≤ vec_capacity trace.old }
    ensures items { trace.new.items ≡ rest_on config.now unit.now trace.old.items (room config.now - 2) }
    ensures len { vec_len trace.new ≡ vec_len trace.old + (room config.now - 2) * (config.now.longest + 1) }
    ensures same_room { vec_capacity trace.new ≡ vec_capacity trace.old }
{
    for before in 0..config.room() - 2 {
        push_run(
            trace,
            unit,
            long_read(config, before + 1),
            config.longest() - 1,
        );
    }
}

/// The whole run. Memory for its moments, of which there are so many, is asked for before the first.
fn written<A: Allocator>(
    alloc: A,
    config: &Config,
    unit: &Unit,
    moments: usize,
) -> Result<Vec<(Event, Entry), A>, OutOfMemory>
    requires several { 2 ≤ room config.now }
    requires enough { bound config.now + 2 * config.now.budget + 2 * room config.now + 2 ≤ moments }
    ensures { IfOk result (λ trace. trace.items ≡ worst_of config.now unit.now) }
{
    let last = config.longest() - 1;
    let mut trace = Vec::with_capacity(alloc, moments)?;
    push_opening(&mut trace, unit, config.room());
    push_all(&mut trace, config, unit);
    push_run(&mut trace, unit, long_read(config, 0), 0);
    push_passing(&mut trace, config, unit);
    push_rest(&mut trace, config, unit);
    push_steps(&mut trace, unit, long_read(config, config.room() - 1), last);
    Ok(trace)
}

/// `worst` over any allocator.
pub fn worst_in<A: Allocator>(
    alloc: A,
    config: &Config,
    unit: u16,
) -> Result<Option<Vec<(Event, Entry), A>>, OutOfMemory>
    ensures legal { IfOk result (λ answer. IfSome answer (λ trace. IsLegal config.now trace.items)) }
    ensures waits { IfOk result (λ answer. IfSome answer (λ trace. WaitsTheBound config.now unit trace.items)) }
    ensures shown { IfOk result (λ answer. is_some answer ≡ is_shown config.now unit) }
{
    let room = u64::from(config.room());
    let budget = u64::from(config.budget());
    let bound = room * u64::from(config.longest()) + budget;
    if room < 2 || bound > LONGEST {
        return Ok(None);
    }
    let moments = (bound + 2 * budget + 2 * room + 2) as usize;
    match config.units().find(unit) {
        Some(unit) if unit.size() >= config.longest() => {
            Ok(Some(written(alloc, config, unit, moments)?))
        }
        _ => Ok(None),
    }
}

/// A legal run in which a command of this unit waits as long as the bound: it ends at the bound-th step after it, which
/// is the last event. So the bound of these limits is the least that is true. There is none if only one command may
/// wait, for nothing can pass it then, or if the unit isn't configured or has fewer blocks than the longest transfer;
/// and none is given of a bound over 100,000, which would be too long.
pub fn worst(
    alloc: Global,
    config: &Config,
    unit: u16,
) -> Result<Option<Vec<(Event, Entry)>>, OutOfMemory>
    ensures legal { IfOk result (λ answer. IfSome answer (λ trace. IsLegal config.now trace.items)) }
    ensures waits { IfOk result (λ answer. IfSome answer (λ trace. WaitsTheBound config.now unit trace.items)) }
    ensures shown { IfOk result (λ answer. is_some answer ≡ is_shown config.now unit) }
{
    worst_in(alloc, config, unit)
}
