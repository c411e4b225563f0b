// The lines after the header: what comes to the controller.

ghost use Rattle.std.specs.Prelude.{◌≡◌, ◌++◌, ◌≤◌, [], replicate, vec_len, IfOk, OnOk};
ghost use Rattle.mscp_sim.specs.Common.{command_bytes, Step, Settings, events_of, HasGone, Tells, rest_outcome, MOST_EVENTS};

use arrayvec::ArrayVec;
use mscp_drive::{Block, Event, OutOfMemory};
use mscp_packet::{Command, write_command};
use mscp_reader::{Lines, ReadFault, Request, ScriptFault, bytes_in};
use std::alloc::Allocator;

/// Reads all lines that are left.
pub(crate) fn read_events<A: Allocator>(
    alloc: A,
    lines: &mut Lines<'_>,
) -> Result<Vec<Event, A>, ReadFault>
    ensures events { IfOk result (λ events. vec_len events ≤ MOST_EVENTS) }
    ensures fault { (fault : ScriptFault) → result ≡ Err (ReadFault.Script fault) → 1 ≤ fault.line }
    ensures outcome { (s : Settings) → Tells (λ events. (s, events.items)) result (rest_outcome lines.old.number
        (HasGone s []) lines.old.rest.now) }
{
    let mut events = Vec::new(alloc);
    loop {
        match lines.next_request(events.len()) {
            Ok(Some(request)) => add_events(&mut events, &request)?,
            Ok(None) => return Ok(events),
            Err(fault) => return Err(ReadFault::Script(fault)),
        }
    }
}

/// Appends the events of a request.
fn add_events<A: Allocator>(
    events: &mut Vec<Event, A>,
    request: &Request<'_>,
) -> Result<(), OutOfMemory>
    ensures { OnOk result (events.new.items ≡ events.old.items ++ events_of request.now) }
{
    let event = match request {
        Request::Send(connection, valid) => {
            Event::Send(*connection, command_message(&valid.command))
        }
        Request::Packet(connection, digits) => Event::Send(*connection, bytes_in(digits)),
        Request::Take(connection) => Event::Take(*connection),
        Request::Steps(count, block) => return add_steps(events, *count, block),
        Request::Look => Event::Look,
    };
    Ok(events.push(event)?)
}

/// Appends so many steps, each with this outcome.
fn add_steps<A: Allocator>(
    events: &mut Vec<Event, A>,
    count: u32,
    block: &Block,
) -> Result<(), OutOfMemory>
    ensures { OnOk result (events.new.items ≡ events.old.items ++ replicate count (Step block.now)) }
{
    for _step in 0..count {
        events.push(Event::Step(*block))?;
    }
    Ok(())
}

/// The message of a command.
fn command_message(command: &Command) -> ArrayVec<u8, 64>
    ensures { result.items ≡ command_bytes command.now }
{
    let mut bytes = ArrayVec::new();
    bytes
        .try_extend_from_slice(write_command(command).as_slice())
        .unwrap();
    bytes
}
