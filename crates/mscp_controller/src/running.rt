// A whole run.

ghost use Rattle.std.specs.Prelude.{◌≡◌, ◌≤◌, [], length, vec_capacity, zip, IfOk};
ghost use Rattle.mscp_controller.specs.Common.{Answered, Headline, IsPicked, IsSweeping, Sweeps, IsValid};

use crate::controller::Controller;
use crate::entry::Entry;
use mscp_drive::{Config, Event, OutOfMemory};
use mscp_queue::Picker;
use std::alloc::{Allocator, Global};

/// Appends what the controller answers to the events, one after the other. There is room, so it can't fail.
fn answer_each<K: Picker, A: Allocator>(
    controller: &mut Controller<K>,
    events: &[Event],
    entries: &mut Vec<Entry, A>,
)
    requires empty { entries.old.items ≡ [] }
    requires room { length events.now ≤ vec_capacity entries.old }
    ensures answered { Answered (K.picks controller.old.picker) controller.old events.now entries.new.items
        controller.new }
    ensures same_room { vec_capacity entries.new ≡ vec_capacity entries.old }
{
    for event in events {
        entries.push_reserved(controller.answer(event));
    }
}

/// What a new controller answers to the events, one entry an event, whatever its picker picks: a legal trace, with all
/// that is promised of one, and each start is one that the picker may pick: if it picks as `Sweep` does, the one of
/// least cost, and of those the oldest. The entries come into a list that has room for them. So no memory is asked for,
/// and nothing can fail.
pub fn run_into<K: Picker + Drop, A: Allocator>(
    config: Config,
    picker: K,
    events: &[Event],
    entries: &mut Vec<Entry, A>,
)
    requires empty { entries.old.items ≡ [] }
    requires room { length events.now ≤ vec_capacity entries.old }
    ensures valid { IsValid config }
    ensures headline { Headline config events.now entries.new.items }
    ensures picked { IsPicked config (K.picks picker) (zip events.now entries.new.items) }
    ensures swept { Sweeps (K.picks picker) → IsSweeping config (zip events.now entries.new.items) }
    ensures same_room { vec_capacity entries.new ≡ vec_capacity entries.old }
{
    let mut controller = Controller::new(config, picker);
    answer_each(&mut controller, events, entries);
}

/// `run` over any allocator.
pub fn run_in<K: Picker + Drop, A: Allocator>(
    alloc: A,
    config: Config,
    picker: K,
    events: &[Event],
) -> Result<Vec<Entry, A>, OutOfMemory>
    ensures headline { IfOk result (λ entries. Headline config events.now entries.items) }
    ensures picked { IfOk result (λ entries. IsPicked config (K.picks picker) (zip events.now entries.items)) }
    ensures swept { Sweeps (K.picks picker)
        → IfOk result (λ entries. IsSweeping config (zip events.now entries.items)) }
    ensures room { IfOk result (λ entries. vec_capacity entries ≡ length events.now) }
{
    let mut entries = Vec::with_capacity(alloc, events.len())?;
    run_into(config, picker, events, &mut entries);
    Ok(entries)
}

/// What `run_into` gives, in a list of its own, whose room is for just these entries. Memory is asked for before the
/// first event.
///
/// # Errors
///
/// `OutOfMemory` if it is refused: then nothing was answered.
pub fn run<K: Picker + Drop>(
    alloc: Global,
    config: Config,
    picker: K,
    events: &[Event],
) -> Result<Vec<Entry>, OutOfMemory>
    ensures valid { IsValid config }
    ensures headline { IfOk result (λ entries. Headline config events.now entries.items) }
    ensures picked { IfOk result (λ entries. IsPicked config (K.picks picker) (zip events.now entries.items)) }
    ensures swept { Sweeps (K.picks picker)
        → IfOk result (λ entries. IsSweeping config (zip events.now entries.items)) }
    ensures room { IfOk result (λ entries. vec_capacity entries ≡ length events.now) }
{
    run_in(alloc, config, picker, events)
}
