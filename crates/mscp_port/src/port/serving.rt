// How blocks are moved.

ghost use Rattle.std.specs.Prelude.{◌≡◌, ◌≢◌, ◌≤◌, ◌%◌, ◌⊎◌, [], true, if◌then◌else◌, Contains, IfSome, Option, None, Some};
ghost use Rattle.mscp_port.specs.Common.{ChangesByService, move_of, refusal_of, task_of, Foretells, begun_step, GoesOnWithBlock, IsMovedFor, TakesBegun, TakesBlock, IsOfUnit, begun_task, next_serial, serial_after, MayBegin, IsOfBlock, in_hand, MayMove};
ghost use Rattle.mscp_port.specs.declared.action.Action.TheVariants as actions;
ghost use Rattle.mscp_port.specs.declared.buffers.Buffer.{Buffer as Kept};
ghost use Rattle.mscp_port.specs.Blocks.{block_of as block_after, changed_verdict, has_host_bytes as has_bytes, writes as writes_to};
ghost use Rattle.mscp_queue.specs.declared.upcoming.Upcoming.{Upcoming as Foretold};
ghost use Rattle.mscp_port.specs.declared.task.Task.TheVariants as tasks;

use crate::action::Action;
use crate::buffers::{Buffer, find_buffer};
use crate::port::Port;
use crate::task::Task;
use crate::verdict::Verdict;
use crate::volumes::Volume;
use mscp_packet::{MoveKind, Order, status};
use mscp_queue::{Block, Connection, Picker, Report, Upcoming};

/// Whether a transfer moves bytes of host memory.
fn has_host_bytes(kind: MoveKind) -> bool
    ensures { result ≡ has_bytes kind }
{
    matches!(kind, MoveKind::Compare | MoveKind::Read | MoveKind::Write)
}

/// Whether a transfer writes to the volume.
fn writes(kind: MoveKind) -> bool
    ensures { result ≡ writes_to kind }
{
    matches!(kind, MoveKind::Erase | MoveKind::Write)
}

/// Why a step of a transfer isn't made, if it isn't: the first that holds.
pub(crate) fn refusal(
    kind: MoveKind,
    block: u32,
    buffer: &Buffer,
    volume: &Volume,
) -> Option<Verdict>
    ensures value { result ≡ refusal_of kind block buffer.now volume.now }
    ensures moves { volume.now.is_there ≡ true → result ≡ None → MayMove kind block volume.now }
    ensures even { result ≡ None → buffer.now.count % 2 ≡ 0 }
{
    if !volume.is_mounted {
        Some(Verdict::NotOnline)
    } else if has_host_bytes(kind) && buffer.address % 2 == 1 {
        Some(Verdict::fault(status::ODD_ADDRESS))
    } else if buffer.count % 2 == 1 {
        Some(Verdict::fault(status::ODD_COUNT))
    } else if writes(kind) && volume.is_protected_by_host {
        Some(Verdict::fault(status::PROTECTED_BY_HOST))
    } else if writes(kind) && volume.is_protected {
        Some(Verdict::fault(status::PROTECTED))
    } else if volume.size <= block {
        Some(Verdict::fault(status::DRIVE_ERROR))
    } else {
        None
    }
}

/// How a step moves a block, and which, if it moves one: a step of a transfer, to a unit that is online.
pub(crate) fn move_of(upcoming: &Upcoming) -> Option<(MoveKind, u32)>
    ensures value { result ≡ move_of upcoming.now }
    ensures block { IfSome result (λ m. upcoming.now.lbn ≡ Some m.1) }
{
    match (upcoming.command.order, upcoming.lbn) {
        (Order::Move(kind, ..), Some(block)) => Some((kind, block)),
        _ => None,
    }
}

/// How a step goes of a command that waited while its volume was exchanged. If its unit has come online with another
/// one, its host isn't told that the unit is offline.
pub(crate) fn changed_verdict(volume: &Volume) -> Verdict
    ensures { result ≡ changed_verdict volume.now }
{
    if volume.is_mounted {
        Verdict::fault(status::DRIVE_ERROR)
    } else {
        Verdict::NoVolume
    }
}

/// How a step goes that moves no block, of a command of whose message this is kept, and whose unit has this volume.
fn verdict_without_block(upcoming: &Upcoming, buffer: &Buffer, volume: &Volume) -> Verdict
    ensures { move_of upcoming.now ≡ None → task_of upcoming.now buffer.now volume.now ≡ tasks.Step result }
{
    match upcoming.command.order {
        Order::Available => Verdict::Served(Block::Good),
        Order::Online | Order::SetUnit if volume.is_there => Verdict::Served(Block::Good),
        _ if !volume.is_there || buffer.changes != volume.changes => changed_verdict(volume),
        _ => Verdict::Served(Block::Good),
    }
}

/// This block is to be moved so, to this part of its command's buffer or from it.
pub(crate) fn move_to(upcoming: &Upcoming, kind: MoveKind, block: u32, part: (u32, u32)) -> Action
    ensures { result ≡ actions.Transfer kind upcoming.now.command.unit block part.0 part.1 }
{
    Action::Transfer {
        kind,
        unit: upcoming.command.unit,
        block,
        address: part.0,
        count: part.1,
    }
}

impl<K: Picker> Port<K> {
    /// What is to be done for the next step of a command, if one waits, and the move of its block, if it moves one.
    pub(crate) fn choose_block(&mut self) -> (Task, Option<Action>)
        ensures begins { (upcoming : Option Foretold)
            × Foretells (K.picks self.old.controller.picker) self.old.controller upcoming self.new.controller
            × (result.0
            ≡ begun_task self.new.controller.settings.units self.new.buffers.items self.new.volumes upcoming)
            × (begun_step self.new.controller ≡ upcoming) }
        ensures moves { IfSome result.1 (IsMovedFor self.new result.0) }
        ensures frame { self.new ≡ record self.old { controller = self.new.controller; serial = self.new.serial } }
        ensures packet { in_hand result.0 ≡ None }
        ensures block { (result.0 ≡ tasks.Free) ⊎ IsOfBlock result.0 }
        ensures idle { result.0 ≡ tasks.Free → self.new.controller.waiting ≡ [] }
        ensures controller { MayBegin self.old.controller self.new.controller }
        ensures begun { (IsOfBlock result.0 → ⊥) → self.new.controller ≡ self.old.controller }
        ensures serial { self.new.serial
            ≡ serial_after self.old.controller.begun self.new.controller.begun self.old.serial }
        ensures settings { self.new.controller.settings ≡ self.old.controller.settings }
    {
        let was_begun = self.controller.begun().is_some();
        let Some(upcoming) = self.controller.begin() else {
            return (Task::Free, None);
        };
        self.give_serial(was_begun);
        // That its block is one of its unit's is known where it is asked for.
        let _ = self.controller.upcoming();
        self.step_chosen(&upcoming)
    }

    /// A step is begun, which gets the next serial if none was begun before.
    fn give_serial(&mut self, was_begun: bool)
        ensures { self.new ≡ record self.old {
          serial = if was_begun then self.old.serial else next_serial self.old.serial;
        } }
    {
        if !was_begun {
            self.serial = self.serial.wrapping_add(1);
        }
    }

    /// What is to be done for this step, which is begun, and the move of its block, if it moves one.
    fn step_chosen(&self, upcoming: &Upcoming) -> (Task, Option<Action>)
        requires begun { begun_step self.now.controller ≡ Some upcoming.now }
        requires unit { IsOfUnit self.now.controller.settings.units upcoming.now }
        ensures task { result.0 ≡ begun_task self.now.controller.settings.units self.now.buffers.items self.now.volumes
            (Some upcoming.now) }
        ensures moves { IfSome result.1 (IsMovedFor self.now result.0) }
        ensures packet { in_hand result.0 ≡ None }
        ensures block { IsOfBlock result.0 }
    {
        let Some((kind, block)) = move_of(upcoming) else {
            return (Task::Step(self.verdict_of(upcoming)), None);
        };
        match self.part(upcoming, kind, block) {
            Err(verdict) => (Task::Step(verdict), None),
            // A transfer of no bytes names a block, and moves nothing.
            Ok((_, 0)) => (Task::Step(Verdict::Served(Block::Good)), None),
            Ok(part) => (Task::Transfer, Some(move_to(upcoming, kind, block, part))),
        }
    }

    /// How a step goes that moves no block.
    fn verdict_of(&self, upcoming: &Upcoming) -> Verdict
        ensures { move_of upcoming.now ≡ None → begun_task self.now.controller.settings.units self.now.buffers.items
            self.now.volumes (Some upcoming.now) ≡ tasks.Step result }
    {
        let command = &upcoming.command;
        let buffer = find_buffer(
            self.buffers.as_slice(),
            upcoming.connection,
            command.reference,
        );
        match (self.place_of(command.unit), buffer) {
            (Some(place), Some(buffer)) => {
                verdict_without_block(upcoming, &buffer, &self.volumes[place])
            }
            _ => Verdict::fault(status::DRIVE_ERROR),
        }
    }

    /// The step of the command of this connection and number is taken, if it is begun, and went so.
    fn finish_of(&mut self, connection: Connection, reference: u32, verdict: Verdict)
        ensures takes { TakesBlock (K.picks self.old.controller.picker) connection reference verdict self.old self.new }
        ensures frame { ChangesByService self.old self.new }
        ensures settings { self.new.controller.settings ≡ self.old.controller.settings }
        ensures buffers { (b : Kept) → Contains self.new.buffers.items b → Contains self.old.buffers.items b }
        ensures packet { in_hand self.new.task ≡ None }
    {
        self.task = Task::Free;
        self.owes_block = false;
        let block = verdict.block();
        if let Ok(
            Report::Served {
                ended: Some(end),
                ..
            },
        ) = self.controller.finish(connection, reference, block)
        {
            self.command_ended(connection, &end, &verdict);
        }
    }

    /// The step that is begun is taken, and went so. Only restored bytes say that one is in hand where none is begun.
    pub(crate) fn finish(&mut self, verdict: Verdict)
        ensures takes { TakesBegun (K.picks self.old.controller.picker) verdict self.old self.new }
        ensures goes { GoesOnWithBlock (K.picks self.old.controller.picker) self.old self.new }
        ensures frame { ChangesByService self.old self.new }
        ensures settings { self.new.controller.settings ≡ self.old.controller.settings }
        ensures buffers { (b : Kept) → Contains self.new.buffers.items b → Contains self.old.buffers.items b }
        ensures packet { in_hand self.new.task ≡ None }
    {
        match self.controller.begun() {
            Some(name) => self.finish_of(name.connection, name.reference, verdict),
            None => self.task = Task::Free,
        }
    }
}
