// What is in hand is checked again: while it is, a volume may come or go.

ghost use Rattle.std.specs.Prelude.{◌≡◌, true, IfOk, IfSome, IsOk};
ghost use Rattle.mscp_port.specs.Common.{has_block, IsInBuffer, IsInSomeBuffer, MayMoveUnit, block_begun, block_served, part_now, part_with, IsOnVolume, MayMove};

use crate::action::Outcome;
use crate::buffers::{Buffer, find_buffer};
use crate::port::Port;
use crate::port::serving::{changed_verdict, move_of, refusal};
use crate::verdict::{Verdict, block_of};
use crate::volumes::Volume;
use mscp_packet::{MoveKind, status};
use mscp_queue::{Picker, Upcoming};

/// The part of its command's buffer that a step is about which moves this block so, behind so many others, or how it
/// goes that may not go on. This is kept of its command, and its unit has this volume now.
pub(crate) fn part_with(
    kind: MoveKind,
    block: u32,
    done: u32,
    buffer: &Buffer,
    volume: &Volume,
) -> Result<(u32, u32), Verdict>
    ensures value { result ≡ part_with kind block done buffer.now volume.now }
    // It goes on only on the volume that was there when its command came, and that its unit was brought online with.
    ensures safe { IsOk result → IsOnVolume buffer.now volume.now }
    ensures moves { IsOk result → MayMove kind block volume.now }
    ensures inside { IfOk result (λ part. IsInBuffer buffer.now part.0 part.1) }
{
    if !volume.is_there || buffer.changes != volume.changes {
        return Err(changed_verdict(volume));
    }
    match refusal(kind, block, buffer, volume) {
        Some(verdict) => Err(verdict),
        None => buffer.part(done).ok_or(Verdict::fault(status::MISSING)),
    }
}

impl<K: Picker> Port<K> {
    /// The step that the controller has begun, with how it moves a block, and which, if it moves one. The block is one
    /// of its unit's.
    pub(crate) fn block_begun(&self) -> Option<(Upcoming, MoveKind, u32)>
        ensures value { result ≡ block_begun self.now }
        ensures block { IfSome result (λ m.
            has_block self.now.controller.settings.units m.0.command.unit m.2 ≡ true) }
    {
        let upcoming = self.controller.upcoming()?;
        let (kind, block) = move_of(&upcoming)?;
        Some((upcoming, kind, block))
    }

    /// The part of its command's buffer that a step is about which moves this block so, or how it goes that may not go
    /// on.
    pub(crate) fn part(
        &self,
        upcoming: &Upcoming,
        kind: MoveKind,
        block: u32,
    ) -> Result<(u32, u32), Verdict>
        ensures value { result ≡ part_now self.now upcoming.now kind block }
        ensures moves { IsOk result → MayMoveUnit kind upcoming.now.command.unit block self.now }
        ensures inside { IfOk result (λ part. IsInSomeBuffer self.now part.0 part.1) }
    {
        let command = &upcoming.command;
        let buffer = find_buffer(
            self.buffers.as_slice(),
            upcoming.connection,
            command.reference,
        );
        match (self.place_of(command.unit), buffer) {
            (Some(place), Some(buffer)) => {
                part_with(kind, block, upcoming.done, &buffer, &self.volumes[place])
            }
            _ => Err(Verdict::fault(status::DRIVE_ERROR)),
        }
    }

    /// How the step in hand went whose action went so. It may have to end all the same: while it was under way a
    /// volume may have gone. Only restored bytes say one in hand where none is begun.
    pub(crate) fn block_served(&self, outcome: Outcome) -> Verdict
        ensures { result ≡ block_served self.now outcome (block_begun self.now) }
    {
        let Some((upcoming, kind, block)) = self.block_begun() else {
            return Verdict::fault(status::DRIVE_ERROR);
        };
        match self.part(&upcoming, kind, block) {
            Ok(_) => Verdict::Served(block_of(outcome)),
            Err(verdict) => verdict,
        }
    }
}
