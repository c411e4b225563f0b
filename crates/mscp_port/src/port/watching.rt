// What comes from elsewhere than the host: volumes, and time.

ghost use Rattle.std.specs.Prelude.{◌≡◌, ◌↔◌, true, false, IsTrue};
ghost use Rattle.mscp_port.specs.Common.{Changes, IsQuiet, LooksAgain, PutsIn, Ticks, medium_answer, seconds, step_again, unit_found, volume_changed, volume_protected};

use crate::port::Port;
use crate::stage::Stage;
use crate::task::Task;
use crate::volumes::{Medium, VolumeFault};
use mscp_queue::{Connection, Picker};

/// No unit has this number. Nothing is changed.
#[derive(Clone, Copy)]
pub struct NoUnit;

impl<K: Picker> Port<K> {
    /// A volume came into a unit. One that was there before is gone.
    ///
    /// # Errors
    ///
    /// `NoUnit` if no unit has this number, else `Size` if the volume has no blocks, or more than the unit.
    pub fn volume_came(&mut self, unit: u16, medium: Medium) -> Result<(), VolumeFault>
        ensures { PutsIn medium unit self.old result self.new }
    {
        self.fits(unit, &medium)?;
        if let Some(place) = self.place_of(unit) {
            self.volumes[place].put(medium);
            self.take_anew();
        }
        Ok(())
    }

    /// Whether it may be put into a unit.
    fn fits(&self, unit: u16, medium: &Medium) -> Result<(), VolumeFault>
        ensures { result ≡ medium_answer medium.now (unit_found self.now.controller.settings.units unit) }
    {
        match self.controller.config().units().find(unit) {
            None => Err(VolumeFault::NoUnit),
            Some(unit) if 1 <= medium.size && medium.size <= unit.size() => Ok(()),
            Some(_) => Err(VolumeFault::Size),
        }
    }

    /// A step in hand was decided with the volumes that were there: it is taken in hand anew. So what is told of a
    /// block counts only if it was wanted with the volume as it is now.
    fn take_anew(&mut self)
        ensures { self.new ≡ record self.old { task = step_again self.old.task } }
    {
        if let Task::Step(_) | Task::Transfer = self.task {
            self.task = Task::Free;
        }
    }

    /// The volume of a unit went.
    ///
    /// # Errors
    ///
    /// `NoUnit` if no unit has this number.
    pub fn volume_went(&mut self, unit: u16) -> Result<(), NoUnit>
        ensures { Changes (volume_changed false) unit self.old result self.new }
    {
        let Some(place) = self.place_of(unit) else {
            return Err(NoUnit);
        };
        self.volumes[place].change(false);
        self.take_anew();
        Ok(())
    }

    /// Nothing may be written on the volume of a unit from now on, or something may again. It stays the same volume to
    /// its host. Of a unit without a volume nothing is kept.
    ///
    /// # Errors
    ///
    /// `NoUnit` if no unit has this number.
    pub fn protect(&mut self, unit: u16, is_protected: bool) -> Result<(), NoUnit>
        ensures { Changes (volume_protected is_protected) unit self.old result self.new }
    {
        let Some(place) = self.place_of(unit) else {
            return Err(NoUnit);
        };
        let volume = &mut self.volumes[place];
        volume.is_protected = volume.is_there && is_protected;
        self.take_anew();
        Ok(())
    }

    /// Whether a host is to be heard within some time, and nothing is to be done for it.
    fn is_quiet(&self) -> bool
        ensures { IsTrue result ↔ IsQuiet self.now }
    {
        self.stage == Stage::Up
            && self.timeout != 0
            && self.outgoing.is_none()
            && self.controller.waiting(Connection::First) == 0
            && self.controller.untaken(Connection::First) == 0
    }

    /// The host may have given a slot of the ring of responses to the port, of which nothing tells: the port looks at
    /// it again, if something is to go out. A slot that is being read is read again. Where the machine has time for the
    /// disk it is called before `next`.
    pub fn look_again(&mut self)
        ensures { LooksAgain self.old self.new }
    {
        self.is_full = false;
        if let Task::Slot(_) = self.task {
            self.task = Task::Free;
        }
    }

    /// The seconds of the host: those that it said, and before its first command those that are left.
    pub(crate) fn seconds(&self) -> u16
        ensures { result ≡ seconds self.now }
    {
        if self.timeout < self.left {
            self.left
        } else {
            self.timeout
        }
    }

    /// A second went by: the port looks at the ring of responses again, and a host that was silent for longer than its
    /// timeout is taken for dead. A part of a second that had gone by when it last was heard isn't held against it, and
    /// nothing is before its first command.
    pub fn tick(&mut self)
        ensures { Ticks self.old self.new }
    {
        self.look_again();
        if !self.is_quiet() {
            self.left = self.seconds();
        } else if self.left > 0 {
            self.left -= 1;
        } else {
            self.die(9);
        }
    }
}
