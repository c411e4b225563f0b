// How commands that ended are heeded: what their ends say is decided, and units become what they say.

ghost use Rattle.std.specs.Prelude.{◌≡◌, ◌≤◌, ◌<◌, ◌++◌, Contains, IfSome, map, drop, length, Option, Some};
ghost use Rattle.mscp_port.specs.Common.{First, answer_decided, decided_answers, decided_step, kept_of, of, place_in, volume_found, volume_heeded, volume_in_place, volumes_after, without};
ghost use Rattle.mscp_port.specs.Decided.{answer_of, end_decided, status_told as told};
ghost use Rattle.mscp_port.specs.Formalities.{code_told as code_of};
ghost use Rattle.mscp_port.specs.Moved.{place_heeded};
ghost use Rattle.mscp_port.specs.Volumes.{volumes_heeded};
ghost use Rattle.mscp_port.specs.declared.buffers.Buffer.{Buffer as Kept};

use crate::buffers::{Buffer, find_buffer, forget};
use crate::decided::{Decided, PROTECTED_BY_HOST, status_told};
use crate::formality::code_told;
use crate::port::Port;
use crate::verdict::Verdict;
use crate::volumes::Volume;
use mscp_drive::Units;
use mscp_packet::{End, codes, endcodes, status};
use mscp_queue::{Block, Connection, Picker};

/// The modifier by which a host sets or clears its write protection.
const SETS_PROTECTION: u16 = 0x0004;

/// What the Success of a command to a unit means for its volume: ONLINE brings the unit online with it, and its host
/// needs no news of it then; AVAILABLE takes it offline; ONLINE and SET UNIT CHARACTERISTICS set its write protection,
/// if their modifier says so.
fn heed_unit(volume: &mut Volume, code: u8, buffer: Option<Buffer>)
    ensures { volume.new ≡ volume_heeded code buffer volume.old }
{
    match (code, buffer) {
        (endcodes::AVAILABLE, _) => {
            volume.is_mounted = false;
            volume.is_protected_by_host = false;
        }
        (endcodes::ONLINE | endcodes::SET_UNIT_CHARACTERISTICS, Some(buffer)) => {
            if code == endcodes::ONLINE {
                volume.is_mounted = true;
                volume.is_news = false;
            }
            if buffer.modifiers / SETS_PROTECTION % 2 == 1 {
                volume.is_protected_by_host = buffer.flags / PROTECTED_BY_HOST % 2 == 1;
            }
        }
        _ => {}
    }
}

/// What an end says that was made as a message came and is told with this endcode, where its unit, if there is such a
/// unit, has this volume.
fn answer_decided(code: u8, end: &End, units: &Units, flags: u16, volume: &Volume) -> Decided
    ensures { result ≡ answer_decided code units.now flags volume.now end.now }
{
    let served = Verdict::Served(Block::Good);
    let status = status_told(served, code, end.status, volume);
    Decided::of_end(code, status, end, units, flags, volume)
}

impl<K: Picker> Port<K> {
    /// The volume of the unit at this place: none where there is no such unit.
    fn volume_in(&self, place: Option<usize>) -> Volume
        requires { IfSome place (λ p. p < 16) }
        ensures { result ≡ volume_in_place self.now.volumes place }
    {
        match place {
            Some(place) => self.volumes[place],
            None => Volume::default(),
        }
    }

    /// What an end says that was made as a message came: it may be of another command, which was aborted.
    fn answer(&self, end: &End) -> Decided
        ensures { result ≡ answer_of self.now end.now }
    {
        let volume = self.volume_in(self.place_of(end.unit));
        let kept = find_buffer(self.buffers.as_slice(), Connection::First, end.reference);
        let code = code_told(kept, end.code);
        answer_decided(
            code,
            end,
            self.controller.config().units(),
            self.flags,
            &volume,
        )
    }

    /// Decides what the ends say that were made of a message, which are those of which nothing is decided yet.
    pub(crate) fn decide_answers(&mut self)
        ensures frame { self.new ≡ record self.old { decided = self.new.decided } }
        ensures value { self.new.decided.items ≡ decided_answers self.old.decided.items self.new }
    {
        for place in self.decided.len()..self.controller.ends(Connection::First).len() {
            let end = self.controller.ends(Connection::First)[place];
            let decided = self.answer(&end);
            self.decided.push(decided);
        }
    }

    /// Decides what the end of a step says that went so, which is told with this endcode, and to whose unit, at this
    /// place, this volume belonged before it was heeded.
    fn decide_step(
        &mut self,
        connection: Connection,
        end: &End,
        code: u8,
        verdict: &Verdict,
        place: Option<usize>,
        before: &Volume,
    )
        requires at { place ≡ place_in self.old.controller.settings.units end.now.unit }
        requires low { IfSome place (λ p. p < 16) }
        ensures frame { self.new ≡ record self.old { decided = self.new.decided } }
        ensures value { self.new.decided.items
            ≡ decided_step connection verdict.now before.now code end.now self.old.decided.items self.old }
    {
        if let (Connection::First, false) = (connection, self.decided.is_full()) {
            let status = status_told(*verdict, code, end.status, before);
            let units = self.controller.config().units();
            let volume = self.volume_in(place);
            let decided = Decided::of_end(code, status, end, units, self.flags, &volume);
            self.decided.push(decided);
        }
    }

    /// A step brought the end of a command, and went so: what is kept of it is heeded if it had Success, and forgotten,
    /// and what the end says is decided.
    pub(crate) fn command_ended(&mut self, connection: Connection, end: &End, verdict: &Verdict)
        ensures frame { self.new ≡ record self.old {
          buffers = self.new.buffers;
          decided = self.new.decided;
          volumes = volumes_after self.old.controller.settings.units self.old.buffers.items connection
              (Some end.now) self.old.volumes;
        } }
        ensures decided { self.new.decided.items ≡ decided_step connection verdict.now
            (volume_found self.old.controller.settings.units self.old.volumes end.now.unit)
            (code_of (kept_of connection end.now.reference self.old.buffers.items) end.now.code) end.now
            self.old.decided.items self.new }
        ensures buffers { self.new.buffers.items ≡ without connection end.now.reference self.old.buffers.items }
        ensures among { (b : Kept) → Contains self.new.buffers.items b → Contains self.old.buffers.items b }
    {
        let place = self.place_of(end.unit);
        let before = self.volume_in(place);
        let kept = find_buffer(self.buffers.as_slice(), connection, end.reference);
        self.heed_end(end, kept, place);
        forget(&mut self.buffers, connection, end.reference);
        self.decide_step(
            connection,
            end,
            code_told(kept, end.code),
            verdict,
            place,
            &before,
        );
    }

    /// Heeds what is kept of a command that ended, if it had Success, of the unit at this place.
    fn heed_end(&mut self, end: &End, kept: Option<Buffer>, place: Option<usize>)
        requires at { place ≡ place_in self.old.controller.settings.units end.now.unit }
        requires low { IfSome place (λ p. p < 16) }
        ensures { self.new ≡ record self.old {
          volumes = volumes_heeded end.now.code kept
              (place_heeded self.old.controller.settings.units end.now) self.old.volumes;
        } }
    {
        if let (Some(place), codes::SUCCESS) = (place, status::code_of(end.status)) {
            heed_unit(&mut self.volumes[place], end.code, kept);
        }
    }
}
