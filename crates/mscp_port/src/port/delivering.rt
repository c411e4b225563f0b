// What goes out to the host, and how.

ghost use Rattle.std.specs.Prelude.{◌≡◌, ◌≢◌, ◌≤◌, ◌<◌, ◌+◌, ◌-◌, ◌⊎◌, length, drop, IfSome, None};
ghost use Rattle.mscp_port.specs.Common.{ChangesBySaying, position, Side, Responses, Descriptor, First, after_take, WritesOut, news_at, told_end, IsNews, TakesEnd, TellsNews, news_place, credits_told, Dies, IsAsNew, in_hand};
ghost use Rattle.mscp_port.specs.declared.action.Outcome.TheVariants as outcomes;
ghost use Rattle.mscp_port.specs.declared.stage.Stage.TheVariants as stages;
ghost use Rattle.mscp_port.specs.declared.task.Task.TheVariants as tasks;

use crate::action::Outcome;
use crate::leaving::{attention, end_told};
use crate::port::{Outgoing, OutgoingKind, Port};
use crate::rings::Side;
use crate::slot::Descriptor;
use crate::task::Task;
use crate::volumes::Volume;
use arrayvec::ArrayVec;
use mscp_packet::{End, write_end};
use mscp_queue::{Connection, Picker};

/// The flag by which a host wants attention messages.
const WANTS_ATTENTION: u16 = 0x0080;

/// A host is told at most so many credits more than the one that an end of the disk's gives back, since their field has
/// four bits.
const MOST_MORE: u8 = 14;

impl<K: Picker> Port<K> {
    /// Finds what goes out next: the oldest end, and else news of a volume.
    pub(crate) fn find_outgoing(&mut self)
        requires { self.old.outgoing ≡ None }
        ensures frame { ChangesBySaying self.old self.new }
        ensures says { TakesEnd self.old self.new ⊎ TellsNews self.old self.new }
        ensures held { (self.new.controller ≡ self.old.controller)
            ⊎ (self.new.controller ≡ after_take First self.old.controller) }
        ensures serial { self.new.serial ≡ self.old.serial }
        ensures settings { self.new.controller.settings ≡ self.old.controller.settings }
    {
        if let Some(end) = self.controller.ends(Connection::First).first().copied() {
            let _bytes = self.controller.take(Connection::First);
            self.is_stalled = false;
            self.outgoing = Some(Outgoing {
                bytes: self.told(&end),
                kind: OutgoingKind::End,
            });
            self.forget_decided();
        } else {
            self.tell_news();
        }
    }

    /// The oldest end that wasn't taken as the host gets it: with what was decided of it.
    fn told(&self, end: &End) -> ArrayVec<u8, 48>
        ensures { result.items ≡ told_end self.now end.now }
    {
        let unit = self.controller.config().units().find(end.unit);
        match self.decided.first() {
            Some(told) => end_told(end, told, unit, &self.hardware),
            None => write_end(end),
        }
    }

    /// Forgets what was decided of the oldest end.
    fn forget_decided(&mut self)
        ensures frame { self.new ≡ record self.old { decided = self.new.decided } }
        ensures value { self.new.decided.items ≡ drop 1 self.old.decided.items }
    {
        if !self.decided.is_empty() {
            self.decided.remove(0);
        }
    }

    /// News of the first volume that came goes out, if its host wants attention messages. It isn't news any more.
    fn tell_news(&mut self)
        requires { self.old.outgoing ≡ None }
        ensures frame { self.new ≡ record self.old { outgoing = self.new.outgoing; volumes = self.new.volumes } }
        ensures out { IsNews self.old.controller.settings.units self.old.volumes (news_place self.old)
            self.new.outgoing self.new.volumes }
    {
        if let Some(place) = self.news_place() {
            self.outgoing = self.news_at(place);
            self.volumes[place].is_news = false;
        }
    }

    /// The place of the first volume that came, if its host wants attention messages.
    fn news_place(&self) -> Option<usize>
        ensures value { result ≡ news_place self.now }
        ensures low { IfSome result (λ place. place < 16) }
    {
        if self.flags / WANTS_ATTENTION % 2 == 0 {
            return None;
        }
        news_in(&self.volumes)
    }

    /// News of the volume at a place.
    fn news_at(&self, place: usize) -> Option<Outgoing>
        requires { place < 16 }
        ensures { result ≡ news_at self.now.controller.settings.units self.now.volumes place }
    {
        let unit = self.controller.config().units().list().get(place)?;
        Some(Outgoing {
            bytes: attention(unit, &self.volumes[place]),
            kind: OutgoingKind::Attention,
        })
    }

    /// How many credits what goes out gives the host: the one that an end gives back, and with an end of the disk's
    /// those that it wasn't told yet.
    pub(crate) fn credits_told(&self) -> u8
        ensures value { result ≡ credits_told self.now }
        ensures few { result ≤ 15 }
    {
        let Some(outgoing) = &self.outgoing else {
            return 0;
        };
        match outgoing.kind {
            OutgoingKind::Attention => 0,
            OutgoingKind::End => 1 + self.untold.min(MOST_MORE),
            OutgoingKind::UtilitiesEnd => 1,
        }
    }

    /// The packet was written.
    pub(crate) fn written_out(&mut self, slot: Descriptor, outcome: Outcome)
        ensures writes { WritesOut outcome slot self.old self.new }
        ensures frame { (self.new ≡ record self.old { untold = self.new.untold; task = self.new.task })
            ⊎ Dies self.old self.new }
        ensures packet { IfSome (in_hand self.new.task) (λ word. word ≡ slot.word) }
        ensures credits { outcome ≡ outcomes.Done
            → self.new.untold + (credits_told self.old - 1) ≡ self.old.untold }
        ensures missing { outcome ≢ outcomes.Done → IsAsNew (stages.Dead 2) self.old self.new }
        ensures returned { (side : Side) → (other : Descriptor) → self.new.task ≡ tasks.Return side other
            → (side ≡ Responses) × (other ≡ slot) × (outcome ≡ outcomes.Done) }
    {
        if !matches!(outcome, Outcome::Done) {
            return self.die(2);
        }
        if let Some(outgoing) = &self.outgoing
            && let OutgoingKind::End = outgoing.kind
        {
            self.untold -= self.untold.min(MOST_MORE);
        }
        self.task = Task::Return(Side::Responses, slot);
    }
}

/// The place of the first volume that came, and of which no host has heard.
fn news_in(volumes: &[Volume]) -> Option<usize>
    ensures value { result ≡ position (λ v. v.is_news) volumes.now }
    ensures low { IfSome result (λ place. place < length volumes.now) }
{
    volumes.iter().position(|volume| volume.is_news)
}
