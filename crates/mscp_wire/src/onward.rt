// What counts as told, whether it breaks a rule or not: so a judge goes on behind a moment that isn't right.

ghost use Rattle.std.specs.Prelude.{◌≡◌, ℕ, ◌++◌, ◌∷◌, [], ◌&&◌, true, OnOk, None};
ghost use Rattle.mscp_drive.specs.declared.connection.Connection as connections;
ghost use Rattle.mscp_wire.specs.Course.{counts, has_room};
ghost use Rattle.mscp_wire.specs.Kept.{sents};
ghost use Rattle.mscp_wire.specs.Wire as wire;

use crate::answer::Answer;
use crate::judge::{Judge, MOST_CREDITS};
use crate::moment::Moment;
use crate::polls::asking;
use crate::sent::Sent;
use mscp_drive::{Connection, OutOfMemory};
use std::alloc::Allocator;

impl<A: Allocator + Copy> Judge<A> {
    /// A command came at this time: it is outstanding.
    ///
    /// # Errors
    ///
    /// `OutOfMemory` if memory runs out.
    pub fn hear(&mut self, sent: &Sent, time: Option<u64>) -> Result<(), OutOfMemory>
        ensures after { OnOk result (sents self.new.commands ≡ sents self.old.commands
            ++ wire.asking self.old.timeout (sents self.old.commands) (wire.timed time sent.now) ∷ []) }
        ensures units { OnOk result ((via : connections.Connection) (unit : ℕ) → wire.kept self.new.units via unit
            ≡ wire.told_after_message via unit (wire.kept self.old.units via unit) sent.now) }
        ensures called { (identifier : ℕ)
            → wire.kept_called self.new.units identifier ≡ wire.kept_called self.old.units identifier }
        ensures controller { self.new.controller ≡ self.old.controller }
        ensures timeout { self.new.timeout ≡ self.old.timeout }
        ensures credits { self.new.credits ≡ self.old.credits }
    {
        let timed = Sent { time, ..*sent };
        let command = asking(self.timeout, &self.commands, &timed);
        self.commands.push(command)?;
        self.units.hear_command(sent)
    }

    /// Whether a command may be outstanding, too: its number is new, and its host has fewer than any controller gives
    /// credits.
    fn has_place(&self, sent: &Sent) -> bool
        ensures { result ≡ (wire.is_new (sents self.now.commands) sent.now
            && has_room (sents self.now.commands) sent.now) }
    {
        !self.commands.has_named(sent.connection, sent.reference)
            && self.commands.count_on(sent.connection) < MOST_CREDITS as usize
    }

    /// Whether a moment counts as told.
    pub fn counts(&self, moment: &Moment) -> bool
        ensures { result ≡ counts (sents self.now.commands) moment.now }
    {
        match moment {
            Moment::Message(connection, message, _) => {
                message.len() >= 12 && self.has_place(&Sent::of(*connection, message.as_slice()))
            }
            Moment::End(_, message) => message.len() >= 12,
            Moment::Reset | Moment::Closed(_) => true,
        }
    }

    /// Nothing is outstanding or known, as the controller was initialised.
    pub fn reset(&mut self)
        ensures commands { sents self.new.commands ≡ [] }
        ensures units { (via : connections.Connection) (unit : ℕ)
            → wire.kept self.new.units via unit ≡ wire.told_reset }
        ensures called { (identifier : ℕ) → wire.kept_called self.new.units identifier ≡ None }
        ensures controller { self.new.controller ≡ None }
        ensures timeout { self.new.timeout ≡ None }
        ensures credits { self.new.credits ≡ self.old.credits }
    {
        self.commands.clear();
        self.units.clear();
        self.controller = None;
        self.timeout = None;
    }

    /// None of a connection's commands is outstanding, and nothing is known of units, as it closed.
    pub fn close(&mut self, connection: Connection)
        ensures commands { sents self.new.commands ≡ wire.others_of connection (sents self.old.commands) }
        ensures units { (via : connections.Connection) (unit : ℕ)
            → wire.kept self.new.units via unit ≡ wire.told_nothing }
        ensures called { (identifier : ℕ) → wire.kept_called self.new.units identifier ≡ None }
        ensures controller { self.new.controller ≡ self.old.controller }
        ensures timeout { self.new.timeout ≡ self.old.timeout }
        ensures credits { self.new.credits ≡ self.old.credits }
    {
        self.commands.close(connection);
        self.units.forget();
    }

    /// A moment is added to those before it, right or not.
    pub(crate) fn accept(&mut self, moment: &Moment) -> Result<(), OutOfMemory>
        requires { counts (sents self.old.commands) moment.now ≡ true }
        ensures after { OnOk result (sents self.new.commands
            ≡ wire.after self.old.timeout (sents self.old.commands) moment.now) }
        ensures units { OnOk result ((via : connections.Connection) (unit : ℕ) → wire.kept self.new.units via unit
            ≡ wire.told_after (sents self.old.commands) via unit (wire.kept self.old.units via unit) moment.now) }
        ensures called { OnOk result ((identifier : ℕ) → wire.kept_called self.new.units identifier
            ≡ wire.called_after identifier (wire.kept_called self.old.units identifier) moment.now) }
        ensures controller { OnOk result (self.new.controller ≡ wire.controller_after self.old.controller moment.now) }
        ensures timeout { OnOk result (self.new.timeout ≡ wire.timeout_after self.old.timeout moment.now) }
        ensures credits { self.new.credits ≡ self.old.credits }
    {
        match moment {
            Moment::Message(connection, message, time) => {
                let sent = Sent::of(*connection, message.as_slice());
                self.hear(&sent, *time)
            }
            Moment::End(connection, message) => {
                let answer = Answer::of(*connection, message.as_slice());
                let at = self.commands.cell_of(&answer);
                let settled = self.commands.settles(at, &answer);
                self.ended(&answer, at, settled)
            }
            Moment::Reset => {
                self.reset();
                Ok(())
            }
            Moment::Closed(connection) => {
                self.close(*connection);
                Ok(())
            }
        }
    }
}
