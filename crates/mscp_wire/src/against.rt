// What a moment that breaks a rule contradicts, beside its command. It is asked once a log, of a judge that is as it
// was before that moment: so no line that is right pays for it.

ghost use Rattle.std.specs.Prelude.{◌≡◌, if◌then◌else◌, None};
ghost use Rattle.mscp_wire.specs.Wire as wire;
ghost use Rattle.mscp_wire.specs.Kept.{sents};

use crate::answer::{Answer, is_long};
use crate::judge::Judge;
use crate::moment::Moment;
use crate::sent::Sent;
use crate::told::{Seen, Told};
use mscp_drive::Connection;
use std::alloc::Allocator;

impl<A: Allocator + Copy> Judge<A> {
    /// The command that the end in these bytes passes, if it passes one.
    fn passed_by(&self, connection: Connection, bytes: &[u8]) -> Option<Sent>
        ensures { result ≡ (if wire.is_long bytes.now then wire.passed_at (sents self.now.commands)
            (wire.place_of (sents self.now.commands) (wire.answer_by connection bytes.now)) else None) }
    {
        if !is_long(bytes) {
            return None;
        }
        let at = self.commands.cell_of(&Answer::of(connection, bytes));
        self.commands.passed_at(at)
    }

    /// The command that a moment's end passes, if it passes one.
    pub fn passed(&self, moment: &Moment) -> Option<Sent>
        ensures { result ≡ wire.passed_of (sents self.now.commands) moment.now }
    {
        match moment {
            Moment::End(connection, message) => self.passed_by(*connection, message.as_slice()),
            _ => None,
        }
    }

    /// What an end is compared with: what was told of its unit, if it is settled, and of the controller.
    pub fn seen_by(&self, answer: &Answer, settled: bool) -> Seen
        ensures { result ≡ record {
          unit = if settled then wire.kept self.now.units answer.now.connection answer.now.unit else wire.told_nothing;
          controller = self.now.controller;
        } }
    {
        let unit = if settled {
            self.units.told(answer.connection, answer.unit)
        } else {
            Told::nothing()
        };
        Seen {
            unit,
            controller: self.controller,
        }
    }

    /// The same of the end in these bytes.
    fn seen_in(&self, connection: Connection, bytes: &[u8]) -> Seen
        ensures { result ≡ (if wire.is_long bytes.now then record {
          unit = wire.unit_before (sents self.now.commands) (wire.kept self.now.units)
              (wire.answer_by connection bytes.now);
          controller = self.now.controller;
        } else wire.seen_nothing) }
    {
        if !is_long(bytes) {
            return Seen::nothing();
        }
        let answer = Answer::of(connection, bytes);
        let at = self.commands.cell_of(&answer);
        self.seen_by(&answer, self.commands.settles(at, &answer))
    }

    /// The same of a moment's end.
    pub fn seen(&self, moment: &Moment) -> Seen
        ensures { result ≡ wire.seen_before (sents self.now.commands)
            (wire.kept self.now.units) self.now.controller moment.now }
    {
        match moment {
            Moment::End(connection, message) => self.seen_in(*connection, message.as_slice()),
            _ => Seen::nothing(),
        }
    }
}
