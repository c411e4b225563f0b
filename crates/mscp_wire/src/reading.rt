// What comes of the lines of a log, one after another, while each moment is right.

ghost use Rattle.std.specs.Prelude.{◌≡◌, ◌≤◌, ◌<◌, ◌+◌, ◌++◌, ◌∷◌, [], length, true, OnOk, Ok, Some};
ghost use Rattle.mscp_wire.specs.Course.{is_named_in};
ghost use Rattle.mscp_wire.specs.Doubts as doubt;
ghost use Rattle.mscp_wire.specs.Kept.{sents};
ghost use Rattle.mscp_wire.specs.Log as logs;
ghost use Rattle.mscp_wire.specs.Log.{Log, nothing};
ghost use Rattle.mscp_wire.specs.Middle.{IsMiddleOf};
ghost use Rattle.mscp_wire.specs.Right.{Goes, HasFew, IsAfter, IsOf};
ghost use Rattle.mscp_wire.specs.Totals as total;
ghost use Rattle.mscp_wire.specs.Wire.{History, broken_by, outstanding};

use crate::doubts::{Doubtful, Doubts};
use crate::judge::{Judge, Stepped};
use crate::line::{Said, line_says};
use crate::middle::{Middle, hear_if, hear_stranger, is_outstanding, is_slow, spares};
use crate::moment::Moment;
use crate::rule::Rule;
use crate::sent::Sent;
use crate::totals::Totals;
use crate::wrong::Wrong;
use mscp_drive::OutOfMemory;
use mscp_reader::{Cause, ReadFault, ScriptFault};
use std::alloc::Allocator;

/// What came of the lines so far.
#[derive(Drop)]
pub struct Reading<A: Allocator> {
    pub judge: Judge<A>,
    pub totals: Totals,
    pub doubts: Doubts,
    /// What a log shows that begins in the middle, and is still there.
    pub middle: Option<Middle<A>>,
}

/// A line of this number may not say what it does here.
pub(crate) fn misplaced(number: u32) -> ReadFault
    ensures { result ≡ ReadFault.Script (record { line = number; cause = Cause.Word }) }
{
    ReadFault::Script(ScriptFault {
        line: number,
        cause: Cause::Word,
    })
}

impl<A: Allocator + Copy> Reading<A> {
    /// Of no line.
    pub fn new(alloc: A) -> Reading<A>
        ensures after { IsAfter nothing result }
        ensures few { HasFew result 1 }
    {
        Reading {
            judge: Judge::new(alloc, None),
            totals: Totals::none(),
            doubts: Doubts::none(),
            middle: None,
        }
    }

    /// What comes of it that each host has so many credits. That is told before anything else.
    fn credits(&mut self, number: u32, credits: u32) -> Result<Option<Wrong>, ReadFault>
        requires { HasFew self.old number }
        ensures after { (log : Log) → IsAfter log self.old
            → Goes number log (Ok (Said.Credits credits)) result self.new }
        ensures few { OnOk result (HasFew self.new (number + 1)) }
    {
        if self.judge.credits.is_some() || self.totals.counts.moments != 0 {
            return Err(misplaced(number));
        }
        self.judge.credits = Some(credits);
        Ok(None)
    }

    /// What comes of it that the log begins in the middle. That is told before the credits.
    fn begin(&mut self, alloc: A, number: u32) -> Result<Option<Wrong>, ReadFault>
        requires { HasFew self.old number }
        ensures after { (log : Log) → IsAfter log self.old → Goes number log (Ok Said.Begun) result self.new }
        ensures few { OnOk result (HasFew self.new (number + 1)) }
    {
        if self.middle.is_some()
            || self.judge.credits.is_some()
            || self.totals.counts.moments != 0
        {
            return Err(misplaced(number));
        }
        self.middle = Some(Middle::new(alloc));
        Ok(None)
    }

    /// A moment counts, and the judge knows of it.
    fn add(
        &mut self,
        number: u32,
        moment: &Moment,
        command: Option<Sent>,
        fall: u32,
        doubtful: &Doubtful,
    ) -> Result<(), OutOfMemory>
        requires few { HasFew self.old number }
        requires named { is_named_in moment.now ≡ true }
        ensures judge { self.new.judge ≡ self.old.judge }
        ensures totals { (h : History) → self.old.totals ≡ total.totals_of h
            → sents self.old.judge.commands ≡ outstanding (h ++ moment.now ∷ [])
            → fall ≡ total.fall_after (outstanding h) moment.now
            → self.new.totals ≡ total.totals_of (h ++ moment.now ∷ []) }
        ensures doubts { self.new.doubts ≡ doubt.doubts_with self.old.doubts doubtful.now
            (record { line = number; command = command }) }
        ensures middle { OnOk result ((log : Log) → IsMiddleOf log self.old.middle
            → IsMiddleOf (logs.with_moment number log moment.now) self.new.middle) }
        ensures few { OnOk result (HasFew self.new (number + 1)) }
    {
        let queue = self.judge.commands.len();
        self.totals.add(number, moment, queue, fall);
        self.doubts.add(number, doubtful, command);
        hear_if(&mut self.middle, moment)?;
        Ok(())
    }

    /// A moment that breaks a rule which isn't asked of it counts, or it is the end of a command that the log doesn't
    /// send.
    fn spare(
        &mut self,
        number: u32,
        moment: &Moment,
        rule: Rule,
        stepped: &Stepped,
    ) -> Result<(), OutOfMemory>
        requires { HasFew self.old number }
        ensures after { OnOk result ((log : Log) → IsAfter log self.old
            → broken_by log.credits log.moments moment.now ≡ Some rule → logs.spared log moment.now rule ≡ true
            → IsOf log moment.now stepped.now → IsAfter (logs.with_either number log moment.now) self.new) }
        ensures few { OnOk result (HasFew self.new (number + 1)) }
    {
        if is_outstanding(rule) {
            hear_stranger(&mut self.middle, moment)?;
            return Ok(());
        }
        let doubtful = Doubtful {
            figure: is_slow(&self.middle, moment, rule),
            ..stepped.doubtful
        };
        if self.judge.counts(moment) {
            self.judge.accept(moment)?;
            self.add(number, moment, stepped.command, stepped.fall, &doubtful)?;
        }
        Ok(())
    }

    /// What comes of a moment.
    #[inline(never)]
    fn moment(&mut self, number: u32, moment: Moment) -> Result<Option<Wrong>, ReadFault>
        requires { HasFew self.old number }
        ensures after { (log : Log) → IsAfter log self.old
            → Goes number log (Ok (Said.Happens moment)) result self.new }
        ensures few { OnOk result (HasFew self.new (number + 1)) }
    {
        let stepped = self.judge.step(&moment)?;
        match stepped.rule {
            None => {
                self.add(
                    number,
                    &moment,
                    stepped.command,
                    stepped.fall,
                    &stepped.doubtful,
                )?;
                Ok(None)
            }
            Some(rule) if spares(&self.middle, &moment, rule) => {
                self.spare(number, &moment, rule, &stepped)?;
                Ok(None)
            }
            Some(rule) => Ok(Some(Wrong {
                line: number,
                rule,
                passed: self.judge.passed(&moment),
                seen: self.judge.seen(&moment),
                moment,
                command: stepped.command,
            })),
        }
    }

    /// What comes of what the line of this number says.
    fn said(&mut self, alloc: A, number: u32, said: Said) -> Result<Option<Wrong>, ReadFault>
        requires { HasFew self.old number }
        ensures after { (log : Log) → IsAfter log self.old
            → Goes number log (Ok said) result self.new }
        ensures few { OnOk result (HasFew self.new (number + 1)) }
    {
        match said {
            Said::Nothing | Said::Attention(..) => Ok(None),
            Said::Credits(credits) => self.credits(number, credits),
            Said::Begun => self.begin(alloc, number),
            Said::Happens(moment) => self.moment(number, moment),
        }
    }

    /// What comes of the line of this number.
    ///
    /// # Errors
    ///
    /// What is wrong with the line itself, or `OutOfMemory`.
    pub fn line(&mut self, alloc: A, number: u32, bytes: &[u8]) -> Result<Option<Wrong>, ReadFault>
        requires line { 1 ≤ number }
        requires few { HasFew self.old number }
        ensures after { (log : Log) → IsAfter log self.old
            → Goes number log (logs.line_says number bytes.now) result self.new }
        ensures few { OnOk result (HasFew self.new (number + 1)) }
    {
        let said = line_says(number, bytes)?;
        self.said(alloc, number, said)
    }
}
