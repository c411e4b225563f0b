// All that is wrong in a log, line by line.
//
// A moment that isn't right counts as told if it can, so that what comes behind it is judged, too. The judge of a log
// that is right knows nothing of this: it stops at the first moment that isn't. Only then the log is gone over once
// more, for all that is wrong, and for the lines in which that was told. So a log that is right pays nothing for it.

ghost use Rattle.std.specs.Prelude.{◌≡◌, ◌≤◌, ℕ, false, true, OnOk, IfOk, Some};
ghost use Rattle.mscp_drive.specs.declared.connection.Connection as connections;
ghost use Rattle.mscp_reader.specs.Lexical as lexical;
ghost use Rattle.mscp_wire.specs.Course as course;
ghost use Rattle.mscp_wire.specs.Course.{Findings, GoesOn, IsOn, finding_in, is_named_in, mention_after, mention_of, mentions_after, mentions_counted, no_mentions, with_counted, with_told};
ghost use Rattle.mscp_wire.specs.Log as logs;
ghost use Rattle.mscp_wire.specs.Log.{Log, broken_in, nothing, spared, with_moment};
ghost use Rattle.mscp_wire.specs.Middle.{IsMiddleOf};
ghost use Rattle.mscp_wire.specs.Wire.{broken_by, command_of, outstanding};
ghost use Rattle.mscp_wire.specs.declared.mentions.Mention as mentioned;

use crate::judge::{Judge, Stepped};
use crate::line::{Said, line_says};
use crate::mentions::Mentions;
use crate::middle::{Middle, hear_if, hear_stranger, is_outstanding, spares};
use crate::moment::Moment;
use crate::reading::misplaced;
use crate::rule::Rule;
use crate::sent::Sent;
use crate::wrong::Wrong;
use mscp_drive::OutOfMemory;
use mscp_reader::{Lines, ReadFault, lines_of};
use std::alloc::Allocator;

/// In which lines is told what a moment that isn't right is compared with, counted from 1.
#[derive(Clone, Copy)]
pub struct Places {
    /// The last line before it that sent its command, or one of its number.
    pub sent: Option<u32>,
    /// That which sent the command which keeps its command back.
    pub passed: Option<u32>,
    /// If its command is a poll, that which had told the figure of the polled one.
    pub asked: Option<u32>,
}

impl Places {
    /// Nowhere.
    fn nowhere() -> Places
        ensures { result ≡ course.nowhere }
    {
        Places {
            sent: None,
            passed: None,
            asked: None,
        }
    }
}

/// A moment that isn't right.
#[derive(Drop)]
pub struct Finding {
    pub wrong: Wrong,
    pub places: Places,
}

/// What came of the lines so far.
#[derive(Drop)]
pub struct Course<A: Allocator> {
    pub judge: Judge<A>,
    /// Whether nothing was said so far, so that credits may be told.
    pub fresh: bool,
    pub mentions: Mentions<A>,
    /// What a log shows that begins in the middle, and is still there.
    pub middle: Option<Middle<A>>,
}

impl<A: Allocator + Copy> Course<A> {
    /// Of no line.
    pub fn new(alloc: A) -> Course<A>
        ensures { IsOn nothing no_mentions result }
    {
        Course {
            judge: Judge::new(alloc, None),
            fresh: true,
            mentions: Mentions::none(alloc),
            middle: None,
        }
    }

    /// What comes of it that each host has so many credits.
    fn credits(&mut self, number: u32, credits: u32) -> Result<Option<Finding>, ReadFault>
        ensures { (f : Findings) → IsOn f.log f.mentions self.old
            → GoesOn number f (Ok (Said.Credits credits)) result self.new }
    {
        if !self.fresh {
            return Err(misplaced(number));
        }
        self.judge.credits = Some(credits);
        self.fresh = false;
        Ok(None)
    }

    /// What comes of it that the log begins in the middle.
    fn begin(&mut self, alloc: A, number: u32) -> Result<Option<Finding>, ReadFault>
        ensures { (f : Findings) → IsOn f.log f.mentions self.old → GoesOn number f (Ok Said.Begun) result self.new }
    {
        if self.middle.is_some() || !self.fresh {
            return Err(misplaced(number));
        }
        self.middle = Some(Middle::new(alloc));
        Ok(None)
    }

    /// What is wrong of a moment that breaks this rule first, and is about this command.
    fn finding(&self, number: u32, rule: Rule, command: Option<Sent>, moment: Moment) -> Finding
        ensures found { (f : Findings) → IsOn f.log f.mentions self.now
            → broken_in f.log moment ≡ Some rule
            → command ≡ command_of (outstanding f.log.moments) moment
            → finding_in number f moment ≡ Some result }
        ensures moment { result.wrong.moment ≡ moment }
    {
        let passed = self.judge.passed(&moment);
        Finding {
            places: Places {
                sent: self.mentions.sent(&command),
                passed: self.mentions.sent(&passed),
                asked: self.mentions.asked(&command),
            },
            wrong: Wrong {
                line: number,
                rule,
                seen: self.judge.seen(&moment),
                moment,
                command,
                passed,
            },
        }
    }

    /// The line of this number tells a moment, right or not: it counts, if it can.
    fn count(&mut self, number: u32, moment: &Moment) -> Result<(), OutOfMemory>
        ensures { (log : Log) (mentions : connections.Connection → ℕ → mentioned.Mention)
            → IsOn log mentions self.old → OnOk result (IsOn (with_counted number log moment.now)
            (mentions_counted number log mentions moment.now) self.new) }
    {
        if !self.judge.counts(moment) {
            return Ok(());
        }
        self.judge.accept(moment)?;
        self.note(number, moment)?;
        Ok(())
    }

    /// A moment counts, and the judge knows of it.
    fn note(&mut self, number: u32, moment: &Moment) -> Result<(), OutOfMemory>
        requires { is_named_in moment.now ≡ true }
        ensures judge { self.new.judge ≡ self.old.judge }
        ensures fresh { self.new.fresh ≡ false }
        ensures mentions { OnOk result ((via : connections.Connection) (reference : ℕ)
            → mention_of self.new.mentions.lines via reference
            ≡ mention_after number (mention_of self.old.mentions.lines) moment.now via reference) }
        ensures middle { OnOk result ((log : Log) → IsMiddleOf log self.old.middle
            → IsMiddleOf (with_moment number log moment.now) self.new.middle) }
    {
        self.fresh = false;
        self.mentions.hear(number, moment)?;
        hear_if(&mut self.middle, moment)?;
        Ok(())
    }

    /// A moment that breaks a rule which isn't asked of it counts, or it is the end of a command that the log doesn't
    /// send.
    fn spare(&mut self, number: u32, moment: &Moment, rule: Rule) -> Result<(), OutOfMemory>
        ensures { (log : Log) (mentions : connections.Connection → ℕ → mentioned.Mention)
            → IsOn log mentions self.old → broken_by log.credits log.moments moment.now ≡ Some rule
            → spared log moment.now rule ≡ true → OnOk result (IsOn (with_told number log moment.now)
            (mentions_after number log mentions moment.now) self.new) }
    {
        if is_outstanding(rule) {
            hear_stranger(&mut self.middle, moment)?;
            return Ok(());
        }
        self.count(number, moment)
    }

    /// What comes of a moment.
    fn moment(&mut self, number: u32, moment: Moment) -> Result<Option<Finding>, ReadFault>
        ensures { (f : Findings) → IsOn f.log f.mentions self.old
            → GoesOn number f (Ok (Said.Happens moment)) result self.new }
    {
        let Stepped { rule, command, .. } = self.judge.step(&moment)?;
        match rule {
            None => {
                self.note(number, &moment)?;
                Ok(None)
            }
            Some(rule) if spares(&self.middle, &moment, rule) => {
                self.spare(number, &moment, rule)?;
                Ok(None)
            }
            Some(rule) => {
                let finding = self.finding(number, rule, command, moment);
                self.count(number, &finding.wrong.moment)?;
                Ok(Some(finding))
            }
        }
    }

    /// What comes of what the line of this number says.
    fn said(&mut self, alloc: A, number: u32, said: Said) -> Result<Option<Finding>, ReadFault>
        ensures { (f : Findings) → IsOn f.log f.mentions self.old → GoesOn number f (Ok said) result self.new }
    {
        match said {
            Said::Nothing | Said::Attention(..) => Ok(None),
            Said::Credits(credits) => self.credits(number, credits),
            Said::Begun => self.begin(alloc, number),
            Said::Happens(moment) => self.moment(number, moment),
        }
    }

    /// What comes of the line of this number: what isn't right in it, if something isn't.
    ///
    /// # Errors
    ///
    /// What is wrong with the line itself, or `OutOfMemory`.
    pub fn line(
        &mut self,
        alloc: A,
        number: u32,
        bytes: &[u8],
    ) -> Result<Option<Finding>, ReadFault>
        requires { 1 ≤ number }
        ensures { (f : Findings) → IsOn f.log f.mentions self.old
            → GoesOn number f (logs.line_says number bytes.now) result self.new }
    {
        let said = line_says(number, bytes)?;
        self.said(alloc, number, said)
    }
}

/// The same of the first one in these lines.
fn places_of<A: Allocator + Copy>(alloc: A, lines: &mut Lines<'_>) -> Result<Places, OutOfMemory>
    requires { lines.old.number ≡ 0 }
    ensures { IfOk result (λ places. places ≡ course.places_by (course.first_in 0 course.no_findings
        (lexical.lines lines.old.rest.now))) }
{
    let mut course = Course::new(alloc);
    while let Some(line) = lines.cut() {
        match course.line(alloc, lines.number, line) {
            Ok(None) => {}
            Ok(Some(finding)) => return Ok(finding.places),
            Err(ReadFault::Script(_)) => return Ok(Places::nowhere()),
            Err(ReadFault::OutOfMemory) => return Err(OutOfMemory),
        }
    }
    Ok(Places::nowhere())
}

/// In which lines of a log is told what its first moment that isn't right is compared with: nowhere, if there is none,
/// or if a line before it is at fault.
///
/// # Errors
///
/// `OutOfMemory` if memory runs out.
pub fn places_in<A: Allocator + Copy>(alloc: A, bytes: &[u8]) -> Result<Places, OutOfMemory>
    ensures { IfOk result (λ places. places ≡ course.places_in bytes.now) }
{
    match lines_of(bytes) {
        Ok(mut lines) => places_of(alloc, &mut lines),
        Err(_) => Ok(Places::nowhere()),
    }
}
