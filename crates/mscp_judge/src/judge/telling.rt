// What a log tells of answers, line by line, and what would have been right.

ghost use Rattle.std.specs.Prelude.{◌≡◌, ◌≢◌, ◌+◌, ◌<◌, ◌^◌, ◌∷◌, ◌++◌, IfSome, Option, [], true, false, OnOk, IfOk};
ghost use Rattle.mscp_judge.specs.Common.{list_all, Trace, fresh, IsValid, Settings, Wanted, Breaks, IsAhead, IsTold, Tells, Log, is_answer, telling, IsOpen, IsRightNext, IsStepRule, due_rule, is_service, starts_in, BeginsWith, IsFirstLine, Led, Stands, due};
ghost use Rattle.mscp_reader.specs.Lexical as lexical;
ghost use Rattle.mscp_queue.specs.declared.name.Name as named;
ghost use Rattle.mscp_judge.specs.Naming as naming;

use crate::answers::is_service;
use crate::judge::Judge;
use crate::naming::name_in;
use crate::rules::{Rule, due_rule, step_rule};
use crate::starting::{Starts, starts};
use arrayvec::ArrayVec;
use mscp_controller::{Name, OutOfMemory};
use mscp_reader::Words;
use std::alloc::Allocator;
use std::mem::replace;

/// A line that would have been right. The longest has 107 bytes.
pub type Right = ArrayVec<u8, 128>;

/// Whether bytes begin with this line, and a line feed behind it.
fn begins_with(bytes: &[u8], line: &[u8]) -> bool
    ensures yes { result ≡ true → BeginsWith bytes.now line.now }
    ensures no { result ≡ false → ¬ (BeginsWith bytes.now line.now) }
{
    if bytes.len() <= line.len() || bytes[line.len()] != b'\n' {
        return false;
    }
    &bytes[..line.len()] == line
}

/// The first line, without its line feed: nothing, where there is none, or it is too long.
fn first_line(bytes: &[u8]) -> Right
    ensures { IsFirstLine bytes.now result.items }
{
    let mut line = Right::new();
    for byte in bytes {
        if *byte == b'\n' {
            return line;
        }
        if line.is_full() {
            return Right::new();
        }
        line.push(*byte);
    }
    Right::new()
}

impl<A: Allocator> Judge<A> {
    /// What would be right next: the first line of what is due. If a step is missing, it is answered first, and the
    /// oldest command starts that may. It is empty where no answer is right.
    pub(crate) fn right(&mut self) -> Result<Right, OutOfMemory>
        requires { self.old.reporter.count + 1 < 2 ^ 64 }
        ensures { IfOk result (λ right. (c : Settings) (log : Log) (wanted : Option named.Name)
            → IsOpen c log wanted self.old → IsRightNext c log wanted right.items) }
    {
        if !self.due().is_empty() {
            return Ok(first_line(self.due()));
        }
        if self.owed == 0 {
            return Ok(Right::new());
        }
        self.step(None)?;
        Ok(first_line(self.due()))
    }

    /// A line was told, if it is what is due next.
    fn tell(&mut self, line: &[u8]) -> bool
        requires { list_all lexical.is_printed line.now ≡ true }
        ensures tells { (c : Settings) (log : Log) → IsAhead c log line.now self.old
            → IsTold c log (telling log (line.now ++ 10 ∷ [])) self.new result }
        ensures kept { result ≡ false → self.new ≡ self.old }
        ensures count { self.new.reporter.count + self.new.owed ≡ self.old.reporter.count + self.old.owed }
    {
        let due = self.due();
        if !begins_with(due, line) {
            return false;
        }
        let left = due.len() - line.len() - 1;
        self.told = self.reporter.lines().len() - left;
        true
    }

    /// A line tells what is due, or breaks a rule.
    fn tell_due(&mut self, line: &[u8]) -> Option<Rule>
        requires due { due self.old ≢ [] }
        requires printed { list_all lexical.is_printed line.now ≡ true }
        ensures tells { (c : Settings) (log : Log) (wanted : Option named.Name) → Stands c log self.old
            → Tells c log (telling log (line.now ++ 10 ∷ [])) wanted self.new result }
        ensures rule { IfSome result (λ rule. rule ≡ due_rule (due self.old) line.now) }
        ensures count { self.new.reporter.count + self.new.owed ≡ self.old.reporter.count + self.old.owed }
    {
        if self.tell(line) {
            return None;
        }
        Some(due_rule(self.due(), line))
    }

    /// The rule that the line of these words breaks, if it isn't what the next step answers. This is the name in it.
    fn next_rule(&self, words: Words<'_>, wanted: Option<Name>) -> Rule
        requires { wanted ≡ naming.name_in (lexical.words words.rest.now) }
        ensures idle { is_service (lexical.words words.entry.rest.now) ≡ false → result ≡ Rule.Idle }
        ensures step { is_service (lexical.words words.entry.rest.now) ≡ true
            → (c : Settings) (t : Trace) (begun : Wanted) → IsValid c
            → Led (fresh c begun) t self.now.controller
            → IsStepRule c t ((naming.name_in (lexical.words words.entry.rest.now))) result }
    {
        if is_service(words) {
            step_rule(&self.controller, wanted)
        } else {
            Rule::Idle
        }
    }

    /// Keeps what may start, if the line of the next step breaks this rule and names a command that may not.
    fn keep_starts(&mut self, rule: &Rule)
        ensures kept { self.new ≡ record self.old { starts = self.new.starts } }
        ensures starts { rule.now ≢ Rule.Service → rule.now ≢ Rule.Idle
            → (c : Settings) (t : Trace) (begun : Wanted) → IsValid c
            → Led (fresh c begun) t self.old.controller → self.new.starts.items ≡ starts_in c t }
        ensures count { self.new.reporter.count ≡ self.old.reporter.count }
        ensures owed { self.new.owed ≡ self.old.owed }
    {
        match rule {
            Rule::Service | Rule::Idle => {}
            _ => self.starts = starts(&self.controller),
        }
    }

    /// Gives away what was kept so.
    pub(crate) fn take_starts(&mut self) -> Starts
        ensures starts { result ≡ self.old.starts }
        ensures held { (c : Settings) (log : Log) (wanted : Option named.Name) → IsOpen c log wanted self.old
            → IsOpen c log wanted self.new }
        ensures count { self.new.reporter.count + self.new.owed ≡ self.old.reporter.count + self.old.owed }
    {
        replace(&mut self.starts, Starts::new())
    }

    /// The rule that the line of these words breaks, if it isn't what the next step answers, and what may start is
    /// kept. If the rule isn't wanted it is any, which is quicker.
    fn rule_ahead(&mut self, words: Words<'_>, wanted: Option<Name>, is_rule_wanted: bool) -> Rule
        requires { wanted ≡ naming.name_in (lexical.words words.rest.now) }
        ensures idle { is_rule_wanted ≡ true → is_service (lexical.words words.entry.rest.now) ≡ false
            → result ≡ Rule.Idle }
        ensures step { is_rule_wanted ≡ true → is_service (lexical.words words.entry.rest.now) ≡ true
            → (c : Settings) (t : Trace) (begun : Wanted) → IsValid c
            → Led (fresh c begun) t self.old.controller
            → IsStepRule c t ((naming.name_in (lexical.words words.entry.rest.now))) result }
        ensures starts { is_rule_wanted ≡ true → result ≢ Rule.Service → result ≢ Rule.Idle
            → (c : Settings) (t : Trace) (begun : Wanted) → IsValid c
            → Led (fresh c begun) t self.old.controller → self.new.starts.items ≡ starts_in c t }
        ensures kept { self.new ≡ record self.old { starts = self.new.starts } }
        ensures count { self.new.reporter.count ≡ self.old.reporter.count }
        ensures owed { self.new.owed ≡ self.old.owed }
    {
        if !is_rule_wanted {
            return Rule::Service;
        }
        let rule = self.next_rule(words, wanted);
        self.keep_starts(&rule);
        rule
    }

    /// A line tells what the next step does, at which the command starts that it names, or it breaks a rule.
    fn tell_step(
        &mut self,
        line: &[u8],
        words: Words<'_>,
        is_rule_wanted: bool,
    ) -> Result<Option<Rule>, OutOfMemory>
        requires count { self.old.reporter.count + 1 < 2 ^ 64 }
        requires due { due self.old ≡ [] }
        requires owed { 0 < self.old.owed }
        requires words { lexical.words words.rest.now ≡ lexical.words line.now }
        requires answer { is_answer (lexical.words line.now) ≡ true }
        requires printed { list_all lexical.is_printed line.now ≡ true }
        ensures tells { IfOk result (λ broken. (c : Settings) (log : Log) → Stands c log self.old
            → Tells c log (telling log (line.now
            ++ 10 ∷ [])) (naming.name_in (lexical.words line.now)) self.new broken) }
        ensures breaks { is_rule_wanted ≡ true
            → IfOk result (λ broken. Breaks self.old line.now broken self.new.starts.items) }
        ensures count { OnOk result (self.new.reporter.count + self.new.owed
            ≡ self.old.reporter.count + self.old.owed) }
    {
        let wanted = name_in(words);
        let rule = self.rule_ahead(words, wanted, is_rule_wanted);
        self.step(wanted)?;
        if self.tell(line) {
            return Ok(None);
        }
        Ok(Some(rule))
    }

    /// A line tells an answer: the rule that it breaks, or any if that isn't wanted; or that a legal log goes on so.
    /// The words are those of the line.
    pub(crate) fn hear(
        &mut self,
        line: &[u8],
        words: Words<'_>,
        is_rule_wanted: bool,
    ) -> Result<Option<Rule>, OutOfMemory>
        requires count { self.old.reporter.count + 1 < 2 ^ 64 }
        requires words { lexical.words words.rest.now ≡ lexical.words line.now }
        requires answer { is_answer (lexical.words line.now) ≡ true }
        requires printed { list_all lexical.is_printed line.now ≡ true }
        ensures tells { IfOk result (λ broken. (c : Settings) (log : Log) → Stands c log self.old
            → Tells c log (telling log (line.now
            ++ 10 ∷ [])) (naming.name_in (lexical.words line.now)) self.new broken) }
        ensures breaks { is_rule_wanted ≡ true
            → IfOk result (λ broken. Breaks self.old line.now broken self.new.starts.items) }
        ensures count { OnOk result (self.new.reporter.count + self.new.owed
            ≡ self.old.reporter.count + self.old.owed) }
    {
        if !self.due().is_empty() {
            return Ok(self.tell_due(line));
        }
        if self.owed == 0 {
            return Ok(Some(Rule::Unasked));
        }
        self.tell_step(line, words, is_rule_wanted)
    }
}
