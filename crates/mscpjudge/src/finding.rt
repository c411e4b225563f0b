// All that is wrong in a log of the wire. The log is judged first: only one that isn't right is gone over once more.

ghost use Rattle.std.specs.Prelude.{◌≡◌, ◌++◌, ◌∷◌, [], count_by, OnOk};
ghost use Rattle.mscp_reader.specs.Lexical as lexical;
ghost use Rattle.mscp_reader.specs.Outcome.{Tells};
ghost use Rattle.mscpjudge.specs.Common.{breaks, broken_of, broken_rules_text, finding_text, lines_found, log_found};
ghost use Rattle.mscpjudge.specs.Found as found;
ghost use Rattle.mscpjudge.specs.Found.{found_beside};
ghost use Rattle.mscpjudge.specs.Numbers.{number_by};
ghost use Rattle.mscpjudge.specs.Times.{time_of};

use crate::credits::{Account, Credits};
use crate::times::{Times, times_in};
use crate::wire::{put_wrong, rule_name, text_of};
use mscp_controller::OutOfMemory;
use mscp_reader::{Lines, ReadFault, lines_of};
use mscp_text::{put, put_field};
use mscp_wire::{Course, Finding, Places, Rule, Verdict, Wrong};
use std::alloc::{AllocError, Allocator, Global};

/// All rules, in the order in which they are asked.
fn rules_in_order() -> [Rule; 17]
    ensures { result ≡ found.rules_in_order }
{
    [
        Rule::Message,
        Rule::Number,
        Rule::Credits,
        Rule::Length,
        Rule::Outstanding,
        Rule::Unit,
        Rule::Endcode,
        Rule::Status,
        Rule::Aborted,
        Rule::Order,
        Rule::Success,
        Rule::About,
        Rule::Figure,
        Rule::Count,
        Rule::Identity,
        Rule::State,
        Rule::Controller,
    ]
}

/// How many of these rules have a name.
fn count_of(broken: &[Rule], name: &str) -> usize
    ensures { result ≡ count_by (breaks name.now) broken.now }
{
    let mut count = 0;
    for rule in broken {
        if rule_name(*rule) == name {
            count += 1;
        }
    }
    count
}

/// Appends the line of a rule, if it is among those that were broken.
#[tactic(auto, unfolding(crate::specs::Found::rule_text))]
fn put_count<A: Allocator>(
    text: &mut Vec<u8, A>,
    broken: &[Rule],
    rule: Rule,
) -> Result<(), AllocError>
    ensures { OnOk result (text.new.items ≡ text.old.items ++ found.rule_text broken.now rule) }
{
    let count = count_of(broken, rule_name(rule));
    if count == 0 {
        return Ok(());
    }
    put_field(text, "wrong: ", count)?;
    put(text, " ")?;
    put(text, rule_name(rule))?;
    put(text, "\n")
}

/// Appends the lines of all rules that were broken.
fn put_counts<A: Allocator>(text: &mut Vec<u8, A>, broken: &[Rule]) -> Result<(), OutOfMemory>
    ensures { OnOk result (text.new.items ≡ text.old.items ++ broken_rules_text broken.now) }
{
    let rules = rules_in_order();
    for rule in rules.as_slice() {
        put_count(text, broken, *rule)?;
    }
    Ok(())
}

/// Appends what is found in a line.
#[tactic(auto, unfolding(crate::specs::Found::finding_text))]
fn put_finding(
    text: &mut Vec<u8>,
    broken: &mut Vec<Rule>,
    finding: &Finding,
    credits: &Option<Credits>,
    times: &Times<'_>,
) -> Result<(), OutOfMemory>
    ensures text { OnOk result (text.new.items ≡ text.old.items
        ++ finding_text (number_by times.now.numbers.now) (time_of times.now.lines)
        (record { finding = finding.now; credits = credits.now })) }
    ensures broken { OnOk result (broken.new.items ≡ broken.old.items ++ finding.now.wrong.rule ∷ []) }
{
    put_wrong(text, &finding.wrong, credits, &finding.places, times)?;
    broken.push(finding.wrong.rule)?;
    Ok(())
}

/// What is found in a line: what the judge of the wire found, or else a message without a credit.
fn found_beside(found: Option<Finding>, breach: Option<Wrong>) -> Option<Finding>
    ensures { result ≡ found_beside found breach }
{
    match (found, breach) {
        (Some(finding), _) => Some(finding),
        (None, Some(wrong)) => Some(Finding {
            wrong,
            places: Places {
                sent: None,
                passed: None,
                asked: None,
            },
        }),
        (None, None) => None,
    }
}

/// What is found in lines.
fn find_lines(alloc: Global, lines: &mut Lines<'_>, times: &Times<'_>) -> Result<Vec<u8>, ReadFault>
    requires { lines.old.number ≡ 0 }
    ensures { Tells (λ text. text.items) result (lines_found (number_by times.now.numbers.now) (time_of times.now.lines)
        (lexical.lines lines.old.rest.now)) }
{
    let mut course = Course::new(alloc);
    let mut account = Account::unknown();
    let mut text = Vec::new(alloc);
    let mut broken = Vec::new(alloc);
    while let Some(line) = lines.cut() {
        let before = account;
        let breach = account.line(lines.number, line);
        let found = course.line(alloc, lines.number, line)?;
        if let Some(finding) = found_beside(found, breach) {
            let credits = before.told_in(&finding.wrong);
            put_finding(&mut text, &mut broken, &finding, &credits, times)?;
        }
    }
    put_counts(&mut text, broken.as_slice())?;
    Ok(text)
}

/// What is found in a log.
fn find_all(alloc: Global, bytes: &[u8], numbers: &[u32]) -> Result<Vec<u8>, ReadFault>
    ensures { Tells (λ text. text.items) result (log_found (number_by numbers.now) bytes.now) }
{
    let mut lines = lines_of(bytes)?;
    let times = times_in(alloc, bytes, numbers)?;
    find_lines(alloc, &mut lines, &times)
}

/// What is said of a log of which this is the verdict.
pub(crate) fn all_of(
    alloc: Global,
    log: &[u8],
    numbers: &[u32],
    verdict: &Verdict<Global>,
) -> Result<Vec<u8>, ReadFault>
    ensures { Tells (λ text. text.items) result (found.verdict_found (number_by numbers.now) log.now verdict.now) }
{
    match verdict {
        Verdict::Right(..) => Ok(text_of(alloc, log, numbers, verdict)?),
        Verdict::Wrong(_) => find_all(alloc, log, numbers),
    }
}
