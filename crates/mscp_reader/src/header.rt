// The header of a script: each line once and in order, but for 1 to 16 units.

ghost use Rattle.std.specs.Prelude.{◌≡◌, ◌<◌, ◌≤◌, [], ℕ, nat_lt, length, IfOk, IfErr, OnOk};
ghost use Rattle.mscp_reader.specs.Common.{list_all, IsUnitList, NumbersRise, Gives, Place, Begins, HasCredits, HasTimeout, HasUnits, HasGone, Both, Sets, Heads, Leads, both_of, budget_of, limited, rest_headed, rest_outcome, settled, place_after};
ghost use Rattle.mscp_drive.specs.Settings as settings;
ghost use Rattle.mscp_reader.specs.Lexical as lexical;
ghost use Rattle.mscp_reader.specs.Grammar as grammar;

use crate::fault::{Cause, ScriptFault};
use crate::lines::Lines;
use crate::numbers::{narrow, number, wide};
use crate::words::Words;
use arrayvec::ArrayVec;
use mscp_drive::{Config, Unit, Units};

/// What a script's controller is known by.
const IDENTIFIER: u64 = 1;

/// The most units that a controller may have.
const MOST_UNITS: usize = 16;

/// How far a command may be passed.
#[derive(Clone, Copy)]
enum Limit {
    /// By so many blocks.
    Budget(u32),
    /// As often, each time by the longest transfer.
    Passing(u32),
}

/// The credits of each connection. The second has none where there is none.
#[derive(Clone, Copy)]
struct Credits {
    first: u32,
    second: u32,
}

/// The limits of a header.
#[derive(Clone, Copy)]
struct Limits {
    credits: Credits,
    limit: Limit,
    longest: u32,
    timeout: u16,
}

/// Reads the header, up to its `go`.
///
/// # Errors
///
/// The first line at fault, or `Header` if no `go` comes.
pub fn read_header(lines: &mut Lines<'_>) -> Result<Config, ScriptFault>
    ensures fault { IfErr result (λ fault. 1 ≤ fault.line) }
    // The lines of the header lead there, or have this fault.
    ensures heads { Heads (λ config. HasGone config []) (rest_headed lines.old.number Begins lines.old.rest.now)
        lines.new.number lines.new.rest.now result }
    // So what comes of the script is what comes of the lines behind it.
    ensures leads { Leads (λ config. HasGone config []) (rest_outcome lines.old.number Begins lines.old.rest.now)
        lines.new.number lines.new.rest.now result }
{
    let limits = read_limits(lines)?;
    let mut units = ArrayVec::new();
    read_unit(lines, limits, &mut units)?;
    loop {
        if let Some(config) = read_unit_or_go(lines, limits, &mut units)? {
            return Ok(config);
        }
    }
}

/// Reads the lines before the units.
fn read_limits(lines: &mut Lines<'_>) -> Result<Limits, ScriptFault>
    ensures fault { IfErr result (λ fault. 1 ≤ fault.line) }
    ensures heads { Heads (λ limits. HasTimeout (settled limits [])) (rest_headed lines.old.number Begins
        lines.old.rest.now) lines.new.number lines.new.rest.now result }
{
    let credits = read_credits(lines)?;
    let limit = read_limit(lines)?;
    let longest = read_setting(lines, b"longest", 4_294_967_295)?;
    let timeout = read_setting(lines, b"timeout", 65_535)?;
    Ok(Limits {
        credits,
        limit,
        longest,
        timeout: timeout as u16,
    })
}

/// Reads the line of the credits.
fn read_credits(lines: &mut Lines<'_>) -> Result<Credits, ScriptFault>
    ensures fault { IfErr result (λ fault. 1 ≤ fault.line) }
    ensures heads { Heads (λ all. HasCredits (both_of all)) (rest_headed lines.old.number Begins lines.old.rest.now)
        lines.new.number lines.new.rest.now result }
{
    let line = lines.header_line()?;
    ScriptFault::at(line.number, credits_of(line.words))
}

/// Reads the line of this word and of a number that is at most so much.
fn read_setting(lines: &mut Lines<'_>, name: &[u8], most: u32) -> Result<u32, ScriptFault>
    ensures fault { IfErr result (λ fault. 1 ≤ fault.line) }
    ensures bound { IfOk result (λ value. value ≤ most) }
    ensures heads { (p : Place) (made : ℕ → Place) → Sets p name.now most made → Heads made (rest_headed
        lines.old.number p lines.old.rest.now) lines.new.number lines.new.rest.now result }
{
    let line = lines.header_line()?;
    ScriptFault::at(line.number, setting(line.words, name, most))
}

/// Reads the line of the budget.
fn read_limit(lines: &mut Lines<'_>) -> Result<Limit, ScriptFault>
    ensures fault { IfErr result (λ fault. 1 ≤ fault.line) }
    ensures heads { (all : Both ℕ) → Heads (limited all) (rest_headed lines.old.number (HasCredits all)
        lines.old.rest.now) lines.new.number lines.new.rest.now result }
{
    let line = lines.header_line()?;
    ScriptFault::at(line.number, limit_of(line.words))
}

/// Reads the line of the first unit.
fn read_unit(
    lines: &mut Lines<'_>,
    limits: Limits,
    units: &mut ArrayVec<Unit, 16>,
) -> Result<(), ScriptFault>
    requires { units.old.items ≡ [] }
    ensures fault { IfErr result (λ fault. 1 ≤ fault.line) }
    ensures list { OnOk result (IsUnitList units.new.items) }
    ensures heads { Heads (λ done. HasUnits (settled limits units.new.items)) (rest_headed lines.old.number
        (HasTimeout (settled limits [])) lines.old.rest.now) lines.new.number lines.new.rest.now result }
{
    let line = lines.header_line()?;
    ScriptFault::at(line.number, first_unit(line.words, units))
}

/// Reads a line after a unit: one more unit, or the end of the header.
fn read_unit_or_go(
    lines: &mut Lines<'_>,
    limits: Limits,
    units: &mut ArrayVec<Unit, 16>,
) -> Result<Option<Config>, ScriptFault>
    requires { IsUnitList units.old.items }
    ensures shorter { OnOk result (length lines.new.rest.now < length lines.old.rest.now) }
    ensures fault { IfErr result (λ fault. 1 ≤ fault.line) }
    ensures list { OnOk result (IsUnitList units.new.items) }
    ensures heads { Heads (place_after (settled limits units.new.items)) (rest_headed lines.old.number (HasUnits
        (settled limits units.old.items)) lines.old.rest.now) lines.new.number lines.new.rest.now result }
{
    let line = lines.header_line()?;
    ScriptFault::at(line.number, unit_or_go(line.words, limits, units))
}

/// The number of a line, whose first word is this one.
#[tactic(auto, unfolding(crate::specs::Grammar::setting))]
fn setting(mut words: Words<'_>, name: &[u8], most: u32) -> Result<u32, Cause>
    ensures bound { IfOk result (λ value. value ≤ most) }
    ensures value { result ≡ grammar.setting name.now most (lexical.words words.entry.rest.now) }
{
    let Some(word) = words.next_word() else {
        return Err(Cause::Word);
    };
    if word != name {
        return Err(Cause::Word);
    }
    number(most, words.one()?)
}

/// The credits of a line, whose first word is `credits`.
#[tactic(auto, unfolding(crate::specs::Grammar::credits))]
fn credits_of(mut words: Words<'_>) -> Result<Credits, Cause>
    ensures { Gives (λ all. HasCredits (both_of all)) result (grammar.credits (lexical.words words.entry.rest.now)) }
{
    let Some(word) = words.next_word() else {
        return Err(Cause::Word);
    };
    if word != b"credits".as_slice() {
        return Err(Cause::Word);
    }
    credit_fields(words)
}

/// The credits of these fields: of the first connection, and of the second, if it is named.
#[tactic(auto, unfolding(crate::specs::Grammar::credits_of))]
fn credit_fields(mut words: Words<'_>) -> Result<Credits, Cause>
    ensures { Gives both_of result (grammar.credits_of (lexical.words words.entry.rest.now)) }
{
    let first = words.next_field()?;
    let Some(second) = words.next_word() else {
        return Ok(Credits {
            first: wide(first)?,
            second: 0,
        });
    };
    words.none()?;
    Ok(Credits {
        first: wide(first)?,
        second: wide(second)?,
    })
}

/// The limit of a line, whose first word is `budget` or `passing`.
#[tactic(auto, unfolding(crate::specs::Grammar::limit))]
fn limit_of(mut words: Words<'_>) -> Result<Limit, Cause>
    ensures { (all : Both ℕ) → Gives (limited all) result (grammar.limit all (lexical.words words.entry.rest.now)) }
{
    let Some(word) = words.next_word() else {
        return Err(Cause::Word);
    };
    if word == b"budget".as_slice() {
        return Ok(Limit::Budget(only_number(words)?));
    }
    if word == b"passing".as_slice() {
        return Ok(Limit::Passing(only_number(words)?));
    }
    Err(Cause::Word)
}

/// The number that is the only field left.
fn only_number(words: Words<'_>) -> Result<u32, Cause>
    ensures { result ≡ grammar.only_number (lexical.words words.entry.rest.now) }
{
    wide(words.one()?)
}

/// The unit of a line, whose first word is `unit`.
#[tactic(auto, unfolding(crate::specs::Grammar::first_units))]
fn first_unit(mut words: Words<'_>, units: &mut ArrayVec<Unit, 16>) -> Result<(), Cause>
    requires { units.old.items ≡ [] }
    ensures list { OnOk result (IsUnitList units.new.items) }
    ensures units { Gives (λ done. units.new.items) result (grammar.first_units (lexical.words words.entry.rest.now)) }
{
    let Some(word) = words.next_word() else {
        return Err(Cause::Word);
    };
    if word != b"unit".as_slice() {
        return Err(Cause::Word);
    }
    add_unit(units, words)
}

/// What a line after a unit brings: one more unit, or the configuration.
#[tactic(auto, unfolding(crate::specs::Grammar::unit_or_go, crate::specs::Grammar::with_unit, crate::specs::Grammar::gone))]
fn unit_or_go(
    mut words: Words<'_>,
    limits: Limits,
    units: &mut ArrayVec<Unit, 16>,
) -> Result<Option<Config>, Cause>
    requires { IsUnitList units.old.items }
    ensures list { OnOk result (IsUnitList units.new.items) }
    ensures place { Gives (place_after (settled limits units.new.items)) result (grammar.unit_or_go (settled limits
        units.old.items) (lexical.words words.entry.rest.now)) }
{
    let Some(word) = words.next_word() else {
        return Err(Cause::Word);
    };
    if word == b"unit".as_slice() {
        add_unit(units, words)?;
        return Ok(None);
    }
    if word == b"go".as_slice() {
        words.none()?;
        return Ok(Some(configured(limits, units)?));
    }
    Err(Cause::Word)
}

/// One more unit, of these fields. There are at most 16, each of a higher number than those before.
#[tactic(auto, using(crate::proofs::Rising::one_more_rises, crate::proofs::Rising::has_room_some), unfolding(crate::specs::Grammar::more_units))]
fn add_unit(units: &mut ArrayVec<Unit, 16>, words: Words<'_>) -> Result<(), Cause>
    requires { NumbersRise units.old.items }
    ensures list { OnOk result (IsUnitList units.new.items) }
    ensures units { Gives (λ done. units.new.items) result (grammar.more_units units.old.items (lexical.words
        words.entry.rest.now)) }
{
    let unit = unit_of(words)?;
    if !has_room(units.as_slice(), unit.number()) {
        return Err(Cause::Unit);
    }
    units.push(unit);
    Ok(())
}

/// Whether there may be one more unit of this number.
fn has_room(units: &[Unit], number: u16) -> bool
    ensures { result ≡ grammar.has_room units.now number }
{
    units.len() < MOST_UNITS && is_above(units, number)
}

/// Whether each unit has a lower number.
fn is_above(units: &[Unit], number: u16) -> bool
    ensures { result ≡ list_all (λ other. nat_lt other.number number) units.now }
{
    units.iter().all(|other| other.number() < number)
}

/// The unit of these fields.
#[tactic(auto, unfolding(crate::specs::Grammar::unit_of))]
fn unit_of(words: Words<'_>) -> Result<Unit, Cause>
    ensures { result ≡ grammar.unit_of (lexical.words words.entry.rest.now) }
{
    let (number, track, group, cylinder, size) = words.five()?;
    unit_with(
        narrow(number)?,
        narrow(track)?,
        narrow(group)?,
        narrow(cylinder)?,
        wide(size)?,
    )
}

/// The unit of these numbers. Its identifier and its serial number are one more than its number.
fn unit_with(number: u16, track: u16, group: u16, cylinder: u16, size: u32) -> Result<Unit, Cause>
    ensures { result ≡ grammar.unit_if (grammar.unit_with number track group cylinder size) }
{
    let id = u64::from(number) + 1;
    let serial = u32::from(number) + 1;
    match Unit::new(number, track, group, cylinder, size, id, 0, serial) {
        Ok(unit) => Ok(unit),
        Err(_) => Err(Cause::Unit),
    }
}

/// The budget that a limit gives, of transfers of so many blocks.
fn budget_of(limit: Limit, longest: u32) -> u64
    ensures { result ≡ budget_of limit longest }
{
    match limit {
        Limit::Budget(blocks) => u64::from(blocks),
        Limit::Passing(passes) => u64::from(passes) * u64::from(longest),
    }
}

/// The configuration of these settings.
fn configured(limits: Limits, units: &ArrayVec<Unit, 16>) -> Result<Config, Cause>
    requires { IsUnitList units.now.items }
    ensures { result ≡ grammar.valid (settings.configured (settled limits units.now.items)) }
{
    // Each was judged as it was read. Moved here by `Units::of`, each number of each unit would be moved by itself.
    let Ok(units) = Units::new(units.as_slice()) else {
        return Err(Cause::Unit);
    };
    match Config::new(
        limits.credits.first,
        limits.credits.second,
        budget_of(limits.limit, limits.longest),
        limits.longest,
        limits.timeout,
        IDENTIFIER,
        units,
    ) {
        Ok(config) => Ok(config),
        Err(_) => Err(Cause::Config),
    }
}
