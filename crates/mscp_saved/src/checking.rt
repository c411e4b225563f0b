// Whether what bytes say can be: what a controller with these settings can hold.

ghost use Rattle.std.specs.Prelude.{◌≡◌, ◌≤◌, ◌<◌, true, not, All, IfNone, length, filter, nat_lt};
ghost use Rattle.mscp_saved.specs.Common.{list_all, position, IsWaitable, has_name, is_in_service, is_unstarted, name_of, fences, is_affordable, is_free, is_open, is_queued, waiting_on, IsValid, are_apart, are_ends, are_on_units, are_passed, are_queued, are_unfinished, is_covered, may_be_begun, may_serve, parts_fault};

use crate::fault::RestoreFault;
use mscp_controller::{Config, Connection, Drive, Name, Record};
use mscp_packet::{Class, Command, End, Order};

/// Whether each head is on a cylinder of its unit.
fn are_on_units(drives: &[Drive]) -> bool
    ensures { result ≡ are_on_units drives.now }
{
    drives
        .iter()
        .all(|drive| drive.head.cylinder <= drive.unit.last_cylinder())
}

/// How many of the waiting commands came by the connection.
fn count_on(connection: Connection, waiting: &[Record]) -> usize
    requires { length waiting.now ≤ 64 }
    ensures count { result ≡ length (waiting_on connection waiting.now) }
    ensures few { result ≤ length waiting.now }
{
    let mut count = 0;
    for place in 0..waiting.len() {
        if waiting[place].connection() == connection {
            count += 1;
        }
    }
    count
}

/// Whether the credits of the connection cover its waiting commands and its ends, and one is kept for commands that are
/// answered when they come.
fn is_covered(config: &Config, waiting: &[Record], connection: Connection, ends: &[End]) -> bool
    requires few { length waiting.now ≤ 64 }
    requires ends { length ends.now ≤ 64 }
    ensures { result ≡ is_covered config.now waiting.now connection ends.now }
{
    let credits = config.credits_of(connection) as usize;
    let count = count_on(connection, waiting);
    count + ends.len() <= credits && count <= credits.saturating_sub(1)
}

/// Whether a command that comes would wait: it is sequential or a transfer, to one of the units, which has its blocks,
/// and no longer than the longest.
fn is_queued(config: &Config, command: &Command) -> bool
    ensures value { result ≡ is_queued config.now command.now }
    ensures waitable { result ≡ true → IsWaitable config.now.longest config.now.units command.now }
{
    match command.order {
        Order::Move(_, count, block) => match config.units().find(command.unit) {
            Some(unit) => unit.check(block, count, config.longest()).is_ok(),
            None => false,
        },
        order => {
            matches!(order.class(), Class::Sequential)
                && config.units().find(command.unit).is_some()
        }
    }
}

/// Whether each of the waiting commands would wait if it came.
fn are_queued(config: &Config, waiting: &[Record]) -> bool
    ensures value { result ≡ are_queued config.now waiting.now }
    ensures waitable { result ≡ true →
        All (λ r. IsWaitable config.now.longest config.now.units r.command) waiting.now }
{
    for place in 0..waiting.len() {
        if !is_queued(config, &waiting[place].command()) {
            return false;
        }
    }
    true
}

/// Whether two waiting commands have one name.
fn have_one_name(one: &Record, other: &Record) -> bool
    ensures { result ≡ has_name (name_of one.now) other.now }
{
    other.connection() == one.connection() && other.command().reference == one.command().reference
}

/// Whether none of the others has the name of this one.
fn is_apart(one: &Record, others: &[Record]) -> bool
    ensures { result ≡ list_all (λ z. not (has_name (name_of one.now) z)) others.now }
{
    others.iter().all(|other| !have_one_name(one, other))
}

/// Whether no two have one name.
fn are_apart(waiting: &[Record]) -> bool
    ensures { result ≡ are_apart waiting.now }
{
    for place in 0..waiting.len() {
        if !is_apart(&waiting[place], &waiting[place + 1..]) {
            return false;
        }
    }
    true
}

/// How many are in service.
fn count_in_service(waiting: &[Record]) -> usize
    requires { length waiting.now ≤ 64 }
    ensures { result ≡ length (filter is_in_service waiting.now) }
{
    let mut count = 0;
    for place in 0..waiting.len() {
        if waiting[place].done() > 0 {
            count += 1;
        }
    }
    count
}

/// Whether each has steps left.
fn have_steps_left(waiting: &[Record]) -> bool
    ensures { result ≡ list_all (λ r. nat_lt r.done r.weight) waiting.now }
{
    waiting.iter().all(|record| record.done() < record.weight())
}

/// Whether each has steps left, and one is in service at the most.
fn are_unfinished(waiting: &[Record]) -> bool
    requires { length waiting.now ≤ 64 }
    ensures { result ≡ are_unfinished waiting.now }
{
    have_steps_left(waiting) && count_in_service(waiting) <= 1
}

/// Whether none was passed by more blocks than the budget, nor by more than the one before it.
fn are_passed(budget: u32, waiting: &[Record]) -> bool
    ensures { result ≡ are_passed budget waiting.now }
{
    let mut most = budget;
    for place in 0..waiting.len() {
        let passed = waiting[place].passed();
        if passed > most {
            return false;
        }
        most = passed;
    }
    true
}

/// Whether each is an end.
fn are_ends(ends: &[End]) -> bool
    ensures { result ≡ are_ends ends.now }
{
    ends.iter().all(|end| end.code != 0)
}

/// Whether the later of two commands has to stay behind the earlier one.
fn fences(later: &Record, earlier: &Record) -> bool
    ensures { result ≡ fences later.now earlier.now }
{
    earlier.command().unit == later.command().unit
        && (earlier.is_sequential() || later.is_sequential())
}

/// Whether the command has to stay behind none of those in front of it.
fn is_free(one: &Record, front: &[Record]) -> bool
    ensures { result ≡ is_free one.now front.now }
{
    front.iter().all(|earlier| !fences(one, earlier))
}

/// Whether the start of the command leaves each of those in front of it within the budget.
fn is_affordable(budget: u32, one: &Record, front: &[Record]) -> bool
    ensures { result ≡ is_affordable budget one.now front.now }
{
    let charge = u64::from(one.weight());
    let budget = u64::from(budget);
    front
        .iter()
        .all(|earlier| u64::from(earlier.passed()) + charge <= budget)
}

/// Whether the command behind those in front of it may start, where nothing is in service.
fn is_open(budget: u32, one: &Record, front: &[Record]) -> bool
    ensures { result ≡ is_open budget one.now front.now }
{
    is_free(one, front) && is_affordable(budget, one, front)
}

/// Whether none was ever served.
fn are_unstarted(waiting: &[Record]) -> bool
    ensures { result ≡ list_all is_unstarted waiting.now }
{
    waiting.iter().all(|record| record.is_unstarted())
}

/// Whether the command at the place may be served: it is in service, or nothing is and it may start.
fn may_serve(budget: u32, waiting: &[Record], place: usize) -> bool
    requires { place < length waiting.now }
    ensures { result ≡ may_serve budget waiting.now place }
{
    let one = &waiting[place];
    one.done() > 0 || (are_unstarted(waiting) && is_open(budget, one, &waiting[..place]))
}

/// The place of the command of the name, if it waits.
fn place_of(waiting: &[Record], name: Name) -> Option<usize>
    ensures { result ≡ position (has_name name) waiting.now }
{
    waiting.iter().position(|record| {
        record.connection() == name.connection && record.command().reference == name.reference
    })
}

/// Whether what was begun waits and may be served, if something was.
fn may_be_begun(budget: u32, waiting: &[Record], begun: Option<Name>) -> bool
    ensures { result ≡ may_be_begun budget waiting.now begun }
{
    let Some(name) = begun else {
        return true;
    };
    match place_of(waiting, name) {
        Some(place) => may_serve(budget, waiting, place),
        None => false,
    }
}

/// Why a controller with these settings can't hold these drives, waiting commands and ends, and have begun this: the
/// first fault, if there is one.
pub(crate) fn parts_fault(
    config: &Config,
    drives: &[Drive],
    waiting: &[Record],
    first: &[End],
    second: &[End],
    begun: Option<Name>,
) -> Option<RestoreFault>
    requires waiting { length waiting.now ≤ 64 }
    requires first { length first.now ≤ 64 }
    requires second { length second.now ≤ 64 }
    ensures fault { result ≡ parts_fault config.now drives.now waiting.now first.now second.now begun }
    ensures valid { IsValid config.now }
    ensures waitable { IfNone result
        (All (λ r. IsWaitable config.now.longest config.now.units r.command) waiting.now) }
{
    let budget = config.budget();
    if !are_on_units(drives) {
        return Some(RestoreFault::Heads);
    }
    if !(is_covered(config, waiting, Connection::First, first)
        && is_covered(config, waiting, Connection::Second, second))
    {
        return Some(RestoreFault::Credits);
    }
    if !are_queued(config, waiting) {
        return Some(RestoreFault::Command);
    }
    if !are_apart(waiting) {
        return Some(RestoreFault::Doubled);
    }
    if !are_unfinished(waiting) {
        return Some(RestoreFault::Steps);
    }
    if !are_passed(budget, waiting) {
        return Some(RestoreFault::Passed);
    }
    if !(are_ends(first) && are_ends(second)) {
        return Some(RestoreFault::Ends);
    }
    if !may_be_begun(budget, waiting, begun) {
        return Some(RestoreFault::Begun);
    }
    None
}
