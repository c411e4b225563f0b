// A log that begins in the middle: what it shows up to the first reset, and which rules aren't asked till then.
//
// Hosts had sent commands before it, so an end may answer what the log never sent, and units may have another state
// than one that is new. The end of such a command tells nothing, not even of its unit, since it may be told late. So a
// unit's state isn't judged till a command that the log shows has turned it, behind all that came before. If the
// figure of the oldest command that is shown doesn't fall, that is a doubt: an older one may be outstanding.

ghost use Rattle.std.specs.Prelude.{◌≡◌, ◌≤◌, ◌||◌, ◌&&◌, ◌++◌, ◌∷◌, ℕ, [], length, nat_eq, if◌then◌else◌, OnOk, Some, true, false};
ghost use Rattle.arrayvec.specs.ArrayVec.{ArrayVec};
ghost use Rattle.mscp_drive.specs.declared.connection.Connection as connections;
ghost use Rattle.mscp_drive.specs.declared.connection.Connection.TheVariants.{First, Second};
ghost use Rattle.mscp_wire.specs.Begun as begun;
ghost use Rattle.mscp_wire.specs.Course.{is_named_in};
ghost use Rattle.mscp_wire.specs.Log.{Log, is_outstanding, spared, with_moment, with_stranger};
ghost use Rattle.mscp_wire.specs.Middle as middles;
ghost use Rattle.mscp_wire.specs.Wire.{History, broken_by, same_connection};
ghost use Rattle.mscp_wire.specs.declared.moment.Moment.TheVariants as moments;

use crate::answer::Answer;
use crate::mentions::key;
use crate::moment::Moment;
use crate::rule::Rule;
use mscp_drive::Connection;
use mscp_packet::fields::four_at;
use mscp_packet::{codes, endcodes};
use std::alloc::{AllocError, Allocator};
use std::collections::HashMap;
use std::hash::{BuildHasherDefault, FoldHasher};

/// What a log shows that begins in the middle.
#[derive(Drop)]
pub struct Middle<A: Allocator> {
    /// The numbers that occur, by their connections, and whether a message has each.
    pub names: HashMap<u64, bool, BuildHasherDefault<FoldHasher>, A>,
    /// The units to which a host sent an AVAILABLE or an ONLINE that succeeded.
    pub units: HashMap<u64, bool, BuildHasherDefault<FoldHasher>, A>,
    /// Whether a packet is of the first connection.
    pub first: bool,
    /// And of the second.
    pub second: bool,
}

impl<A: Allocator + Copy> Middle<A> {
    /// Of no line.
    pub fn new(alloc: A) -> Middle<A>
        ensures { middles.Shows [] [] result }
    {
        Middle {
            names: HashMap::new(alloc),
            units: HashMap::new(alloc),
            first: false,
            second: false,
        }
    }

    /// What is kept of a number of a connection.
    fn name(&self, connection: Connection, reference: u32) -> Option<bool>
        ensures { result ≡ middles.kept_name self.now connection reference }
    {
        self.names.get(&key(connection, reference)).copied()
    }

    /// Whether a message has this number, if that is there.
    fn has_sent(&self, connection: Connection, reference: Option<u32>) -> bool
        ensures { (h strangers : History) → middles.Shows h strangers self.now
            → result ≡ begun.has_sent h connection reference }
    {
        match reference {
            Some(reference) => self.name(connection, reference) == Some(true),
            None => false,
        }
    }

    /// Whether a packet is of the other connection.
    fn has_other(&self, connection: Connection) -> bool
        ensures { result ≡ middles.has_other self.now connection }
    {
        match connection {
            Connection::First => self.second,
            Connection::Second => self.first,
        }
    }

    /// Whether all that the host of an end had sent to its unit before has ended.
    fn is_sure(&self, answer: &Answer) -> bool
        ensures { (h strangers : History) → middles.Shows h strangers self.now
            → result ≡ begun.is_sure h strangers answer.now }
    {
        self.units
            .contains_key(&key(answer.connection, u32::from(answer.unit)))
            && !self.has_other(answer.connection)
    }

    /// Whether this rule isn't asked of an end.
    fn spares_end(&self, answer: &Answer, rule: Rule) -> bool
        ensures { (h strangers : History) → middles.Shows h strangers self.now
            → result ≡ begun.spares_end h strangers answer.now rule }
    {
        match rule {
            Rule::Outstanding => self.name(answer.connection, answer.reference).is_none(),
            Rule::Figure => true,
            Rule::Identity => !self.is_sure(answer),
            Rule::State => !self.is_sure(answer),
            _ => false,
        }
    }

    /// The same of a moment.
    fn spares(&self, moment: &Moment, rule: Rule) -> bool
        ensures { (h strangers : History) → middles.Shows h strangers self.now
            → result ≡ begun.spares h strangers moment.now rule }
    {
        match moment {
            Moment::End(connection, message) if message.len() >= 12 => {
                self.spares_end(&Answer::of(*connection, message.as_slice()), rule)
            }
            _ => false,
        }
    }

    /// Whether an end is about a command that a message sent.
    fn is_about_sent(&self, moment: &Moment) -> bool
        ensures { (h strangers : History) → middles.Shows h strangers self.now
            → result ≡ begun.is_about_sent h moment.now }
    {
        match moment {
            Moment::End(connection, message) if message.len() >= 12 => {
                let answer = Answer::of(*connection, message.as_slice());
                self.has_sent(*connection, answer.parameter)
            }
            _ => false,
        }
    }

    /// A packet has this number: a message, or an end.
    fn put(&mut self, connection: Connection, reference: u32, sent: bool) -> Result<(), AllocError>
        ensures names { OnOk result ((via : connections.Connection) (number : ℕ) → middles.kept_name self.new via number
            ≡ (if same_connection connection via && nat_eq reference number
            then middles.name_with sent (middles.kept_name self.old connection reference)
            else middles.kept_name self.old via number)) }
        ensures units { self.new.units ≡ self.old.units }
        ensures first { self.new.first ≡ self.old.first }
        ensures second { self.new.second ≡ self.old.second }
    {
        let known = self.name(connection, reference) == Some(true);
        self.names
            .insert(key(connection, reference), sent || known)?;
        Ok(())
    }

    /// A packet is of this connection.
    fn meet(&mut self, connection: Connection)
        ensures names { self.new.names ≡ self.old.names }
        ensures units { self.new.units ≡ self.old.units }
        ensures first { self.new.first ≡ (self.old.first || same_connection connection First) }
        ensures second { self.new.second ≡ (self.old.second || same_connection connection Second) }
    {
        match connection {
            Connection::First => self.first = true,
            Connection::Second => self.second = true,
        }
    }

    /// An AVAILABLE or an ONLINE of a unit succeeded, or another end came.
    fn turn(&mut self, answer: &Answer) -> Result<(), AllocError>
        ensures names { self.new.names ≡ self.old.names }
        ensures units { OnOk result ((via : connections.Connection) (unit : ℕ) → middles.keeps_unit self.new via unit
            ≡ (middles.keeps_unit self.old via unit
            || (same_connection answer.now.connection via && begun.turns_unit unit answer.now))) }
        ensures first { self.new.first ≡ self.old.first }
        ensures second { self.new.second ≡ self.old.second }
    {
        if matches!(answer.code, endcodes::AVAILABLE | endcodes::ONLINE)
            && answer.status_code() == codes::SUCCESS
        {
            self.units
                .insert(key(answer.connection, u32::from(answer.unit)), true)?;
        }
        Ok(())
    }

    /// A moment came that counts, and isn't a reset.
    fn hear(&mut self, moment: &Moment) -> Result<(), AllocError>
        requires { is_named_in moment.now ≡ true }
        ensures { OnOk result ((h strangers : History) → middles.Shows h strangers self.old
            → begun.is_initial moment.now ≡ false → middles.Shows (h ++ moment.now ∷ []) strangers self.new) }
    {
        match moment {
            Moment::Message(connection, message, _) => {
                self.put(*connection, four_at(message.as_slice(), 0), true)?;
                self.meet(*connection);
                Ok(())
            }
            Moment::End(connection, message) => {
                let answer = Answer::of(*connection, message.as_slice());
                self.put(*connection, four_at(message.as_slice(), 0), false)?;
                self.meet(*connection);
                self.turn(&answer)?;
                Ok(())
            }
            Moment::Closed(connection) => {
                self.meet(*connection);
                Ok(())
            }
            Moment::Reset => Ok(()),
        }
    }

    /// The end of a command came that the log doesn't send.
    fn hear_stranger(&mut self, moment: &Moment) -> Result<(), AllocError>
        ensures { OnOk result ((h strangers : History) → middles.Shows h strangers self.old
            → begun.spares h strangers moment.now Rule.Outstanding ≡ true
            → middles.Shows h (strangers ++ moment.now ∷ []) self.new) }
    {
        match moment {
            Moment::End(connection, message) if message.len() >= 12 => {
                self.put(*connection, four_at(message.as_slice(), 0), false)?;
                self.meet(*connection);
                Ok(())
            }
            _ => Ok(()),
        }
    }
}

/// Whether this rule isn't asked of a moment.
pub(crate) fn spares<A: Allocator + Copy>(
    middle: &Option<Middle<A>>,
    moment: &Moment,
    rule: Rule,
) -> bool
    ensures { (log : Log) → middles.IsMiddleOf log middle.now → result ≡ spared log moment.now rule }
{
    match middle {
        Some(middle) => middle.spares(moment, rule),
        None => false,
    }
}

/// Whether a moment that breaks this rule tells a figure that is doubtful.
pub(crate) fn is_slow<A: Allocator + Copy>(
    middle: &Option<Middle<A>>,
    moment: &Moment,
    rule: Rule,
) -> bool
    ensures { (log : Log) → middles.IsMiddleOf log middle.now
        → broken_by log.credits log.moments moment.now ≡ Some rule
        → result ≡ begun.is_slow log.begun log.credits log.moments moment.now }
{
    match (rule, middle) {
        (Rule::Figure, Some(middle)) => middle.is_about_sent(moment),
        _ => false,
    }
}

/// Whether a rule is that by which an end answers a command that is outstanding.
pub(crate) fn is_outstanding(rule: Rule) -> bool
    ensures { result ≡ is_outstanding rule }
{
    matches!(rule, Rule::Outstanding)
}

/// Whether the controller is initialised.
fn is_initial(moment: &Moment) -> bool
    ensures { result ≡ begun.is_initial moment.now }
{
    matches!(moment, Moment::Reset)
}

/// A moment came that counts: a reset ends the middle.
pub(crate) fn hear_if<A: Allocator + Copy>(
    middle: &mut Option<Middle<A>>,
    moment: &Moment,
) -> Result<(), AllocError>
    requires { is_named_in moment.now ≡ true }
    ensures { OnOk result ((number : ℕ) (log : Log) → middles.IsMiddleOf log middle.old
        → middles.IsMiddleOf (with_moment number log moment.now) middle.new) }
{
    if is_initial(moment) {
        *middle = None;
        return Ok(());
    }
    if let Some(middle) = middle {
        middle.hear(moment)?;
    }
    Ok(())
}

/// The end of a command came that the log doesn't send.
pub(crate) fn hear_stranger<A: Allocator + Copy>(
    middle: &mut Option<Middle<A>>,
    moment: &Moment,
) -> Result<(), AllocError>
    ensures { OnOk result ((log : Log) → middles.IsMiddleOf log middle.old
        → spared log moment.now Rule.Outstanding ≡ true
        → middles.IsMiddleOf (with_stranger log moment.now) middle.new) }
{
    if let Some(middle) = middle {
        middle.hear_stranger(moment)?;
    }
    Ok(())
}
