// In which lines of a log commands are mentioned: asked only of a log that isn't right.

ghost use Rattle.std.specs.Prelude.{◌≡◌, ℕ, ◌≤◌, ◌&&◌, nat_eq, if◌then◌else◌, length, true, OnOk, Some, None};
ghost use Rattle.mscp_drive.specs.declared.connection.Connection as connections;
ghost use Rattle.mscp_wire.specs.Course as course;
ghost use Rattle.mscp_wire.specs.Wire.{four_in, key, same_connection};

use crate::moment::Moment;
use crate::sent::{Sent, four_in};
use mscp_drive::{Connection, OutOfMemory};
use mscp_packet::endcodes;
use mscp_packet::fields::four_at;
use std::alloc::{AllocError, Allocator};
use std::collections::BTreeMap;

/// In which lines a command is mentioned, counted from 1.
#[derive(Clone, Copy)]
pub struct Mention {
    /// The last one that sends it.
    pub sent: Option<u32>,
    /// The last one that tells its figure.
    pub told: Option<u32>,
    /// If it is a poll, the one that had told the figure of its command when it was sent.
    pub asked: Option<u32>,
}

/// In which lines each is.
#[derive(Drop)]
pub struct Mentions<A: Allocator> {
    pub lines: BTreeMap<u64, Mention, A>,
}

/// The number for a reference number of a connection: no two have one.
pub fn key(connection: Connection, reference: u32) -> u64
    ensures { result ≡ key connection reference }
{
    match connection {
        Connection::First => 2 * u64::from(reference),
        Connection::Second => 2 * u64::from(reference) + 1,
    }
}

impl<A: Allocator + Copy> Mentions<A> {
    /// None.
    pub fn none(alloc: A) -> Mentions<A>
        ensures { (via : connections.Connection) (reference : ℕ)
            → course.mention_of result.lines via reference ≡ course.no_mention }
    {
        Mentions {
            lines: BTreeMap::new(alloc),
        }
    }

    /// In which lines a command of this name is mentioned.
    fn of(&self, connection: Connection, reference: u32) -> Mention
        ensures { result ≡ course.mention_of self.now.lines connection reference }
    {
        match self.lines.get(&key(connection, reference)) {
            Some(mention) => *mention,
            None => Mention {
                sent: None,
                told: None,
                asked: None,
            },
        }
    }

    /// It is mentioned there.
    fn put(
        &mut self,
        connection: Connection,
        reference: u32,
        mention: Mention,
    ) -> Result<(), AllocError>
        ensures { OnOk result ((via : connections.Connection) (number : ℕ)
            → course.mention_of self.new.lines via number
            ≡ (if same_connection connection via && nat_eq reference number then mention
            else course.mention_of self.old.lines via number)) }
    {
        self.lines.insert(key(connection, reference), mention)?;
        Ok(())
    }

    /// The line that sent a command, if there is one.
    pub fn sent(&self, command: &Option<Sent>) -> Option<u32>
        ensures { result ≡ course.sent_in (course.mention_of self.now.lines) command.now }
    {
        let command = (*command)?;
        self.of(command.connection, command.reference).sent
    }

    /// And that which had told the figure for which it asks.
    pub fn asked(&self, command: &Option<Sent>) -> Option<u32>
        ensures { result ≡ course.asked_in (course.mention_of self.now.lines) command.now }
    {
        let command = (*command)?;
        self.of(command.connection, command.reference).asked
    }

    /// The line that last told the figure of a command, if its number is there.
    fn told(&self, connection: Connection, reference: Option<u32>) -> Option<u32>
        ensures { result ≡ course.told_in (course.mention_of self.now.lines) connection reference }
    {
        self.of(connection, reference?).told
    }

    /// The line of this number sends a message.
    fn hear_message(
        &mut self,
        number: u32,
        connection: Connection,
        bytes: &[u8],
    ) -> Result<(), AllocError>
        requires { 12 ≤ length bytes.now }
        ensures { OnOk result ((via : connections.Connection) (reference : ℕ)
            → course.mention_of self.new.lines via reference
            ≡ (if course.has_name connection bytes.now via reference
            then record {
              sent = Some number;
              told = None;
              asked = course.told_in (course.mention_of self.old.lines) connection (four_in bytes.now 12);
            } else course.mention_of self.old.lines via reference)) }
    {
        let mention = Mention {
            sent: Some(number),
            told: None,
            asked: self.told(connection, four_in(bytes, 12)),
        };
        self.put(connection, four_at(bytes, 0), mention)
    }

    /// The line of this number tells the figure of a command, or of none.
    fn tell(
        &mut self,
        connection: Connection,
        reference: u32,
        told: Option<u32>,
    ) -> Result<(), AllocError>
        ensures { OnOk result ((via : connections.Connection) (number : ℕ)
            → course.mention_of self.new.lines via number
            ≡ (if same_connection connection via && nat_eq reference number
            then record (course.mention_of self.old.lines via number) { told = told }
            else course.mention_of self.old.lines via number)) }
    {
        let mention = Mention {
            told,
            ..self.of(connection, reference)
        };
        self.put(connection, reference, mention)
    }

    /// It gives an end.
    fn hear_end(
        &mut self,
        number: u32,
        connection: Connection,
        bytes: &[u8],
    ) -> Result<(), AllocError>
        requires { 12 ≤ length bytes.now }
        ensures { OnOk result ((via : connections.Connection) (reference : ℕ)
            → course.mention_of self.new.lines via reference
            ≡ (if course.tells_of connection bytes.now via reference
            then record (course.mention_of self.old.lines via reference) { told = Some number }
            else (if course.has_name connection bytes.now via reference
            then record (course.mention_of self.old.lines via reference) { told = None }
            else course.mention_of self.old.lines via reference))) }
    {
        self.tell(connection, four_at(bytes, 0), None)?;
        match four_in(bytes, 12) {
            Some(other) if bytes[8] == endcodes::GET_COMMAND_STATUS => self.tell(
                connection,
                other,
                Some(number),
            ),
            _ => Ok(()),
        }
    }

    /// The line of this number tells a moment that counts.
    ///
    /// # Errors
    ///
    /// `OutOfMemory` if memory runs out.
    pub fn hear(&mut self, number: u32, moment: &Moment) -> Result<(), OutOfMemory>
        requires { course.is_named_in moment.now ≡ true }
        ensures { OnOk result ((via : connections.Connection) (reference : ℕ)
            → course.mention_of self.new.lines via reference
            ≡ course.mention_after number (course.mention_of self.old.lines) moment.now via reference) }
    {
        match moment {
            Moment::Message(connection, message, _) => {
                self.hear_message(number, *connection, message.as_slice())?;
            }
            Moment::End(connection, message) => {
                self.hear_end(number, *connection, message.as_slice())?;
            }
            Moment::Reset | Moment::Closed(_) => {}
        }
        Ok(())
    }
}
