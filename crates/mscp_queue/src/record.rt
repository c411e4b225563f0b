// A waiting command.

ghost use Rattle.std.specs.Prelude.{◌≡◌, ◌+◌, ◌<◌, ◌^◌, nat_eq};
ghost use Rattle.mscp_queue.specs.Common.{is_sequential, order_weight, advanced, fresh_record, has_name, left_of, name_of, no_record};

use crate::name::Name;
use mscp_drive::Connection;
use mscp_packet::{Class, Command, Order};
use std::marker::Model;

/// A waiting command: the connection that it came by, what it asks for, how many steps it takes, how many it had, and
/// by how many blocks it was passed.
#[derive(Clone, Copy)]
pub struct Record {
    // The parts of the command stand beside the connection, in this order, since a record takes 32 bytes so.
    reference: u32,
    unit: u16,
    connection: Connection,
    order: Order,
    weight: u32,
    done: u32,
    passed: u32,
}

// A clause sees how many of its blocks were good, too. A bad block ends its command, so all that were served of one
// that waits were good, and one count stands for both.
impl Model for Record {
    ghost use Rattle.mscp_queue.specs.Records.{Record as Told};

    ghost Value = { Told };

    ghost view = { λ r.
        record {
          connection = r.connection;
          command = record { reference = r.reference; unit = r.unit; order = r.order };
          weight = r.weight;
          done = r.done;
          good = r.done;
          passed = r.passed;
        } };

    ghost invariant = { λ r. Unit {0} };

    ghost inverse = { λ t.
        record {
          reference = t.command.reference;
          unit = t.command.unit;
          connection = t.connection;
          order = t.command.order;
          weight = t.weight;
          done = t.done;
          passed = t.passed;
        } };
}

impl Record {
    /// The record of a command that came by the connection, begins to wait, and takes so many steps.
    pub fn new(connection: Connection, command: Command, weight: u32) -> Record
        requires { weight ≡ order_weight command.order }
        ensures { result ≡ fresh_record connection command }
    {
        Record {
            reference: command.reference,
            unit: command.unit,
            connection,
            order: command.order,
            weight,
            done: 0,
            passed: 0,
        }
    }

    /// The record as it was once its command had `done` steps, and was passed by `passed` blocks.
    pub fn resumed(self, done: u32, passed: u32) -> Record
        ensures { result ≡ record self { done = done; good = done; passed = passed } }
    {
        Record {
            done,
            passed,
            ..self
        }
    }

    /// The connection that the command came by, and that its end goes to.
    pub fn connection(&self) -> Connection
        ensures { result ≡ self.now.connection }
    {
        self.connection
    }

    /// The command that waits.
    pub fn command(&self) -> Command
        ensures { result ≡ self.now.command }
    {
        Command {
            reference: self.reference,
            unit: self.unit,
            order: self.order,
        }
    }

    /// The name of the command.
    pub(crate) fn name(&self) -> Name
        ensures { result ≡ name_of self.now }
    {
        Name {
            connection: self.connection,
            reference: self.reference,
        }
    }

    /// Whether the command has this name.
    pub(crate) fn has_name(&self, name: Name) -> bool
        ensures { result ≡ has_name name self.now }
    {
        self.name().is(name)
    }

    /// Whether the command is sequential: it keeps its place among the commands of its unit.
    pub fn is_sequential(&self) -> bool
        ensures { result ≡ is_sequential self.now.command.order }
    {
        matches!(self.order.class(), Class::Sequential)
    }

    /// How many steps the command had.
    pub fn done(&self) -> u32
        ensures done { result ≡ self.now.done }
        ensures good { result ≡ self.now.good }
    {
        self.done
    }

    /// How many steps the command takes.
    pub fn weight(&self) -> u32
        ensures { result ≡ self.now.weight }
    {
        self.weight
    }

    /// How many steps are left of the command.
    pub fn left(&self) -> u32
        ensures value { result ≡ left_of self.now }
        ensures small { self.now.weight < 2 ^ 32 }
    {
        self.weight.saturating_sub(self.done)
    }

    /// By how many blocks the command was passed: the steps that the later commands take which started before it.
    pub fn passed(&self) -> u32
        ensures { result ≡ self.now.passed }
    {
        self.passed
    }

    /// Whether the command was never served.
    pub fn is_unstarted(&self) -> bool
        ensures { result ≡ nat_eq self.now.done 0 }
    {
        self.done == 0
    }

    /// The command has a step that doesn't end it. Nothing else of the record is written.
    #[inline(always)]
    pub(crate) fn advance(&mut self)
        requires { self.old.done + 1 < 2 ^ 32 }
        ensures { self.new ≡ advanced self.old }
    {
        self.done += 1;
    }
}

/// A record of nothing, which fills the places of a list that isn't full. All its bytes are 0, so 64 of them are
/// cleared where they lie, and the stack has none.
impl Default for Record {
    fn default() -> Record
        ensures { result ≡ no_record }
    {
        Record {
            reference: 0,
            unit: 0,
            connection: Connection::First,
            order: Order::Abort(0),
            weight: 0,
            done: 0,
            passed: 0,
        }
    }
}
