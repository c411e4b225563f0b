// What hosts were told of units, by their numbers.

ghost use Rattle.std.specs.Prelude.{◌≡◌, ℕ, OnOk, None};
ghost use Rattle.mscp_wire.specs.Doubts as doubt;
ghost use Rattle.mscp_wire.specs.Wire as wire;
ghost use Rattle.mscp_drive.specs.declared.connection.Connection as connections;

use crate::answer::Answer;
use crate::sent::Sent;
use crate::table::Table;
use crate::told::{State, Told};
use mscp_drive::{Connection, OutOfMemory};
use mscp_packet::opcodes;
use std::alloc::{AllocError, Allocator};
use std::collections::HashMap;
use std::hash::{BuildHasherDefault, FoldHasher};

/// What hosts were told of units.
#[derive(Drop)]
pub struct Units<A: Allocator> {
    /// What each was told of all that aren't kept.
    pub others: Told,
    pub kept: Table<A>,
    /// Which unit was last said to be online and to have an identifier.
    pub called: HashMap<u64, u16, BuildHasherDefault<FoldHasher>, A>,
}

/// The other connection.
fn other_side(connection: Connection) -> Connection
    ensures { result ≡ wire.other_side connection }
{
    match connection {
        Connection::First => Connection::Second,
        Connection::Second => Connection::First,
    }
}

/// Whether a unit was told to be online, and to have this identifier.
fn holds(identifier: u64, told: &Told) -> bool
    ensures { result ≡ doubt.holds identifier told.now }
{
    match told.identity {
        Some(known) => told.sure && known.identifier == identifier,
        None => false,
    }
}

impl<A: Allocator + Copy> Units<A> {
    /// Nothing was told.
    pub fn new(alloc: A) -> Units<A>
        ensures told { (via : connections.Connection) (unit : ℕ) → wire.kept result via unit ≡ wire.told_nothing }
        ensures called { (identifier : ℕ) → wire.kept_called result identifier ≡ None }
    {
        Units {
            others: Told::nothing(),
            kept: Table::new(alloc),
            called: HashMap::new(alloc),
        }
    }

    /// This was told of all of them.
    fn reset(&mut self, told: Told)
        ensures told { (via : connections.Connection) (unit : ℕ) → wire.kept self.new via unit ≡ told }
        ensures called { (identifier : ℕ) → wire.kept_called self.new identifier ≡ None }
    {
        self.others = told;
        self.kept.clear();
        // A map that is cleared keeps its room, and clears all of that each time.
        self.called = HashMap::new(*self.kept.rows.allocator());
    }

    /// No unit is online, as the controller was initialised.
    pub fn clear(&mut self)
        ensures told { (via : connections.Connection) (unit : ℕ) → wire.kept self.new via unit ≡ wire.told_reset }
        ensures called { (identifier : ℕ) → wire.kept_called self.new identifier ≡ None }
    {
        self.reset(Told::reset());
    }

    /// Nothing is known, as a connection closed.
    pub fn forget(&mut self)
        ensures told { (via : connections.Connection) (unit : ℕ) → wire.kept self.new via unit ≡ wire.told_nothing }
        ensures called { (identifier : ℕ) → wire.kept_called self.new identifier ≡ None }
    {
        self.reset(Told::nothing());
    }

    /// What the host of a connection was told of a unit.
    pub fn told(&self, connection: Connection, unit: u16) -> Told
        ensures { result ≡ wire.kept self.now connection unit }
    {
        match (self.kept.get(unit), connection) {
            (Some(entry), Connection::First) => entry.first,
            (Some(entry), Connection::Second) => entry.second,
            (None, _) => self.others,
        }
    }

    /// Whether a unit was told to be online, and to have an identifier, by either host.
    fn is_held(&self, identifier: u64, unit: u16) -> bool
        ensures { result ≡ doubt.is_held (wire.kept self.now) identifier unit }
    {
        holds(identifier, &self.told(Connection::First, unit))
            || holds(identifier, &self.told(Connection::Second, unit))
    }

    /// Whether an end says that its unit is online and has an identifier that another one has.
    pub(crate) fn is_called_twice(&self, answer: &Answer) -> bool
        ensures { result ≡ doubt.is_called_twice (wire.kept self.now) (wire.kept_called self.now)
            (wire.called_in answer.now) answer.now }
    {
        let Some(identifier) = answer.called() else {
            return false;
        };
        match self.called.get(&identifier).copied() {
            Some(unit) => unit != answer.unit && self.is_held(identifier, unit),
            None => false,
        }
    }

    /// Keeps this of a unit: what its host was told on a connection, and the other one.
    fn put(
        &mut self,
        connection: Connection,
        unit: u16,
        own: Told,
        others: Told,
    ) -> Result<(), AllocError>
        ensures told { OnOk result (wire.Puts self.old self.new connection unit own others) }
        ensures called { self.new.called ≡ self.old.called }
    {
        match connection {
            Connection::First => self.kept.put(unit, own, others)?,
            Connection::Second => self.kept.put(unit, others, own)?,
        }
        Ok(())
    }

    /// Which unit was last said to have an identifier once an end came.
    fn hear_call(&mut self, answer: &Answer) -> Result<(), AllocError>
        ensures told { (via : connections.Connection) (unit : ℕ)
            → wire.kept self.new via unit ≡ wire.kept self.old via unit }
        ensures called { OnOk result ((identifier : ℕ) → wire.kept_called self.new identifier
            ≡ wire.called_after_end identifier (wire.kept_called self.old identifier) answer.now) }
    {
        if let Some(identifier) = answer.called() {
            self.called.insert(identifier, answer.unit)?;
        }
        Ok(())
    }

    /// What was told once an end came, which is settled or not.
    ///
    /// # Errors
    ///
    /// `OutOfMemory` if memory runs out.
    pub fn hear_end(&mut self, answer: &Answer, settled: bool) -> Result<(), OutOfMemory>
        ensures told { OnOk result ((via : connections.Connection) (unit : ℕ) → wire.kept self.new via unit
            ≡ wire.told_after_end via unit settled (wire.kept self.old via unit) answer.now) }
        ensures called { OnOk result ((identifier : ℕ) → wire.kept_called self.new identifier
            ≡ wire.called_after_end identifier (wire.kept_called self.old identifier) answer.now) }
    {
        if !answer.leaves() && !answer.brings() && !answer.tells_unit() {
            return Ok(());
        }
        let other = other_side(answer.connection);
        let own = self
            .told(answer.connection, answer.unit)
            .after_end(answer, settled);
        let others = self.told(other, answer.unit).after_other(answer);
        self.put(answer.connection, answer.unit, own, others)?;
        self.hear_call(answer)?;
        Ok(())
    }

    /// And once a command came.
    pub(crate) fn hear_command(&mut self, sent: &Sent) -> Result<(), OutOfMemory>
        ensures told { OnOk result ((via : connections.Connection) (unit : ℕ) → wire.kept self.new via unit
            ≡ wire.told_after_message via unit (wire.kept self.old via unit) sent.now) }
        ensures called { (identifier : ℕ)
            → wire.kept_called self.new identifier ≡ wire.kept_called self.old identifier }
    {
        if sent.opcode != opcodes::ONLINE {
            return Ok(());
        }
        let other = other_side(sent.connection);
        let told = Told {
            state: State::Shared,
            ..self.told(other, sent.unit)
        };
        let own = self.told(sent.connection, sent.unit);
        self.put(sent.connection, sent.unit, own, told)?;
        Ok(())
    }
}
