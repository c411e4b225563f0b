// The opcodes. All that is told of one stands in one row of a table, and everything else asks the table.
//
// The rows of `Opcode` are those that the controller answers: what it reads, writes and answers is read off them. The
// rows of `Foreign` are the manual's other opcodes of disks. A port answers some of them, and to the controller each is
// an opcode that isn't known. So a command that the controller is to answer from now on moves from there to `Opcode`,
// and gets an `Order`.

ghost use Rattle.std.specs.Prelude.{◌≡◌};
ghost use Rattle.mscp_packet.specs.Opcodes as table;
ghost use Rattle.mscp_packet.specs.Opcodes.{class, is_immediate_class, row_of, opcode_of, foreign_row, foreign_of, has_status};
ghost use Rattle.mscp_packet.specs.Rows.{IsRow};

use crate::command::MoveKind;
use crate::end::BodyKind;
use crate::opcodes;

/// How the commands of an opcode are scheduled (manual, "Command Categories and Execution Order").
#[derive(Clone, Copy)]
pub enum Class {
    /// Answered when it arrives.
    Immediate,
    /// Kept in its place among the commands of its unit.
    Sequential,
    /// A transfer, which may be reordered (the manual's non-sequential commands).
    Free,
    /// No opcode that is known.
    Unknown,
}

impl Class {
    /// Whether a command of this class is answered when it arrives, so that the last credit is enough for it.
    pub fn is_immediate(self) -> bool
        ensures { result ≡ is_immediate_class self }
    {
        matches!(self, Class::Immediate)
    }
}

/// Who answers the commands of an opcode here.
#[derive(Clone, Copy)]
pub enum Answerer {
    /// The controller.
    Controller,
    /// The port in front of it. A controller without one doesn't know the opcode.
    Port,
    /// Nobody: the opcode isn't known, status `0x0801`.
    Nobody,
}

/// Which codes the status of an end may have (manual, "Status and Event Codes").
#[derive(Clone, Copy)]
pub enum StatusSet {
    /// Success and Invalid Command: it looks at no unit.
    Answered,
    /// Those, what state the unit is in, and errors of the controller and the drive: it looks at the unit alone.
    State,
    /// All but Unit-Available: it wants no unit that is online.
    Bringing,
    /// All.
    Any,
}

impl StatusSet {
    /// Whether a status of this code, its low five bits, may come.
    pub fn has(self, code: u16) -> bool
        ensures { result ≡ has_status self code }
    {
        match self {
            StatusSet::Answered => code <= 1,
            StatusSet::State => code <= 11 && code != 2 && !(code >= 5 && code <= 9),
            StatusSet::Bringing => code <= 11 && code != 4,
            StatusSet::Any => code <= 11,
        }
    }
}

/// The opcodes that the controller answers.
#[derive(Clone, Copy)]
pub enum Opcode {
    Abort,
    Status,
    UnitStatus,
    SetController,
    Available,
    Online,
    SetUnit,
    Move(MoveKind),
}

/// The manual's other opcodes of disks.
#[derive(Clone, Copy)]
pub enum Foreign {
    AccessPaths,
    CompareController,
    Flush,
    Replace,
    Format,
    /// FORMAT, as SIMH's disk numbers it.
    FormatOfSimh,
}

/// What is told of an opcode: a row of the table.
#[derive(Clone, Copy)]
pub struct Row {
    /// Its byte in a command. With the top bit set it is the endcode.
    pub byte: u8,
    /// What the manual calls it.
    pub name: &'static str,
    /// How its commands are scheduled.
    pub class: Class,
    /// The fewest bytes that a command of it has, at least 12 (profile).
    pub least: usize,
    /// The shape of its end's body.
    pub body: BodyKind,
    /// Which codes the status of its end may have.
    pub statuses: StatusSet,
    /// The modifiers that its commands may carry, bytes 10 and 11 (manual, "Command Modifiers").
    pub modifiers: u16,
    /// Who answers its commands here.
    pub answerer: Answerer,
}

/// A row of the table, of these columns.
#[rattlefmt::skip]
pub(crate) const fn make_row(
    byte: u8, name: &'static str, class: Class, least: usize, body: BodyKind, statuses: StatusSet, modifiers: u16,
    answerer: Answerer,
) -> Row
    ensures byte { result.byte ≡ byte }
    ensures name { result.name.now ≡ name.now }
    ensures class { result.class ≡ class }
    ensures least { result.least ≡ least }
    ensures body { result.body ≡ body }
    ensures statuses { result.statuses ≡ statuses }
    ensures modifiers { result.modifiers ≡ modifiers }
    ensures answerer { result.answerer ≡ answerer }
{
    Row { byte, name, class, least, body, statuses, modifiers, answerer }
}

impl MoveKind {
    /// Its row of the table.
    #[rattlefmt::skip]
    fn row(self) -> Row
        ensures { IsRow result (row_of (Opcode.Move self)) }
    {
        use Class::Free;
        use BodyKind::Moved;
        use StatusSet::Any;
        use Answerer::Controller;
        match self {
            MoveKind::Access => make_row(opcodes::ACCESS, "ACCESS", Free, 32, Moved, Any, 0xA300, Controller),
            MoveKind::Erase => make_row(opcodes::ERASE, "ERASE", Free, 32, Moved, Any, 0xB100, Controller),
            MoveKind::Compare => make_row(opcodes::COMPARE_HOST_DATA, "COMPARE HOST DATA",
                Free, 32, Moved, Any, 0xA300, Controller),
            MoveKind::Read => make_row(opcodes::READ, "READ", Free, 32, Moved, Any, 0xE300, Controller),
            MoveKind::Write => make_row(opcodes::WRITE, "WRITE", Free, 32, Moved, Any, 0xF300, Controller),
        }
    }
}

impl Opcode {
    /// All twelve.
    const ALL: [Opcode; 12] = [
        Opcode::Abort,
        Opcode::Status,
        Opcode::UnitStatus,
        Opcode::SetController,
        Opcode::Available,
        Opcode::Online,
        Opcode::SetUnit,
        Opcode::Move(MoveKind::Access),
        Opcode::Move(MoveKind::Erase),
        Opcode::Move(MoveKind::Compare),
        Opcode::Move(MoveKind::Read),
        Opcode::Move(MoveKind::Write),
    ];

    /// Its row of the table (manual, "Command Categories and Execution Order", "End Messages", "Status and Event
    /// Codes", "Command Modifiers"; the lengths are the profile's).
    #[rattlefmt::skip]
    pub fn row(self) -> Row
        ensures { IsRow result (row_of self) }
    {
        use Answerer::Controller;
        use Class::{Immediate, Sequential};
        use StatusSet::{Answered, Any, Bringing, State};
        match self {
            Opcode::Abort => make_row(opcodes::ABORT, "ABORT", Immediate, 16, BodyKind::Abort, Answered, 0, Controller),
            Opcode::Status => make_row(opcodes::GET_COMMAND_STATUS, "GET COMMAND STATUS",
                Immediate, 16, BodyKind::Status, Answered, 0, Controller),
            Opcode::UnitStatus => make_row(opcodes::GET_UNIT_STATUS, "GET UNIT STATUS",
                Immediate, 12, BodyKind::UnitStatus, State, 0x0001, Controller),
            Opcode::SetController => make_row(opcodes::SET_CONTROLLER_CHARACTERISTICS, "SET CONTROLLER CHARACTERISTICS",
                Immediate, 14, BodyKind::Controller, Answered, 0, Controller),
            Opcode::Available => make_row(opcodes::AVAILABLE, "AVAILABLE",
                Sequential, 12, BodyKind::Bare, Bringing, 0xA003, Controller),
            Opcode::Online => make_row(opcodes::ONLINE, "ONLINE",
                Sequential, 12, BodyKind::Online, Bringing, 0xA007, Controller),
            Opcode::SetUnit => make_row(opcodes::SET_UNIT_CHARACTERISTICS, "SET UNIT CHARACTERISTICS",
                Sequential, 12, BodyKind::Online, Any, 0xA004, Controller),
            Opcode::Move(kind) => kind.row(),
        }
    }
}

/// The opcode of a byte, if the byte is one.
pub(crate) fn opcode_of(byte: u8) -> Option<Opcode>
    ensures { result ≡ opcode_of byte }
{
    // Opcodes are copied before they are compared: the compiler then makes the search one jump by the byte.
    Opcode::ALL
        .iter()
        .copied()
        .find(|opcode| opcode.row().byte == byte)
}

/// The class of an opcode byte, any of the 256.
pub fn class_of(opcode: u8) -> Class
    ensures { result ≡ class opcode }
{
    opcode_of(opcode).map_or(Class::Unknown, |opcode| opcode.row().class)
}

/// Whether a command with this opcode byte is answered when it arrives, so that the last credit is enough for it.
pub fn is_immediate(opcode: u8) -> bool
    ensures { result ≡ table.is_immediate opcode }
{
    class_of(opcode).is_immediate()
}

impl Foreign {
    /// All of them.
    const ALL: [Foreign; 6] = [
        Foreign::AccessPaths,
        Foreign::CompareController,
        Foreign::Flush,
        Foreign::Replace,
        Foreign::Format,
        Foreign::FormatOfSimh,
    ];

    /// Its row of the table.
    #[rattlefmt::skip]
    pub(crate) fn row(self) -> Row
        ensures { IsRow result (foreign_row self) }
    {
        use Answerer::{Nobody, Port};
        use BodyKind::Bare;
        use Class::{Free, Sequential};
        use StatusSet::Any;
        match self {
            Foreign::AccessPaths => make_row(opcodes::DETERMINE_ACCESS_PATHS, "DETERMINE ACCESS PATHS",
                Free, 12, Bare, Any, 0, Port),
            Foreign::CompareController => make_row(opcodes::COMPARE_CONTROLLER_DATA, "COMPARE CONTROLLER DATA",
                Free, 12, Bare, Any, 0xA000, Port),
            Foreign::Flush => make_row(opcodes::FLUSH, "FLUSH", Free, 12, Bare, Any, 0xA001, Port),
            Foreign::Replace => make_row(opcodes::REPLACE, "REPLACE", Free, 32, Bare, Any, 0xA001, Nobody),
            Foreign::Format => make_row(opcodes::FORMAT, "FORMAT", Sequential, 12, Bare, Any, 0xA000, Nobody),
            Foreign::FormatOfSimh => make_row(opcodes::FORMAT_OF_SIMH, "FORMAT",
                Sequential, 12, Bare, Any, 0xA000, Nobody),
        }
    }
}

/// The foreign opcode of a byte, if the byte is one.
pub(crate) fn foreign_of(byte: u8) -> Option<Foreign>
    ensures { result ≡ foreign_of byte }
{
    Foreign::ALL
        .iter()
        .copied()
        .find(|opcode| opcode.row().byte == byte)
}
