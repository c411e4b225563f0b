// An end, and what it owes to its command alone.

ghost use Rattle.std.specs.Prelude.{◌≡◌, ◌≤◌, ◌<◌, ◌^◌, length};
ghost use Rattle.mscp_wire.specs.Wire as wire;
ghost use Rattle.mscp_wire.specs.Messages.{tells_controller};

use crate::identity::{Identity, protected_in, table_in};
use crate::sent::{Sent, four_in, is_required, is_transfer, is_unknown};
use mscp_drive::Connection;
use mscp_packet::fields::{eight_at, four_at, two_at};
use mscp_packet::status::code_of;
use mscp_packet::{codes, endcodes, least_end_of, may_have_status, opcodes};

/// An end: what its message says.
#[derive(Clone, Copy)]
pub struct Answer {
    pub connection: Connection,
    pub reference: u32,
    pub unit: u16,
    pub code: u8,
    pub status: u16,
    /// The number in bytes 12 to 15, if the message has them: that of its command, or how many bytes were moved.
    pub parameter: Option<u32>,
    /// The number in bytes 16 to 19, if the message has them: the figure of a GET COMMAND STATUS.
    pub figure: Option<u32>,
    /// What it says of its unit, if it has 44 bytes at least: only an end of GET UNIT STATUS, ONLINE or SET UNIT
    /// CHARACTERISTICS does.
    pub identity: Option<Identity>,
    /// Whether it says that its unit is protected from writing.
    pub protected: bool,
    /// How many blocks all copies of its unit's replacement and caching table have, if it is one of GET UNIT STATUS.
    pub table: Option<u32>,
    /// The identifier of the controller, if a SET CONTROLLER CHARACTERISTICS succeeded.
    pub controller: Option<u64>,
    /// The controller timeout in seconds, if such an end tells it.
    pub timeout: Option<u16>,
}

/// Whether an end is as long as its endcode asks.
pub(crate) fn is_long(b: &[u8]) -> bool
    ensures { result ≡ wire.is_long b.now }
{
    b.len() >= 12 && b.len() >= least_end_of(b[8])
}

/// Whether an end tells of the controller: one of a SET CONTROLLER CHARACTERISTICS that succeeded.
fn tells_controller(b: &[u8]) -> bool
    requires { 12 ≤ length b.now }
    ensures { result ≡ tells_controller b.now }
{
    b[8] == endcodes::SET_CONTROLLER_CHARACTERISTICS
        && code_of(two_at(b, 10)) == codes::SUCCESS
        && b.len() >= 28
}

/// The identifier of the controller, if an end tells it.
fn controller_in(b: &[u8]) -> Option<u64>
    requires { 12 ≤ length b.now }
    ensures { result ≡ wire.controller_in b.now }
{
    if tells_controller(b) {
        Some(eight_at(b, 20))
    } else {
        None
    }
}

/// The controller timeout in seconds, if an end tells it.
fn timeout_in(b: &[u8]) -> Option<u16>
    requires { 12 ≤ length b.now }
    ensures { result ≡ wire.timeout_in b.now }
{
    if tells_controller(b) {
        Some(two_at(b, 16))
    } else {
        None
    }
}

/// Whether a number is there, and is this.
pub(crate) fn is_it(found: Option<u32>, number: u32) -> bool
    ensures { result ≡ wire.is_it found number }
{
    match found {
        Some(found) => found == number,
        None => false,
    }
}

impl Answer {
    /// The end in a message (manual, "End Messages").
    pub fn of(connection: Connection, b: &[u8]) -> Answer
        requires { 12 ≤ length b.now }
        ensures { result ≡ wire.answer_by connection b.now }
    {
        Answer {
            connection,
            reference: four_at(b, 0),
            unit: two_at(b, 4),
            code: b[8],
            status: two_at(b, 10),
            parameter: four_in(b, 12),
            figure: four_in(b, 16),
            identity: Identity::of(b),
            protected: protected_in(b),
            table: table_in(b),
            controller: controller_in(b),
            timeout: timeout_in(b),
        }
    }

    /// The code of the status.
    pub fn status_code(&self) -> u16
        ensures { result ≡ wire.status_code self.now }
    {
        code_of(self.status)
    }

    /// Whether the endcode is that of an opcode which the controller knows.
    pub fn is_known(&self) -> bool
        ensures { result ≡ wire.is_known self.now }
    {
        self.code != endcodes::UNKNOWN
    }

    /// Whether it names the unit of its command, or any if that asks for the next unit.
    pub fn names_unit(&self, command: &Sent) -> bool
        ensures { result ≡ wire.names_unit command.now self.now }
    {
        command.next || self.unit == command.unit
    }

    /// Whether it has the endcode of its command.
    pub fn has_endcode(&self, command: &Sent) -> bool
        ensures { result ≡ wire.has_endcode command.now self.now }
    {
        if self.is_known() {
            u16::from(self.code) == u16::from(command.opcode) + u16::from(endcodes::UNKNOWN)
        } else {
            !is_required(command.opcode)
        }
    }

    /// Whether its status has a code that its command may have.
    fn has_code(&self, command: &Sent) -> bool
        ensures { result ≡ wire.has_code command.now self.now }
    {
        if self.is_known() {
            is_unknown(command.opcode) || may_have_status(command.opcode, self.status_code())
        } else {
            self.status_code() == codes::INVALID_COMMAND
        }
    }

    /// Whether it doesn't succeed if its command's message is too short.
    fn is_whole(&self, command: &Sent) -> bool
        ensures { result ≡ wire.is_whole command.now self.now }
    {
        !command.is_short() || self.status_code() != codes::SUCCESS
    }

    /// Whether it doesn't say that its unit was online already, unless its command is an ONLINE or has no row.
    fn is_plain(&self, command: &Sent) -> bool
        ensures { result ≡ wire.is_plain command.now self.now }
    {
        self.status_code() != codes::SUCCESS
            || !self.was_online()
            || command.opcode == opcodes::ONLINE
            || is_unknown(command.opcode)
    }

    /// Whether the sub-code of Invalid Command is the offset of a byte of the message, unless that is too short.
    fn points_into(&self, command: &Sent) -> bool
        ensures { result ≡ wire.points_into command.now self.now }
    {
        self.status_code() != codes::INVALID_COMMAND
            || command.is_short()
            || usize::from(self.status / 256) < command.bytes
    }

    /// Whether its status is one that its command may have.
    pub fn has_status(&self, command: &Sent) -> bool
        ensures { result ≡ wire.has_status command.now self.now }
    {
        self.has_code(command)
            && self.is_whole(command)
            && self.is_plain(command)
            && self.points_into(command)
    }

    /// Whether its command, which has a modifier, is refused as an Invalid Command.
    fn is_refused(&self, command: &Sent) -> bool
        ensures { result ≡ wire.is_refused command.now self.now }
    {
        command.modified && self.status_code() == codes::INVALID_COMMAND
    }

    /// The command that its command is about, if it is an ABORT or a GET COMMAND STATUS that names one.
    pub fn other_of(&self, command: &Sent) -> Option<u32>
        ensures { result ≡ wire.other_of command.now self.now }
    {
        if self.is_known()
            && (command.opcode == opcodes::ABORT || command.opcode == opcodes::GET_COMMAND_STATUS)
            && !self.is_refused(command)
        {
            command.parameter
        } else {
            None
        }
    }

    /// The command that a poll is about, if its command is one.
    pub fn polled_by(&self, command: &Sent) -> Option<u32>
        ensures { result ≡ wire.polled_by command.now self.now }
    {
        if self.is_known()
            && command.opcode == opcodes::GET_COMMAND_STATUS
            && !self.is_refused(command)
        {
            command.parameter
        } else {
            None
        }
    }

    /// Whether the bytes of its command are counted: those of a transfer, or of a COMPARE CONTROLLER DATA if it tells
    /// a number.
    fn is_counted(&self, command: &Sent) -> bool
        ensures { result ≡ wire.is_counted command.now.opcode self.now.parameter }
    {
        is_transfer(command.opcode)
            || (command.opcode == opcodes::COMPARE_CONTROLLER_DATA && self.parameter.is_some())
    }

    /// How many bytes were to be moved, if that is counted.
    pub fn count_of(&self, command: &Sent) -> Option<u32>
        ensures { result ≡ wire.count_of command.now self.now }
    {
        if self.is_known() && self.is_counted(command) {
            command.parameter
        } else {
            None
        }
    }

    /// Whether it succeeds, if it is of a command that is about this other one.
    pub fn succeeds(&self, other: Option<u32>) -> bool
        ensures { result ≡ wire.succeeds self.now other }
    {
        other.is_none() || self.status_code() == codes::SUCCESS
    }

    /// Whether it names the command that its command is about, if there is one.
    pub fn is_about(&self, other: Option<u32>) -> bool
        ensures { result ≡ wire.is_about self.now other }
    {
        match other {
            Some(other) => is_it(self.parameter, other),
            None => true,
        }
    }

    /// Whether no more bytes were moved than were asked for, and all of them if the status is Success.
    pub fn has_count(&self, count: Option<u32>) -> bool
        ensures { result ≡ wire.has_count self.now count }
    {
        match (count, self.parameter) {
            (Some(count), Some(moved)) => {
                moved <= count && (moved == count || self.status_code() != codes::SUCCESS)
            }
            (Some(_), None) => false,
            (None, _) => true,
        }
    }

    /// Whether the sub-code of an ONLINE's Success says that the unit was online already.
    pub fn was_online(&self) -> bool
        ensures { result ≡ wire.was_online self.now }
    {
        self.status / 256 % 2 == 1
    }

    /// Whether it tells what a unit is that was online before: any other Success of an ONLINE brought it online.
    pub fn tells_unit(&self) -> bool
        ensures { result ≡ wire.tells_unit self.now }
    {
        self.status_code() == codes::SUCCESS
            && (self.code == endcodes::GET_UNIT_STATUS
                || (self.code == endcodes::ONLINE && self.was_online())
                || self.code == endcodes::SET_UNIT_CHARACTERISTICS)
    }

    /// Whether it is one of SET UNIT CHARACTERISTICS, which succeeds of a unit that isn't online, too.
    pub fn is_unsure(&self) -> bool
        ensures { result ≡ wire.is_unsure self.now }
    {
        self.code == endcodes::SET_UNIT_CHARACTERISTICS
    }

    /// Whether it brings its unit online.
    pub fn brings(&self) -> bool
        ensures { result ≡ wire.brings self.now }
    {
        self.code == endcodes::ONLINE && self.status_code() == codes::SUCCESS
    }

    /// Whether it tells what its unit is and how it is set.
    pub fn describes(&self) -> bool
        ensures { result ≡ wire.describes self.now }
    {
        self.brings() || self.tells_unit()
    }

    /// The identifier of its unit, if it says that this is online.
    pub fn called(&self) -> Option<u64>
        ensures { result ≡ wire.called_in self.now }
    {
        match self.identity {
            Some(identity) if self.describes() && self.code != endcodes::SET_UNIT_CHARACTERISTICS =>
                Some(identity.identifier),
            _ => None,
        }
    }

    /// Whether it is one of a transfer.
    pub fn is_moved(&self) -> bool
        ensures { result ≡ wire.is_moved self.now.code }
    {
        self.code == endcodes::ACCESS
            || self.code == endcodes::ERASE
            || self.code == endcodes::COMPARE_HOST_DATA
            || self.code == endcodes::READ
            || self.code == endcodes::WRITE
    }

    /// Whether it is one of a command that waits for its unit.
    fn is_of_unit(&self) -> bool
        ensures { result ≡ wire.is_of_unit self.now.code }
    {
        self.is_moved()
            || self.code == endcodes::AVAILABLE
            || self.code == endcodes::ONLINE
            || self.code == endcodes::SET_UNIT_CHARACTERISTICS
    }

    /// Whether it says that its unit isn't online.
    pub fn says_away(&self) -> bool
        ensures { result ≡ wire.says_away self.now }
    {
        (self.status_code() == codes::SUCCESS
            && (self.code == endcodes::AVAILABLE && self.status / 512 % 2 == 0))
            || (self.status_code() == codes::UNIT_AVAILABLE
                && (self.is_of_unit() || self.code == endcodes::GET_UNIT_STATUS))
            || (self.status_code() == codes::UNIT_OFFLINE && self.is_of_unit())
    }

    /// Whether it says that its unit went away by itself.
    pub fn went(&self) -> bool
        ensures { result ≡ wire.went self.now }
    {
        self.says_away() && self.status_code() != codes::SUCCESS
    }

    /// Whether nothing is known after it of what its unit is.
    pub fn leaves(&self) -> bool
        ensures { result ≡ wire.leaves self.now }
    {
        self.says_away()
            || self.status_code() == codes::UNIT_AVAILABLE
            || self.status_code() == codes::UNIT_OFFLINE
            || (self.status_code() == codes::SUCCESS && self.code == endcodes::AVAILABLE)
    }

    /// Whether it says that its unit is online.
    pub fn says_online(&self) -> bool
        ensures { result ≡ wire.says_online self.now }
    {
        self.status_code() == codes::SUCCESS
            && (self.is_moved()
                || self.code == endcodes::GET_UNIT_STATUS
                || (self.code == endcodes::ONLINE && self.was_online()))
    }
}
