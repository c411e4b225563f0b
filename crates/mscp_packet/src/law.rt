// What the codec promises of both directions at once, and what the layouts promise of themselves.

ghost use Rattle.std.specs.Prelude.{◌≡◌};
ghost use Rattle.mscp_packet.specs.Common.{command_bytes, command_of, CommandBytesAreMessages, IsValidOrder, end_bytes, kind_of_code, reading_with, EndBytesAreMessages, IsOfKind, success, already_online, invalid_length, invalid_opcode, invalid_version, invalid_block, aborted, unit_offline, no_volume, unit_available, protected_by_host, protected, different, odd_address, odd_count, missing, parity, unmapped, drive_error, IsSound};

use crate::command::Command;
use crate::end::End;
use crate::reading::{EndFault, PacketFault, read_command, read_end};
use crate::status::{
    ABORTED, ALREADY_ONLINE, DIFFERENT, DRIVE_ERROR, INVALID_BLOCK, INVALID_LENGTH, INVALID_OPCODE,
    INVALID_VERSION, MISSING, NO_VOLUME, ODD_ADDRESS, ODD_COUNT, PARITY, PROTECTED,
    PROTECTED_BY_HOST, SUCCESS, UNIT_AVAILABLE, UNIT_OFFLINE, UNMAPPED,
};
use crate::writing::{write_command, write_end};

/// Writes a command and reads it again, which gives the same command unless it is an `Order::Invalid`. That is
/// written without parameters or status, so it gives whatever its opcode byte in 12 bytes asks for.
pub fn read_written_command(command: &Command) -> Result<Command, PacketFault>
    ensures same { IsValidOrder command.now.order → result ≡ Ok command.now }
    ensures read { result ≡ Ok (command_of (command_bytes command.now)) }
{
    read_command(write_command(command).as_slice())
}

/// Writes an end and reads it again, which gives the same end where its body is of the shape that follows its
/// endcode. Else it gives what the written bytes say to one who goes by the endcode: `EndFault::Code` where there is
/// no such endcode, `EndFault::Length` where the body is shorter than the endcode's, and an end where it is as long
/// or longer.
pub fn read_written_end(end: &End) -> Result<End, EndFault>
    ensures same { IsOfKind end.now → result ≡ Ok end.now }
    ensures read { result ≡ reading_with (kind_of_code end.now.code) (end_bytes end.now) }
{
    read_end(write_end(end).as_slice())
}

/// The bytes of a valid command are a message of it. This is a law of the layout of commands alone, with no reader or
/// writer in it.
pub fn command_bytes_are_messages()
    ensures { CommandBytesAreMessages }
{}

/// The bytes of an end are a message of it, where its body is of the shape that follows its endcode. This is a law of
/// the layout of ends alone, with no reader or writer in it.
pub fn end_bytes_are_messages()
    ensures { EndBytesAreMessages }
{}

/// The tables of opcodes and endcodes agree: each opcode has a byte of its own below 0x80, and with the top bit set
/// that is an endcode, whose body is the opcode's. A command has at least 12 bytes, and is written long enough to be
/// read. An end has at least 12 bytes. Both have room in 48.
pub fn tables_agree()
    ensures { IsSound }
{}

/// Each status of `status` is the number that the layouts have under its name.
pub fn statuses_agree()
    ensures success { SUCCESS ≡ success }
    ensures already_online { ALREADY_ONLINE ≡ already_online }
    ensures invalid_length { INVALID_LENGTH ≡ invalid_length }
    ensures invalid_opcode { INVALID_OPCODE ≡ invalid_opcode }
    ensures invalid_version { INVALID_VERSION ≡ invalid_version }
    ensures invalid_block { INVALID_BLOCK ≡ invalid_block }
    ensures aborted { ABORTED ≡ aborted }
    ensures unit_offline { UNIT_OFFLINE ≡ unit_offline }
    ensures no_volume { NO_VOLUME ≡ no_volume }
    ensures unit_available { UNIT_AVAILABLE ≡ unit_available }
    ensures protected_by_host { PROTECTED_BY_HOST ≡ protected_by_host }
    ensures protected { PROTECTED ≡ protected }
    ensures different { DIFFERENT ≡ different }
    ensures odd_address { ODD_ADDRESS ≡ odd_address }
    ensures odd_count { ODD_COUNT ≡ odd_count }
    ensures missing { MISSING ≡ missing }
    ensures parity { PARITY ≡ parity }
    ensures unmapped { UNMAPPED ≡ unmapped }
    ensures drive_error { DRIVE_ERROR ≡ drive_error }
{}
