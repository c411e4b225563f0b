// The text of commands and ends.

ghost use Rattle.std.specs.Prelude.{◌≡◌, ◌≤◌, ◌+◌, ◌++◌, codes, length, OnErr, OnOk};
ghost use Rattle.mscp_text.specs.Common.{status_text, body_text, code_text, command_text, end_text, invalid_name, order_text, packet_line};

use crate::out::Out;
use crate::packet::Packet;
use crate::words::{put, put_field, put_hex, put_two};
use itoa::Integer;
use mscp_packet::status::INVALID_OPCODE;
use mscp_packet::{Command, End, EndBody, Order};
use std::alloc::AllocError;

/// What is wrong with a command that is refused with this status.
fn invalid_name(status: u16) -> &'static str
    ensures { result.now ≡ invalid_name status }
{
    if status == INVALID_OPCODE {
        "unknown"
    } else {
        "short"
    }
}

/// Appends the name of a command, and a number of it behind a word.
fn put_named<N: Integer, O: Out>(
    out: &mut O,
    name: &str,
    word: &str,
    number: N,
) -> Result<(), AllocError>
    ensures text { OnOk result (O.text out.new ≡ O.text out.old ++ (name.now ++ word.now ++ N.text number)) }
    ensures refused { OnErr result O.refuses }
{
    put(out, name)?;
    put_field(out, word, number)
}

/// Appends what a command asks for.
fn put_order<O: Out>(out: &mut O, order: Order) -> Result<(), AllocError>
    ensures text { OnOk result (O.text out.new ≡ O.text out.old ++ order_text order) }
    ensures refused { OnErr result O.refuses }
{
    match order {
        Order::Abort(other) => put_named(out, order.name(), " of ", other),
        Order::Status(other) => put_named(out, order.name(), " of ", other),
        Order::SetController(version) => { put_named(out, order.name(), " version ", version) }
        Order::Move(_, count, block) => {
            put(out, order.name())?;
            put_two(out, " bytes ", count, " block ", block)
        }
        Order::Invalid { opcode, status } => {
            put(out, invalid_name(status))?;
            put_field(out, " opcode ", opcode)
        }
        order => put(out, order.name()),
    }
}

/// Appends a command.
fn put_command<O: Out>(out: &mut O, command: Command) -> Result<(), AllocError>
    ensures text { OnOk result (O.text out.new ≡ O.text out.old ++ command_text command) }
    ensures refused { OnErr result O.refuses }
{
    put_two(out, "command ", command.reference, " unit ", command.unit)?;
    put(out, " ")?;
    put_order(out, command.order)
}

/// Appends what an end tells beside its status.
fn put_body<O: Out>(out: &mut O, body: EndBody) -> Result<(), AllocError>
    ensures text { OnOk result (O.text out.new ≡ O.text out.old ++ body_text body) }
    ensures refused { OnErr result O.refuses }
{
    match body {
        EndBody::Bare => Ok(()),
        EndBody::Abort(other) => put_field(out, " of ", other),
        EndBody::Status { other, figure } => { put_two(out, " of ", other, " figure ", figure) }
        EndBody::UnitStatus {
            id,
            media,
            track,
            group,
            cylinder,
        } => {
            put_two(out, " id ", id, " media ", media)?;
            put_two(out, " track ", track, " group ", group)?;
            put_field(out, " cylinder ", cylinder)
        }
        EndBody::Controller { timeout, id } => { put_two(out, " timeout ", timeout, " id ", id) }
        EndBody::Online {
            id,
            media,
            size,
            serial,
        } => {
            put_two(out, " id ", id, " media ", media)?;
            put_two(out, " size ", size, " serial ", serial)
        }
        EndBody::Moved(count) => put_field(out, " bytes ", count),
    }
}

/// Appends the endcode of an end.
fn put_code<O: Out>(out: &mut O, code: u8) -> Result<(), AllocError>
    ensures text { OnOk result (O.text out.new ≡ O.text out.old ++ (codes " code " ++ code_text code)) }
    ensures refused { OnErr result O.refuses }
{
    put(out, " code ")?;
    put_hex(out, &[code])
}

/// Appends the status of an end.
fn put_status<O: Out>(out: &mut O, status: u16) -> Result<(), AllocError>
    ensures text { OnOk result (O.text out.new ≡ O.text out.old ++ (codes " status " ++ status_text status)) }
    ensures refused { OnErr result O.refuses }
{
    put(out, " status ")?;
    put_hex(out, &status.to_be_bytes())
}

/// Appends an end.
fn put_end<O: Out>(out: &mut O, end: End) -> Result<(), AllocError>
    ensures text { OnOk result (O.text out.new ≡ O.text out.old ++ end_text end) }
    ensures refused { OnErr result O.refuses }
{
    put_two(out, "end ", end.reference, " unit ", end.unit)?;
    put_code(out, end.code)?;
    put_status(out, end.status)?;
    put_body(out, end.body)
}

/// Appends the line of a packet.
pub(crate) fn put_packet<O: Out>(out: &mut O, packet: Packet) -> Result<(), AllocError>
    ensures text { OnOk result (O.text out.new ≡ O.text out.old ++ packet_line packet) }
    ensures refused { OnErr result O.refuses }
{
    match packet {
        Packet::Command(command) => put_command(out, command)?,
        Packet::End(end) => put_end(out, end)?,
    }
    put(out, "\n")
}
