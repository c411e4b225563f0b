// Commands that this project's controller doesn't know and others serve, as FLUSH, and their ends. A log of drivers has
// them, so its lines in words call them by the manual's names.

ghost use Rattle.std.specs.Prelude.{◌≡◌, ◌≤◌, ◌++◌, length, IfSome, OnOk};
ghost use Rattle.mscpjudge.specs.Foreign as foreign;

use crate::values::put_digits;
use mscp_packet::fields::{four_at, two_at};
use mscp_packet::{Class, class_of, endcodes, has_row, opcode_name};
use mscp_text::{put, put_field};
use std::alloc::AllocError;

/// Whether an opcode has a name, and no line of a packet knows it.
fn is_foreign(opcode: u8) -> bool
    ensures { result ≡ foreign.is_foreign opcode }
{
    has_row(opcode) && matches!(class_of(opcode), Class::Unknown)
}

/// The opcode of a command or an end, if it is such a one.
pub(crate) fn foreign_of(bytes: &[u8]) -> Option<u8>
    ensures opcode { result ≡ foreign.foreign_of bytes.now }
    ensures least { IfSome result (λ opcode. 12 ≤ length bytes.now) }
{
    if bytes.len() < 12 || bytes.len() > 64 {
        return None;
    }
    let opcode = bytes[8] % endcodes::UNKNOWN;
    if is_foreign(opcode) {
        Some(opcode)
    } else {
        None
    }
}

/// Appends the number and the unit of a command or an end, behind a word.
fn put_about(text: &mut Vec<u8>, word: &str, bytes: &[u8]) -> Result<(), AllocError>
    requires { 12 ≤ length bytes.now }
    ensures { OnOk result (text.new.items ≡ text.old.items ++ foreign.about_text word.now bytes.now) }
{
    put_field(text, word, four_at(bytes, 0))?;
    put_field(text, " unit ", two_at(bytes, 4))
}

/// Appends an endcode.
#[tactic(auto, unfolding(crate::specs::Foreign::code_text))]
fn put_code(text: &mut Vec<u8>, code: u8) -> Result<(), AllocError>
    ensures { OnOk result (text.new.items ≡ text.old.items ++ foreign.code_text code) }
{
    let bytes = [code];
    put_digits(text, bytes.as_slice())
}

/// Appends a status.
#[tactic(auto, unfolding(crate::specs::Foreign::status_text))]
fn put_status(text: &mut Vec<u8>, status: u16) -> Result<(), AllocError>
    ensures { OnOk result (text.new.items ≡ text.old.items ++ foreign.status_text status) }
{
    let bytes = status.to_be_bytes();
    put_digits(text, bytes.as_slice())
}

/// Appends the endcode and the status of an end.
fn put_told(text: &mut Vec<u8>, bytes: &[u8]) -> Result<(), AllocError>
    requires { 12 ≤ length bytes.now }
    ensures { OnOk result (text.new.items ≡ text.old.items ++ foreign.told_text bytes.now) }
{
    put(text, " code ")?;
    put_code(text, bytes[8])?;
    put(text, " status ")?;
    put_status(text, two_at(bytes, 10))
}

/// Appends what a command or an end is, without its name.
fn put_unnamed(text: &mut Vec<u8>, bytes: &[u8]) -> Result<(), AllocError>
    requires { 12 ≤ length bytes.now }
    ensures { OnOk result (text.new.items ≡ text.old.items ++ foreign.unnamed_text bytes.now) }
{
    if bytes[8] < endcodes::UNKNOWN {
        return put_about(text, "command ", bytes);
    }
    put_about(text, "end ", bytes)?;
    put_told(text, bytes)
}

/// Appends the line of a command or an end of this opcode.
#[tactic(auto, unfolding(crate::specs::Foreign::foreign_text))]
pub(crate) fn put_foreign(text: &mut Vec<u8>, bytes: &[u8], opcode: u8) -> Result<(), AllocError>
    requires { 12 ≤ length bytes.now }
    ensures { OnOk result (text.new.items ≡ text.old.items ++ foreign.foreign_text bytes.now opcode) }
{
    put_unnamed(text, bytes)?;
    put(text, " ")?;
    put(text, opcode_name(opcode))?;
    put(text, "\n")
}
