// Messages, as values and as bytes.

use super::values::{ended, read, read_message};
use crate::tests::checks::{got, holds, same, same_of};
use arrayvec::ArrayVec;
use mscp_packet::{
    Class, End, EndBody, EndFault, class_of, read_end, read_written_command, read_written_end,
    write_command, write_end,
};
use std::process::Abort;

// The READ of the first script. tests/c/messages.c has messages of each opcode.
#[test]
fn a_read_is_written_and_read_back(rt: HostRuntime) {
    let rt = &rt;
    let command = read(1, 1024, 40);
    let back = got(rt, read_written_command(&command));
    let wanted = read_message(1, 0, 1024, 40);
    same(rt, write_command(&command).as_slice(), wanted.as_slice());
    same(rt, write_command(&back).as_slice(), wanted.as_slice());
}

#[test]
fn an_end_is_zero_by_default(rt: HostRuntime) {
    holds(&rt, matches!(EndBody::default(), EndBody::Bare));
    same(
        &rt,
        write_end(&End::default()).as_slice(),
        [0; 12].as_slice(),
    );
}

/// An end as its bytes, or the number of a fault.
fn told(end: Result<End, EndFault>) -> Result<ArrayVec<u8, 48>, u8> {
    match end {
        Ok(end) => Ok(write_end(&end)),
        Err(fault) => Err(fault as u8),
    }
}

/// The end with this endcode and body, or this fault.
fn whole(code: u8, body: Result<EndBody, EndFault>) -> Result<End, EndFault> {
    Ok(ended(1, code, 0, body?))
}

/// The end of so many bytes that are zeros but for the endcode.
fn of_zeros(rt: &impl Abort, code: u8, length: usize) -> Result<End, EndFault> {
    let bytes = zeros(code);
    read_end(bytes.get(..length).expect(rt, "65 bytes"))
}

#[test]
fn an_end_of_another_shape_is_read_by_its_endcode(rt: HostRuntime) {
    for (code, body, wanted) in [
        (0x81, EndBody::Moved(7), Ok(EndBody::Abort(7))),
        (0x88, EndBody::Moved(7), Ok(EndBody::Bare)),
        (0x82, EndBody::Abort(7), Err(EndFault::Length)),
        (0x89, EndBody::Moved(7), Err(EndFault::Length)),
        (0x21, EndBody::Moved(7), Err(EndFault::Code)),
    ] {
        let back = read_written_end(&ended(1, code, 0, body));
        same_of(&rt, code, told(back), told(whole(code, wanted)));
    }
}

/// Bytes that are all zeros but for the opcode or endcode.
fn zeros(code: u8) -> [u8; 65] {
    let mut bytes = [0; 65];
    bytes[8] = code;
    bytes
}

#[test]
fn ends_are_judged_by_length_then_endcode(rt: HostRuntime) {
    for (code, length, wanted) in [
        (0xA1, 31, Err(EndFault::Length)),
        (0x83, 47, Err(EndFault::Length)),
        (0x83, 48, Ok(ended(0, 0x83, 0, EndBody::refused(0x83)))),
        (0x21, 11, Err(EndFault::Length)),
        (0x21, 12, Err(EndFault::Code)),
        (0x21, 64, Err(EndFault::Code)),
        (0x21, 65, Err(EndFault::Length)),
    ] {
        let end = of_zeros(&rt, code, length);
        same_of(&rt, (code, length), told(end), told(wanted));
    }
}

#[test]
fn refused_commands_have_the_body_that_zeros_are_read_as(rt: HostRuntime) {
    for code in [
        0x80, 0x81, 0x82, 0x83, 0x84, 0x88, 0x89, 0x8A, 0x90, 0x92, 0xA0, 0xA1, 0xA2,
    ] {
        let wanted = ended(0, code, 0, EndBody::refused(code));
        same_of(&rt, code, told(of_zeros(&rt, code, 64)), told(Ok(wanted)));
    }
    holds(&rt, matches!(EndBody::refused(0x85), EndBody::Bare));
}

#[test]
fn opcodes_have_classes(rt: HostRuntime) {
    for (opcodes, class) in [
        ([1, 2, 3, 4].as_slice(), Class::Immediate),
        ([8, 9, 10].as_slice(), Class::Sequential),
        ([16, 18, 32, 33, 34].as_slice(), Class::Free),
        ([0, 5, 0xA1, 255].as_slice(), Class::Unknown),
    ] {
        for opcode in opcodes {
            same_of(&rt, *opcode, class_of(*opcode) as u8, class as u8);
        }
    }
}
