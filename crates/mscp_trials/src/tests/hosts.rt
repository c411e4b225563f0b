// The end of a host, in a driver. tests/c/answers.c has what it makes of each end, and tests/c/hearing.c what a host of
// a port makes of each message.

mod driver;

use super::values::ended;
use crate::tests::checks::{holds, same};
use mscp_host::{Envelope, Heard, Host};
use mscp_packet::{End, EndBody};

/// The end of a READ of two blocks.
fn read_end(reference: u32) -> End {
    ended(reference, 0xA1, 0, EndBody::Moved(1024))
}

/// The end of a poll that tells this figure of another command.
fn answer(reference: u32, other: u32, figure: u32) -> End {
    ended(reference, 0x82, 0, EndBody::Status { other, figure })
}

/// The GET COMMAND STATUS of this reference number about that one, both below 256.
fn status_bytes(reference: u8, other: u8) -> [u8; 16] {
    [reference, 0, 0, 0, 0, 0, 0, 0, 2, 0, 0, 0, other, 0, 0, 0]
}

// A `PortHost` keeps at most 65535 credits, and that more were told. No envelope of a real port tells so many at once.
#[test]
fn a_host_keeps_the_most_credits(rt: HostRuntime) {
    let rt = &rt;
    let mut host = Host::of_port();
    let many = Envelope {
        length: 0,
        credits: 254,
        kind: 2,
        connection: 0,
    };
    for (times, credits, is_over) in [(258, 65533, false), (1, 65535, true)] {
        for _ in 0..times {
            let heard = host.hear(&many, &[]);
            holds(rt, matches!(heard, Ok(Heard::Credits(254))));
        }
        same(rt, (host.credits(), host.is_over()), (credits, is_over));
    }
}
