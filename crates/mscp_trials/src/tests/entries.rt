// Entries that no script leads to: a report has the lines of these, too.

use crate::tests::checks::{got, holds, same};
use arrayvec::ArrayVec;
use mscp_controller::{Connection, Entry, Report, SendFault, Sent};
use mscp_packet::{End, EndBody};
use mscp_sim::report;
use std::process::Abort;

fn queued(reference: u32) -> Entry {
    Entry::Sent(Connection::First, Ok(Sent::Queued(reference)))
}

/// The end of a READ of unit 65535.
const END: End = End {
    reference: 1,
    unit: 65535,
    code: 0xA1,
    status: 0,
    body: EndBody::Moved(0),
};

/// A step of that READ, for which the head went farther than there are cylinders.
fn served(lbn: u32, ended: Option<End>) -> Entry {
    Entry::Stepped(Report::Served {
        connection: Connection::First,
        reference: 1,
        unit: 65535,
        lbn: Some(lbn),
        started: true,
        seek: 4_294_967_295,
        ended,
    })
}

/// These bytes are taken as an end.
fn taken(rt: &impl Abort, connection: Connection, bytes: &[u8]) -> Entry {
    let mut message = ArrayVec::new();
    message.try_extend_from_slice(bytes).expect(rt, "room");
    Entry::Taken(connection, Some(message))
}

#[test]
fn entries_that_no_script_leads_to_are_reported(rt: HostRuntime) {
    let rt = &rt;
    let aborting = Sent::Answered {
        reference: 4_294_967_295,
        aborted: Some(4_294_967_295),
    };
    let entries = [
        Entry::Sent(Connection::First, Err(SendFault::Long)),
        Entry::Sent(Connection::Second, Ok(aborting)),
        served(5, None),
        served(6, Some(END)),
        taken(rt, Connection::First, b"\x02\0\0\0\0\0\0\0\x82\0\0\xff"),
        taken(rt, Connection::Second, &[0xAB; 48]),
    ];
    let wanted = "refused long
second answered 4294967295 aborted 4294967295
serve 1 unit 65535 block 5 seek 4294967295
serve 1 unit 65535 block 6 seek 4294967295 ended 0000
end 0200000000000000820000ff
second end abababababababababababababababababababababababababababababababababababababababababababababababab
steps 2 seeks 8589934590 pending 0
";
    let text = got(rt, report(rt.alloc(), &entries));
    same(rt, text.as_slice(), wanted.as_bytes());
}

/// The report of these entries ends so.
fn ends_with(rt: &(impl Abort + AllocGlobal), entries: &[Entry], totals: &str) {
    let text = got(rt, report(rt.alloc(), entries));
    holds(rt, text.ends_with(totals.as_bytes()));
}

// More ends than commands, and ends before the commands.
#[test]
fn what_waits_is_counted_at_the_end_alone(rt: HostRuntime) {
    let none_left = [served(0, Some(END)), served(0, Some(END)), queued(1)];
    ends_with(&rt, &none_left, "steps 2 seeks 8589934590 pending 0\n");
    let some_left = [served(0, Some(END)), queued(1), queued(2), queued(3)];
    ends_with(&rt, &some_left, "steps 1 seeks 4294967295 pending 2\n");
}
