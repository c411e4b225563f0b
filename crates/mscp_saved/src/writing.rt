// A controller to bytes.
//
// What is saved is what callers see, and nothing of slots and dues: so a change inside leaves the bytes alone. There
// is no checksum: it would show no forgery.

ghost use Rattle.std.specs.Prelude.{◌≡◌, ◌+◌, ◌*◌, ◌≤◌, ◌<◌, ◌^◌, ◌++◌, [], flat_map, length, All, IfSome, slice_index_or, Ok};
ghost use Rattle.mscp_saved.specs.Common.{array_vec_len, HasEndRange, IsSound, made_of, HasDriveRange, HasIdentifiersRange, HasLimitRange, HasSizesRange, HasWaitingRange, restored, begun_bytes, connection_byte, counts_bytes, counts_of, drive_bytes, end_cell, flag_byte, frame_bytes, head_with, identifiers_bytes, limits_bytes, saved_bytes, settings_bytes, sizes_bytes, waiting_bytes};

pub use crate::fields::ROOM;
use crate::fields::{put_one, put_padded};
use arrayvec::ArrayVec;
use mscp_controller::{Config, Connection, Controller, Drive, Name, Picker, Record};
use mscp_drive::Unit;
use mscp_packet::fields::{put_eight, put_four, put_two};
use mscp_packet::{End, write_command, write_end};

/// "MSCQ", as a number.
pub(crate) const MAGIC: u32 = 0x5143_534D;

/// The version of the format.
pub(crate) const VERSION: u32 = 1;

/// The number of a connection.
pub fn connection_byte(connection: Connection) -> u8
    ensures { result ≡ connection_byte connection }
{
    match connection {
        Connection::First => 1,
        Connection::Second => 2,
    }
}

/// Whether something is so, as a number.
fn flag_byte(so: bool) -> u8
    ensures { result ≡ flag_byte so }
{
    if so { 1 } else { 0 }
}

/// Appends a unit's number and its sizes.
fn put_sizes(out: &mut ArrayVec<u8, ROOM>, unit: &Unit)
    requires { array_vec_len out.old + 12 ≤ 3664 }
    ensures items { out.new.items ≡ out.old.items ++ sizes_bytes unit.now }
    ensures len { array_vec_len out.new ≡ array_vec_len out.old + 12 }
    ensures range { HasSizesRange unit.now }
{
    put_two(out, unit.number());
    put_two(out, unit.track());
    put_two(out, unit.group());
    put_two(out, unit.cylinder_size());
    put_four(out, unit.size());
}

/// Appends a unit's identifiers.
fn put_identifiers(out: &mut ArrayVec<u8, ROOM>, unit: &Unit)
    requires { array_vec_len out.old + 16 ≤ 3664 }
    ensures items { out.new.items ≡ out.old.items ++ identifiers_bytes unit.now }
    ensures len { array_vec_len out.new ≡ array_vec_len out.old + 16 }
    ensures range { HasIdentifiersRange unit.now }
{
    put_eight(out, unit.id());
    put_four(out, unit.media());
    put_four(out, unit.serial());
}

/// Appends a drive.
fn put_drive(out: &mut ArrayVec<u8, ROOM>, drive: &Drive)
    requires { array_vec_len out.old + 34 ≤ 3664 }
    ensures items { out.new.items ≡ out.old.items ++ drive_bytes drive.now }
    ensures len { array_vec_len out.new ≡ array_vec_len out.old + 34 }
    ensures range { HasDriveRange drive.now }
{
    put_sizes(out, &drive.unit);
    put_identifiers(out, &drive.unit);
    put_one(out, flag_byte(drive.online));
    put_one(out, flag_byte(drive.head.up));
    put_four(out, drive.head.cylinder);
}

/// Appends a waiting command.
fn put_waiting(out: &mut ArrayVec<u8, ROOM>, waiting: &Record)
    requires { array_vec_len out.old + 41 ≤ 3664 }
    ensures items { out.new.items ≡ out.old.items ++ waiting_bytes waiting.now }
    ensures len { array_vec_len out.new ≡ array_vec_len out.old + 41 }
    ensures range { HasWaitingRange waiting.now }
{
    let message = write_command(&waiting.command());
    put_padded(out, message.as_slice(), 32);
    put_four(out, waiting.done());
    put_four(out, waiting.passed());
    put_one(out, connection_byte(waiting.connection()));
}

/// Appends an end.
fn put_end(out: &mut ArrayVec<u8, ROOM>, end: End)
    requires { array_vec_len out.old + 48 ≤ 3664 }
    ensures items { out.new.items ≡ out.old.items ++ end_cell end }
    ensures len { array_vec_len out.new ≡ array_vec_len out.old + 48 }
    ensures range { HasEndRange end }
{
    put_padded(out, write_end(&end).as_slice(), 48);
}

/// Appends what was begun.
fn put_begun(out: &mut ArrayVec<u8, ROOM>, begun: Option<Name>)
    requires { array_vec_len out.old + 5 ≤ 3664 }
    ensures items { out.new.items ≡ out.old.items ++ begun_bytes begun }
    ensures len { array_vec_len out.new ≡ array_vec_len out.old + 5 }
    ensures range { IfSome begun (λ name. name.reference < 2 ^ 32) }
{
    match begun {
        Some(name) => {
            put_one(out, connection_byte(name.connection));
            put_four(out, name.reference);
        }
        None => {
            put_one(out, 0);
            put_four(out, 0);
        }
    }
}

/// How many there are of each part.
#[derive(Clone, Copy)]
pub(crate) struct Counts {
    pub drives: u8,
    pub waiting: u8,
    pub first: u8,
    pub second: u8,
}

/// Appends what tells how long all is.
fn put_frame(out: &mut ArrayVec<u8, ROOM>, counts: Counts)
    requires start { out.old.items ≡ [] }
    ensures items { out.new.items ≡ frame_bytes counts }
    ensures len { array_vec_len out.new ≡ 12 }
{
    let ends = u32::from(counts.first) + u32::from(counts.second);
    let length = 48 + 34 * u32::from(counts.drives) + 41 * u32::from(counts.waiting) + 48 * ends;
    put_four(out, MAGIC);
    put_four(out, VERSION);
    put_four(out, length);
}

/// Appends the limits.
fn put_limits(out: &mut ArrayVec<u8, ROOM>, config: &Config)
    requires { array_vec_len out.old ≡ 12 }
    ensures items { out.new.items ≡ out.old.items ++ limits_bytes config.now }
    ensures len { array_vec_len out.new ≡ 28 }
    ensures credits { (config.now.credits < 2 ^ 32) × (config.now.second < 2 ^ 32) }
    ensures blocks { (config.now.budget < 2 ^ 32) × (config.now.longest < 2 ^ 32) }
{
    put_four(out, config.credits());
    put_four(out, config.second());
    put_four(out, config.budget());
    put_four(out, config.longest());
}

/// Appends the settings, but for the units; between them the picker's number, and how many drives there are.
fn put_settings(out: &mut ArrayVec<u8, ROOM>, config: &Config, drives: u8, picker: u8)
    requires { array_vec_len out.old ≡ 12 }
    ensures items { out.new.items ≡ out.old.items ++ settings_bytes picker drives config.now }
    ensures len { array_vec_len out.new ≡ 40 }
    ensures range { HasLimitRange config.now }
{
    put_limits(out, config);
    put_two(out, config.timeout());
    put_one(out, picker);
    put_one(out, drives);
    put_eight(out, config.id());
}

/// Appends how much there is of each part, and what was begun.
fn put_counts(out: &mut ArrayVec<u8, ROOM>, counts: Counts, begun: Option<Name>)
    requires { array_vec_len out.old ≡ 40 }
    ensures items { out.new.items ≡ out.old.items ++ counts_bytes counts begun }
    ensures len { array_vec_len out.new ≡ 48 }
    ensures range { IfSome begun (λ name. name.reference < 2 ^ 32) }
{
    put_one(out, counts.waiting);
    put_one(out, counts.first);
    put_one(out, counts.second);
    put_begun(out, begun);
}

/// Appends the head.
fn put_head(
    out: &mut ArrayVec<u8, ROOM>,
    config: &Config,
    counts: Counts,
    begun: Option<Name>,
    picker: u8,
)
    requires { out.old.items ≡ [] }
    ensures items { out.new.items ≡ head_with picker config.now counts begun }
    ensures len { array_vec_len out.new ≡ 48 }
    ensures limits { HasLimitRange config.now }
    ensures begun { IfSome begun (λ name. name.reference < 2 ^ 32) }
{
    put_frame(out, counts);
    put_settings(out, config, counts.drives, picker);
    put_counts(out, counts, begun);
}

/// Appends drives.
fn put_drives(out: &mut ArrayVec<u8, ROOM>, drives: &[Drive])
    requires { array_vec_len out.old + 34 * length drives.now ≤ 3664 }
    ensures items { out.new.items ≡ out.old.items ++ flat_map drive_bytes drives.now }
    ensures len { array_vec_len out.new ≡ array_vec_len out.old + 34 * length drives.now }
    ensures range { All HasDriveRange drives.now }
{
    for place in 0..drives.len() {
        put_drive(out, &drives[place]);
    }
}

/// Appends the waiting commands.
fn put_all_waiting<K: Picker>(out: &mut ArrayVec<u8, ROOM>, controller: &Controller<K>)
    requires { array_vec_len out.old + 41 * length controller.now.waiting ≤ 3664 }
    ensures items { out.new.items ≡ out.old.items ++ flat_map waiting_bytes controller.now.waiting }
    ensures len { array_vec_len out.new ≡ array_vec_len out.old + 41 * length controller.now.waiting }
    ensures range { All HasWaitingRange controller.now.waiting }
{
    for place in 0..controller.len() {
        put_waiting(out, &controller.record(place));
    }
}

/// The record at a place.
fn record_at(records: &[Record], place: usize) -> Record
    requires { place < length records.now }
    ensures { result ≡ slice_index_or records.now place result }
{
    records[place]
}

/// Appends waiting commands.
fn put_records(out: &mut ArrayVec<u8, ROOM>, records: &[Record])
    requires { array_vec_len out.old + 41 * length records.now ≤ 3664 }
    ensures items { out.new.items ≡ out.old.items ++ flat_map waiting_bytes records.now }
    ensures len { array_vec_len out.new ≡ array_vec_len out.old + 41 * length records.now }
{
    for place in 0..records.len() {
        put_waiting(out, &record_at(records, place));
    }
}

/// The end at a place.
fn end_at(ends: &[End], place: usize) -> End
    requires { place < length ends.now }
    ensures { result ≡ slice_index_or ends.now place result }
{
    ends[place]
}

/// Appends ends.
fn put_ends(out: &mut ArrayVec<u8, ROOM>, ends: &[End])
    requires { array_vec_len out.old + 48 * length ends.now ≤ 3664 }
    ensures items { out.new.items ≡ out.old.items ++ flat_map end_cell ends.now }
    ensures len { array_vec_len out.new ≡ array_vec_len out.old + 48 * length ends.now }
    ensures range { All HasEndRange ends.now }
{
    for place in 0..ends.len() {
        put_end(out, end_at(ends, place));
    }
}

/// How many there are of each part of a controller.
fn counts_of<K: Picker>(controller: &Controller<K>) -> Counts
    requires { IsSound controller.now }
    ensures { result ≡ counts_of controller.now }
{
    Counts {
        drives: controller.drives().len() as u8,
        waiting: controller.len() as u8,
        first: controller.ends(Connection::First).len() as u8,
        second: controller.ends(Connection::Second).len() as u8,
    }
}

/// Writes the bytes that a controller of these parts is saved as into a list that has none.
#[inline(never)]
pub(crate) fn save_parts(
    out: &mut ArrayVec<u8, ROOM>,
    config: &Config,
    drives: &[Drive],
    waiting: &[Record],
    first: &[End],
    second: &[End],
    begun: Option<Name>,
    picker: u8,
)
    requires none { out.old.items ≡ [] }
    requires drives { length drives.now ≤ 16 }
    requires parts { length waiting.now + length first.now + length second.now ≤ 64 }
    ensures { out.new.items
        ≡ saved_bytes picker (made_of config.now waiting.now first.now second.now drives.now begun (tt {0})) }
{
    let counts = Counts {
        drives: drives.len() as u8,
        waiting: waiting.len() as u8,
        first: first.len() as u8,
        second: second.len() as u8,
    };
    put_head(out, config, counts, begun, picker);
    put_drives(out, drives);
    put_records(out, waiting);
    put_ends(out, first);
    put_ends(out, second);
}

/// All that callers see of a controller, as bytes, at most `ROOM`. The picker is told by a number, which is the
/// caller's. What is the same to callers has the same bytes, and `restore` makes the same of them again.
pub fn save<K: Picker>(controller: &Controller<K>, picker: u8) -> ArrayVec<u8, ROOM>
    ensures bytes { result.items ≡ saved_bytes picker controller.now }
    ensures back { restored picker controller.now.picker result.items ≡ Ok controller.now }
    ensures sound { IsSound controller.now }
{
    let drives = controller.drives();
    let mut out = ArrayVec::new();
    put_head(
        &mut out,
        controller.config(),
        counts_of(controller),
        controller.begun(),
        picker,
    );
    put_drives(&mut out, drives);
    put_all_waiting(&mut out, controller);
    put_ends(&mut out, controller.ends(Connection::First));
    put_ends(&mut out, controller.ends(Connection::Second));
    out
}
