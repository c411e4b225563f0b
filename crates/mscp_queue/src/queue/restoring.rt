// A queue as it was, and what is to be kept of one so that it can be again.

ghost use Rattle.std.specs.Prelude.{◌≡◌, ◌<◌, ◌≤◌, true, length, IfNone, IfSome, None};
ghost use Rattle.mscp_queue.specs.Common.{position, AreApart, ArePassedInOrder, IsHeld, has_name, names, is_in_service, record_at};

use crate::backlog::Backlog;
use crate::drive::Drive;
use crate::name::Name;
use crate::picker::Picker;
use crate::queue::Queue;
use crate::record::Record;
use arrayvec::ArrayVec;

/// The place of the command in service, if one is.
fn place_served(records: &[Record]) -> Option<usize>
    ensures { result ≡ position is_in_service records.now }
{
    records.iter().position(|record| record.done() > 0)
}

/// The place of what was begun, if something was.
fn place_begun(backlog: &Backlog, begun: Option<Name>) -> Option<usize>
    requires apart { AreApart (names backlog.now.waiting) }
    ensures some { IfSome begun (λ name. result ≡ position (has_name name) backlog.now.waiting) }
    ensures none { IfNone begun (result ≡ None) }
{
    backlog.place_of(begun?)
}

impl<K: Picker> Queue<K> {
    /// These commands wait from now on, on these drives, and the one of this name is begun, if one is named. What was
    /// there before is forgotten, but for the limits and the picker.
    #[inline(never)]
    pub fn restore(&mut self, records: &[Record], drives: ArrayVec<Drive, 16>, begun: Option<Name>)
        requires held { IsHeld self.old.room self.old.budget self.old.longest records.now drives.items begun true }
        requires order { ArePassedInOrder records.now }
        ensures { self.new ≡ record self.old {
          waiting = records.now;
          drives = drives.items;
          begun = begun;
        } }
    {
        self.backlog.restore(records, drives.as_slice());
        self.begun = place_begun(&self.backlog, begun);
        self.serving = place_served(records);
        self.favorites.clear();
        self.drives = drives;
    }

    /// The record of the waiting command at the place, in order of arrival.
    pub fn record(&self, place: usize) -> Record
        requires { place < length self.now.waiting }
        ensures { result ≡ record_at self.now.waiting place }
    {
        self.backlog.told(place)
    }

    /// The drives, in the order of their units. With what else is seen of the queue they are what one can be made of
    /// again.
    pub fn drives(&self) -> &[Drive]
        ensures value { result.now ≡ self.now.drives }
        ensures held { IsHeld self.now.room self.now.budget self.now.longest self.now.waiting self.now.drives
            self.now.begun true }
        ensures order { ArePassedInOrder self.now.waiting }
    {
        self.drives.as_slice()
    }

    /// The name of what was begun, if something was.
    pub fn begun(&self) -> Option<Name>
        ensures { result ≡ self.now.begun }
    {
        Some(self.backlog.record(self.begun?).name())
    }

    /// Who picks.
    pub fn picker(&self) -> &K
        ensures { result.now ≡ self.now.picker }
    {
        &self.picker
    }
}
