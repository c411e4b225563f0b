// What a queue serves next, and its steps.
//
// `begin` marks the command that it names, and that choice is kept until a step is served, or the command leaves: a
// picker that is asked twice may answer otherwise. So `finish` fails without a `begin` before it, and `step` serves
// what was begun. A finish names the command, and not the block: a late one is taken for that of a new command with
// this number. Who may finish late, as a disk on a thread, finishes by a serial, as a port's.

ghost use Rattle.std.specs.Prelude.{◌≡◌, ◌<◌, [], cond, false, length, nat_lt, IfNone, IfSome, None, Some};
ghost use Rattle.mscp_queue.specs.Common.{IsOfKind, IsOfUnit, place_served, units_of, Begins, BeginsAt, Serves, ServesAt, drive_at, record_at, IsNext, end_in, upcoming_begun, upcoming_of};

use crate::backlog::Backlog;
use crate::picker::Picker;
use crate::plan::Plan;
use crate::queue::Queue;
use crate::report::Report;
use crate::start::picked_place;
use crate::upcoming::Upcoming;
use mscp_drive::Block;

/// The place of the command in service after a step of the one at the place, which ends with it or not.
fn place_served(place: usize, ends: bool) -> Option<usize>
    ensures { result ≡ place_served ends place }
{
    if ends { None } else { Some(place) }
}

/// Whether commands move up once the one at the place had its last step, so that it left: those behind it.
fn moves_up(backlog: &Backlog, place: usize, ends: bool) -> bool
    ensures { result ≡ cond ends (nat_lt place (length backlog.now.waiting)) false }
{
    ends && place < backlog.len()
}

impl<K: Picker> Queue<K> {
    /// The place of the command that is served next, if one waits: that in service, or what was begun, or one that the
    /// picker picks. If the picker takes the first, that is the oldest.
    #[inline(always)]
    fn next_place(&mut self) -> Option<usize>
        ensures none { IfNone result (self.old.waiting ≡ []) }
        ensures unbegun { IfNone result (self.old.begun ≡ None) }
        ensures some { IfSome result (λ place.
            IsNext (K.picks self.old.picker) self.old.budget self.old.drives self.old.waiting self.old.begun place) }
        ensures same { self.new ≡ self.old }
    {
        if let Some(place) = self.serving {
            return Some(place);
        }
        if let Some(place) = self.begun {
            return Some(place);
        }
        let count = self.backlog.len();
        if count == 0 {
            return None;
        }
        if self.picker.takes_first(count) {
            return Some(0);
        }
        Some(picked_place(
            &self.backlog,
            self.drives.as_slice(),
            self.longest,
            &self.picker,
            &mut self.favorites,
            &mut self.view,
        ))
    }

    /// What is told of the step of the record at the place.
    fn upcoming_at(&self, place: usize) -> Upcoming
        requires { place < length self.now.waiting }
        ensures { result
            ≡ upcoming_of (drive_at self.now.drives self.now.waiting place) (record_at self.now.waiting place) }
    {
        let record = self.backlog.record(place);
        let drive = usize::from(self.backlog.target(place).drive);
        Upcoming::of(&self.drives[drive], record)
    }

    /// Begins the record at the place.
    fn begin_at(&mut self, place: usize) -> Upcoming
        requires { IsNext (K.picks self.old.picker) self.old.budget self.old.drives self.old.waiting
            self.old.begun place }
        ensures begins { BeginsAt (K.picks self.old.picker) self.old result self.new place }
        ensures again { upcoming_begun self.new.drives self.new.waiting self.new.begun ≡ Some result }
    {
        let upcoming = self.upcoming_at(place);
        self.begun = Some(place);
        upcoming
    }

    /// What the next step serves, if a command waits. Where nothing is in service and nothing was begun the picker
    /// picks it, and its choice is kept: until a step, a reset, or an abort of that command, this answers the same.
    #[inline(always)]
    pub fn begin(&mut self) -> Option<Upcoming>
        ensures begins { Begins (K.picks self.old.picker) self.old result self.new }
        ensures again { upcoming_begun self.new.drives self.new.waiting self.new.begun ≡ result }
    {
        let place = self.next_place()?;
        Some(self.begin_at(place))
    }

    /// What the last begin told, if what it began is begun still: neither served nor aborted since, nor the queue
    /// reset.
    pub fn upcoming(&self) -> Option<Upcoming>
        ensures value { result ≡ upcoming_begun self.now.drives self.now.waiting self.now.begun }
        ensures unit { IfSome result (λ u. IsOfUnit (units_of self.now.drives) u) }
    {
        let place = self.begun?;
        Some(self.upcoming_at(place))
    }

    /// Serves a block, with this outcome, to the record at the place: what the plan says is written, and reported.
    #[inline(always)]
    fn serve_at(&mut self, place: usize, block: &Block) -> Report
        requires { IsNext (K.picks self.old.picker) self.old.budget self.old.drives self.old.waiting
            self.old.begun place }
        ensures served { ServesAt (K.picks self.old.picker) block.now self.old result self.new place }
        ensures shaped { IfSome (end_in result) IsOfKind }
        ensures units { units_of self.new.drives ≡ units_of self.old.drives }
    {
        let record = *self.backlog.record(place);
        let at = usize::from(self.backlog.target(place).drive);
        let drives = self.drives.len();
        let plan = Plan::of(&self.drives[at], &record, block);
        let ends = plan.ended.is_some();
        self.drives[at].follow(&record.command().order, &plan);
        self.backlog.serve(place, ends);
        let moves = moves_up(&self.backlog, place, ends);
        self.favorites.serve(place, at, drives, moves);
        self.begun = None;
        self.serving = place_served(place, ends);
        plan.report(&record)
    }

    /// Serves one block, with this outcome, if a command waits: to what was begun, or else to the command in service,
    /// or to one that the picker picks of those that may start. The end that it brings has the body of its endcode.
    #[inline(always)]
    pub fn serve(&mut self, block: Block) -> Report
        ensures served { Serves (K.picks self.old.picker) block self.old result self.new }
        ensures shaped { IfSome (end_in result) IsOfKind }
        ensures units { units_of self.new.drives ≡ units_of self.old.drives }
    {
        match self.next_place() {
            Some(place) => self.serve_at(place, &block),
            None => Report::Idle,
        }
    }
}
