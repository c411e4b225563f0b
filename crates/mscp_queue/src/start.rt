// Which command starts, where nothing is in service.
//
// What a picker may be shown is the same whoever picks: those that no fence and no budget keeps back. To show it takes
// a view of up to 64 choices, which most picks don't need. If the budget keeps nobody back, and the picker may take
// the first of the cheapest, then the best starts of the drives are compared in its place. The contract is the same:
// the place is one that the picker may pick from the view that would have been shown.

ghost use Rattle.std.specs.Prelude.{◌≡◌, ◌++◌, ◌||◌, ◌+◌, ◌∷◌, ◌<◌, ◌≤◌, ◌-◌, ◌^◌, [], true, cond, length, take, All};
ghost use Rattle.mscp_queue.specs.Common.{IsUnitList, IsTargeted, bare, ArePassedInOrder, AreFavored, CanBeShown, IsBest, IsClearOn, IsFirstOf, IsShut, MayAllPass, order_cost, commands, cost_at, drive_in, units_of, is_move, is_sequential, drive_at, record_at, IsPick, choice_of, is_open_at, open_places, view_of};

use crate::backlog::Backlog;
use crate::drive::Drive;
use crate::favorites::Favorites;
use crate::picker::Picker;
use crate::record::Record;
use crate::start_key::Start;
use crate::view::{Choice, View};
use arrayvec::ArrayVec;

/// What the start of a record costs, whose unit's drive is this, and whose first block is on this cylinder.
#[tactic(auto, using(crate::proofs::Targets::cylinder_within, crate::proofs::Favored::cost_is))]
fn cost_of(record: &Record, drive: &Drive, cylinder: u32) -> u64
    requires waitable { (is_sequential «record».now.command.order || is_move «record».now.command.order) ≡ true }
    requires targeted { IsTargeted drive.now cylinder «record».now }
    ensures value { result ≡ order_cost drive.now.unit drive.now.head «record».now.command.order }
    ensures small { result < 2 ^ 33 }
{
    drive.cost(record.is_sequential(), cylinder)
}

/// What a picker sees of a record, whose unit's drive is this, and whose first block is on this cylinder.
fn choice_of(record: &Record, drive: &Drive, cylinder: u32) -> Choice
    requires waitable { (is_sequential «record».now.command.order || is_move «record».now.command.order) ≡ true }
    requires targeted { IsTargeted drive.now cylinder «record».now }
    ensures { result ≡ choice_of drive.now «record».now }
{
    let command = record.command();
    Choice {
        reference: command.reference,
        unit: command.unit,
        connection: record.connection(),
        class: command.order.class(),
        cost: cost_of(record, drive, cylinder),
    }
}

/// The record at a place, the drive of its unit, and the cylinder of its first block.
fn targeted_at<'a>(
    backlog: &'a Backlog,
    drives: &'a [Drive],
    place: usize,
) -> (&'a Record, &'a Drive, u32)
    requires waiting { CanBeShown drives.now backlog.now.waiting backlog.now.targets }
    requires place { place < length backlog.now.waiting }
    ensures record { result.0.now ≡ bare (record_at backlog.now.waiting place) }
    ensures drive { result.1.now ≡ drive_at drives.now backlog.now.waiting place }
    ensures targeted { IsTargeted result.1.now result.2 result.0.now }
{
    let target = backlog.target(place);
    (
        backlog.record(place),
        &drives[usize::from(target.drive)],
        target.cylinder,
    )
}

/// Whether the record at a place may start, where the oldest has so much left of the budget.
fn may_start(backlog: &Backlog, drives: &[Drive], place: usize, unspent: u32) -> bool
    requires waiting { CanBeShown drives.now backlog.now.waiting backlog.now.targets }
    requires place { place < length backlog.now.waiting }
    requires order { ArePassedInOrder backlog.now.waiting }
    requires unspent { unspent + (record_at backlog.now.waiting 0).passed ≡ backlog.now.budget }
    ensures { result ≡ is_open_at backlog.now.budget backlog.now.waiting place }
{
    backlog.is_free(place) && (place == 0 || backlog.record(place).weight() <= unspent)
}

/// Whether nobody behind a place may start: the oldest has nothing left of the budget, or all of them are of the unit
/// of a sequential command, which stands there.
fn is_shut(backlog: &Backlog, place: usize, unspent: u32) -> bool
    requires place { place < length backlog.now.waiting }
    ensures { result ≡ true → IsShut backlog.now.waiting backlog.now.targets place unspent }
{
    unspent == 0 || (backlog.record(place).is_sequential() && backlog.are_of_its_unit(place))
}

/// Shows the record at a place, if it may start, and keeps the place.
fn show_if(
    may_start: bool,
    view: &mut View,
    places: &mut ArrayVec<u8, 64>,
    backlog: &Backlog,
    drives: &[Drive],
    place: usize,
)
    requires few { length view.old < 64 }
    requires room { length places.old.items < 64 }
    requires low { place < 64 }
    requires waiting { CanBeShown drives.now backlog.now.waiting backlog.now.targets }
    requires place { place < length backlog.now.waiting }
    ensures shown { view.new ≡ view.old ++ cond may_start
        (choice_of (drive_at drives.now backlog.now.waiting place) (record_at backlog.now.waiting place) ∷ []) [] }
    ensures kept { places.new.items ≡ places.old.items ++ cond may_start (place ∷ []) [] }
{
    if may_start {
        let (record, drive, cylinder) = targeted_at(backlog, drives, place);
        view.push(choice_of(record, drive, cylinder));
        places.push(place as u8);
    }
}

/// Shows the records that may start, and gives their places. It looks at each record once, and where nobody behind may
/// start it ends.
fn show_each(view: &mut View, backlog: &Backlog, drives: &[Drive]) -> ArrayVec<u8, 64>
    requires view { view.old ≡ [] }
    requires some { 0 < length backlog.now.waiting }
    requires idle { All (λ r. r.done ≡ 0) backlog.now.waiting }
    requires waiting { CanBeShown drives.now backlog.now.waiting backlog.now.targets }
    requires order { ArePassedInOrder backlog.now.waiting }
    requires passed { (record_at backlog.now.waiting 0).passed ≤ backlog.now.budget }
    ensures view { view.new ≡ view_of backlog.now.budget drives.now backlog.now.waiting }
    ensures places { result.items ≡ open_places backlog.now.budget backlog.now.waiting }
{
    let mut places = ArrayVec::new();
    let unspent = backlog.unspent();
    for place in 0..backlog.len() {
        let starts = may_start(backlog, drives, place, unspent);
        show_if(starts, view, &mut places, backlog, drives, place);
        if is_shut(backlog, place, unspent) {
            return places;
        }
    }
    places
}

/// Shows the oldest, where it has nothing left of the budget: then nobody else may start.
fn show_oldest(view: &mut View, backlog: &Backlog, drives: &[Drive])
    requires view { view.old ≡ [] }
    requires some { 0 < length backlog.now.waiting }
    requires waiting { CanBeShown drives.now backlog.now.waiting backlog.now.targets }
    requires order { ArePassedInOrder backlog.now.waiting }
    requires spent { (record_at backlog.now.waiting 0).passed ≡ backlog.now.budget }
    ensures view { view.new ≡ view_of backlog.now.budget drives.now backlog.now.waiting }
    ensures places { open_places backlog.now.budget backlog.now.waiting ≡ 0 ∷ [] }
{
    let (record, drive, cylinder) = targeted_at(backlog, drives, 0);
    view.push(choice_of(record, drive, cylinder));
}

/// Whether each that waits may still be passed by each: by the longest that may come, or else by the longest of them.
/// Who came earlier was passed by at least as many blocks, so that the oldest tells it for all.
fn may_all_pass(backlog: &Backlog, longest: u32) -> bool
    requires some { 0 < length backlog.now.waiting }
    requires idle { All (λ r. r.done ≡ 0) backlog.now.waiting }
    requires order { ArePassedInOrder backlog.now.waiting }
    requires passed { (record_at backlog.now.waiting 0).passed ≤ backlog.now.budget }
    requires short { All (λ r. r.weight ≤ longest) backlog.now.waiting }
    ensures { result ≡ true → MayAllPass backlog.now.budget backlog.now.waiting }
{
    let unspent = backlog.unspent();
    longest <= unspent || backlog.are_light(unspent)
}

/// Finds the best start on the drive at a place, which is known from then on. It isn't built into its caller, whose
/// loop over the drives then keeps all that it wants in registers.
#[inline(never)]
fn seek_favorite(backlog: &Backlog, drives: &[Drive], at: usize, favorites: &mut Favorites) -> Start
    requires waiting { CanBeShown drives.now backlog.now.waiting backlog.now.targets }
    requires units { IsUnitList (units_of drives.now) }
    requires drive { at < length drives.now }
    requires favored { AreFavored drives.now (commands backlog.now.waiting) favorites.old }
    ensures best { IsBest (IsClearOn (commands backlog.now.waiting) (drive_in drives.now at).unit.number)
        (cost_at (drive_in drives.now at) (commands backlog.now.waiting)) result }
    ensures favored { AreFavored drives.now (commands backlog.now.waiting) favorites.new }
{
    let start = backlog.favorite(&drives[at], at);
    favorites.learn(at, start);
    start
}

/// The best start on the drive at a place. If it isn't known it is found now, and known from then on.
#[inline(always)]
fn favorite_on(backlog: &Backlog, drives: &[Drive], at: usize, favorites: &mut Favorites) -> Start
    requires waiting { CanBeShown drives.now backlog.now.waiting backlog.now.targets }
    requires units { IsUnitList (units_of drives.now) }
    requires drive { at < length drives.now }
    requires favored { AreFavored drives.now (commands backlog.now.waiting) favorites.old }
    ensures best { IsBest (IsClearOn (commands backlog.now.waiting) (drive_in drives.now at).unit.number)
        (cost_at (drive_in drives.now at) (commands backlog.now.waiting)) result }
    ensures favored { AreFavored drives.now (commands backlog.now.waiting) favorites.new }
{
    let kept = favorites.start(at);
    if kept.is_known() {
        return kept;
    }
    seek_favorite(backlog, drives, at, favorites)
}

/// The command that came last may have the best start on its drive. If that drive's isn't known it is sought when it is
/// wanted.
pub(crate) fn favor_last(backlog: &Backlog, drives: &[Drive], favorites: &mut Favorites)
    requires some { 0 < length backlog.now.waiting }
    requires waiting { CanBeShown drives.now backlog.now.waiting backlog.now.targets }
    requires units { IsUnitList (units_of drives.now) }
    requires favored { AreFavored drives.now
        (take (length backlog.now.waiting - 1) (commands backlog.now.waiting)) favorites.old }
    ensures { AreFavored drives.now (commands backlog.now.waiting) favorites.new }
{
    let place = backlog.len() - 1;
    let at = usize::from(backlog.target(place).drive);
    if favorites.knows(at) && backlog.is_free(place) {
        let (record, drive, cylinder) = targeted_at(backlog, drives, place);
        favorites.come(at, Start::of(cost_of(record, drive, cylinder), place));
    }
}

/// The place of the first of the cheapest starts on all drives, of those that nobody in front keeps back.
fn best_place(backlog: &Backlog, drives: &[Drive], favorites: &mut Favorites) -> usize
    requires some { 0 < length backlog.now.waiting }
    requires waiting { CanBeShown drives.now backlog.now.waiting backlog.now.targets }
    requires units { IsUnitList (units_of drives.now) }
    requires favored { AreFavored drives.now (commands backlog.now.waiting) favorites.old }
    ensures first { IsFirstOf drives.now (commands backlog.now.waiting) result }
    ensures favored { AreFavored drives.now (commands backlog.now.waiting) favorites.new }
{
    let mut first = Start::none();
    for at in 0..drives.len() {
        first = favorite_on(backlog, drives, at, favorites).or_earlier(first);
    }
    usize::from(first.place())
}

/// The place of the record that the picker picks, of those that may start. If the budget keeps nobody back, and the
/// picker may take the first of the cheapest, that is found of the best starts. Else a view is made that shows all that
/// may start.
#[inline(never)]
pub(crate) fn picked_place<K: Picker>(
    backlog: &Backlog,
    drives: &[Drive],
    longest: u32,
    picker: &K,
    favorites: &mut Favorites,
    view: &mut View,
) -> usize
    requires some { 0 < length backlog.now.waiting }
    requires idle { All (λ r. r.done ≡ 0) backlog.now.waiting }
    requires waiting { CanBeShown drives.now backlog.now.waiting backlog.now.targets }
    requires order { ArePassedInOrder backlog.now.waiting }
    requires passed { (record_at backlog.now.waiting 0).passed ≤ backlog.now.budget }
    requires short { All (λ r. r.weight ≤ longest) backlog.now.waiting }
    requires units { IsUnitList (units_of drives.now) }
    requires favored { AreFavored drives.now (commands backlog.now.waiting) favorites.old }
    ensures inside { result < length backlog.now.waiting }
    ensures picked { IsPick (K.picks picker.now) backlog.now.budget drives.now backlog.now.waiting result }
    ensures favored { AreFavored drives.now (commands backlog.now.waiting) favorites.new }
{
    if picker.takes_cheapest() && may_all_pass(backlog, longest) {
        return best_place(backlog, drives, favorites);
    }
    view.clear();
    if backlog.unspent() == 0 {
        show_oldest(view, backlog, drives);
        return picker.pick(view);
    }
    let places = show_each(view, backlog, drives);
    usize::from(places[picker.pick(view)])
}
