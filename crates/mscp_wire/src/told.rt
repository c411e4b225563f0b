// What a host was told of a unit.

ghost use Rattle.std.specs.Prelude.{◌≡◌, if◌then◌else◌};
ghost use Rattle.mscp_wire.specs.Wire as wire;

use crate::answer::Answer;
use crate::identity::{Identity, agrees};
use crate::noted::Noted;
use mscp_packet::endcodes;

/// What a host was told of whether a unit is online.
#[derive(Clone, Copy)]
pub enum State {
    /// Nothing that would forbid it.
    Open,
    /// It isn't online.
    Away,
    /// The other host brings it online, too, so nothing is known.
    Shared,
}

/// What a host was told of a unit.
#[derive(Clone, Copy)]
pub struct Told {
    /// What an end said of it, if it is known to be online, or may be.
    pub identity: Option<Identity>,
    /// Whether it was online then, and still is.
    pub sure: bool,
    pub state: State,
    pub noted: Noted,
}

/// What was told before an end came.
#[derive(Clone, Copy)]
pub struct Seen {
    /// Of the unit that it names.
    pub unit: Told,
    /// The identifier of the controller, if that was told.
    pub controller: Option<u64>,
}

/// The later of two numbers, if it is there.
pub(crate) fn later_of(new: Option<u64>, known: Option<u64>) -> Option<u64>
    ensures { result ≡ wire.later_of new known }
{
    match new {
        Some(new) => Some(new),
        None => known,
    }
}

/// The same of two timeouts.
pub(crate) fn later_time(new: Option<u16>, known: Option<u16>) -> Option<u16>
    ensures { result ≡ wire.later_of new known }
{
    match new {
        Some(new) => Some(new),
        None => known,
    }
}

impl Seen {
    /// Nothing.
    pub fn nothing() -> Seen
        ensures { result ≡ wire.seen_nothing }
    {
        Seen {
            unit: Told::nothing(),
            controller: None,
        }
    }

    /// Whether an end tells the identifier of the controller that was told.
    pub(crate) fn is_same_controller(&self, answer: &Answer) -> bool
        ensures { result ≡ wire.fits self.now.controller answer.now.controller }
    {
        match (self.controller, answer.controller) {
            (Some(known), Some(told)) => known == told,
            _ => true,
        }
    }
}

impl State {
    /// The state once an end told another.
    fn turned(self, new: State) -> State
        ensures { result ≡ wire.turned self new }
    {
        match self {
            State::Shared => State::Shared,
            _ => new,
        }
    }

    /// Whether it isn't known to be shared to the other host.
    pub fn is_single(self) -> bool
        ensures { result ≡ wire.is_single self }
    {
        !matches!(self, State::Shared)
    }

    /// Whether an end suits it: of a unit that isn't online it doesn't say that it is.
    pub fn suits(self, answer: &Answer) -> bool
        ensures { result ≡ wire.suits_state self answer.now }
    {
        match self {
            State::Away => !answer.says_online(),
            _ => true,
        }
    }
}

impl Told {
    /// Nothing yet.
    pub fn nothing() -> Told
        ensures { result ≡ wire.told_nothing }
    {
        Told {
            identity: None,
            sure: false,
            state: State::Open,
            noted: Noted::nothing(),
        }
    }

    /// That it isn't online, as the controller was initialised.
    pub fn reset() -> Told
        ensures { result ≡ wire.told_reset }
    {
        Told {
            identity: None,
            sure: false,
            state: State::Away,
            noted: Noted::nothing(),
        }
    }

    /// Whether it is to an end what is known of it.
    pub fn is_same_unit(&self, answer: &Answer) -> bool
        ensures { result ≡ wire.is_same_unit self.now answer.now }
    {
        match self.identity {
            Some(known) => {
                !answer.tells_unit() || answer.is_unsure() || agrees(answer.identity, &known)
            }
            None => true,
        }
    }

    /// Whether an end tells something of it, and nothing was known for sure.
    fn learns(&self, answer: &Answer) -> bool
        ensures { result ≡ wire.learns self.now answer.now }
    {
        answer.tells_unit() && !self.sure && self.state.is_single()
    }

    /// What is known of it once an end of its own came.
    fn identity_told(&self, answer: &Answer) -> Option<Identity>
        ensures { result ≡ (wire.after_own self.now answer.now).identity }
    {
        if answer.leaves() {
            None
        } else if answer.brings() || self.learns(answer) {
            answer.identity
        } else {
            self.identity
        }
    }

    /// Whether that is sure.
    fn sure_told(&self, answer: &Answer) -> bool
        ensures { result ≡ (wire.after_own self.now answer.now).sure }
    {
        !answer.leaves()
            && (answer.brings()
                || self.sure
                || (self.learns(answer) && answer.code == endcodes::GET_UNIT_STATUS))
    }

    /// Whether it is online then.
    fn state_told(&self, answer: &Answer) -> State
        ensures { result ≡ (wire.after_own self.now answer.now).state }
    {
        if answer.says_away() {
            self.state.turned(State::Away)
        } else if answer.brings() {
            self.state.turned(State::Open)
        } else {
            self.state
        }
    }

    /// The same once an end of its own came, which names the unit.
    pub fn after_own(&self, answer: &Answer) -> Told
        ensures { result ≡ wire.after_own self.now answer.now }
    {
        Told {
            identity: self.identity_told(answer),
            sure: self.sure_told(answer),
            state: self.state_told(answer),
            noted: self.noted.own(answer),
        }
    }

    /// And once one of the other host did.
    pub fn after_other(&self, answer: &Answer) -> Told
        ensures { result ≡ wire.after_other self.now answer.now }
    {
        let is_new = answer.leaves() || (answer.brings() && !answer.was_online());
        let identity = if is_new { None } else { self.identity };
        Told {
            identity,
            sure: !is_new && self.sure,
            state: self.state,
            noted: self.noted.other(answer),
        }
    }

    /// And once one of its own did, which is settled or not.
    pub fn after_end(&self, answer: &Answer, settled: bool) -> Told
        ensures { result
            ≡ (if settled then wire.after_own self.now answer.now else wire.after_other self.now answer.now) }
    {
        if settled {
            self.after_own(answer)
        } else {
            self.after_other(answer)
        }
    }
}
