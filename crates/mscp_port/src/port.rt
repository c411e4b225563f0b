// A port: its registers, and what it knows.
//
// It does no input or output, and answers what it wants done. So it needs no callbacks, and a machine may do an action
// at once, later, or on another thread. It has one action at a time, over all units: between two blocks it looks at
// the rings, so a poll or an ABORT waits for one block at most. One action moves a block between its volume and the
// host's memory: so no buffer is kept between two actions, and what is saved of a port is all of it.

ghost use Rattle.std.specs.Prelude.{◌≡◌, ◌≢◌, ◌⊎◌, ◌↔◌, ◌≤◌, ◌<◌, ◌%◌, ◌==◌, ℕ, true, Contains, IfErr, IfOk, IfSome, IsOk, None};
ghost use Rattle.mscp_port.specs.Common.{ChangesByWord, First, balance_of, step_task, rings_named, Dies, IsMadeOf, ReadsIp, TakesStep, WritesIp, WritesSa, sa_of, IsAsNew, in_hand, place_in, vector_of};
ghost use Rattle.mscp_port.specs.declared.stage.Stage.TheVariants as stages;
ghost use Rattle.mscp_port.specs.declared.task.Task.TheVariants as tasks;
ghost use Rattle.mscp_port.specs.declared.buffers.Buffer.{Buffer as Kept};

mod checking;
mod delivering;
mod going;
mod hearing;
mod heeding;
mod restoring;
mod saving;
mod seeing;
mod serving;
mod turning;
mod watching;
mod writing;

use crate::buffers::Buffer;
use crate::decided::Decided;
use crate::hardware::Hardware;
pub use crate::port::restoring::{RestoreFault, restore_fault, saved_settings};
pub use crate::port::saving::ROOM;
pub use crate::port::watching::NoUnit;
use crate::rings::Rings;
use crate::sizes::ClearSize;
use crate::stage::Stage;
use crate::task::Task;
use crate::volumes::{Volume, reset_all};
use arrayvec::ArrayVec;
use mscp_controller::Controller;
use mscp_queue::{Connection, Picker};

/// Why there is no such port.
#[derive(Clone, Copy)]
pub enum PortFault {
    /// A host may have 1 to 63 commands outstanding, and the controller's first connection wants one credit more.
    Credits,
}

/// What a message is that goes out.
#[derive(Clone, Copy)]
pub(crate) enum OutgoingKind {
    /// An attention message.
    Attention,
    /// The end of a command of the disk's.
    End,
    /// The end of a message for the diagnostic and utilities protocol.
    UtilitiesEnd,
}

/// What goes out to the host.
#[derive(Drop)]
pub(crate) struct Outgoing {
    bytes: ArrayVec<u8, 48>,
    kind: OutgoingKind,
}

/// What the host wrote in the first two steps.
#[derive(Clone, Copy, Default)]
pub(crate) struct Words {
    first: u16,
    second: u16,
}

/// A port over a controller.
#[derive(Drop)]
pub struct Port<K> {
    hardware: Hardware,
    controller: Controller<K>,
    // How many commands beside one a host may have outstanding, and how many of them it wasn't told yet.
    more: u8,
    untold: u8,
    stage: Stage,
    words: Words,
    // What the host wrote to SA, until the step is taken.
    written: Option<u16>,
    rings: Option<Rings>,
    // How many slots of each ring were given back, modulo 256.
    responses: u8,
    commands: u8,
    task: Task,
    outgoing: Option<Outgoing>,
    // The host has read IP, and since then no slot of the ring of commands was the host's.
    is_polled: bool,
    // The next command waits for a credit, or for what goes out.
    is_stalled: bool,
    // The next slot of the ring of responses was the host's.
    is_full: bool,
    // A poll was heard, and no step of a command was taken since.
    owes_block: bool,
    // The serial of the step that is begun, or of the last one that was. A reset leaves it.
    serial: u64,
    buffers: ArrayVec<Buffer, 64>,
    // What the controller's ends say that weren't taken, oldest first.
    decided: ArrayVec<Decided, 64>,
    volumes: [Volume; 16],
    // The controller flags and the timeout in seconds that the host has set, and the seconds that are left. Before its
    // first command the host has no limit: the timeout is 0, and those that it has from then on are left.
    flags: u16,
    timeout: u16,
    left: u16,
}

/// The timeout of a host that says none, in seconds.
const HOST_TIMEOUT: u16 = 60;

/// The bits of a host's first word: the step is answered, wrap around, interrupts wanted.
const ANSWERED: u16 = 0x8000;

const WRAP: u16 = 0x4000;

/// The bit of its third word: purge and poll test wanted.
const PROBE: u16 = 0x8000;

impl<K: Picker> Port<K> {
    /// A port over a controller to which nothing came so far by its first connection, which lets a host have so many
    /// commands outstanding. Its units have no volumes.
    ///
    /// # Errors
    ///
    /// `Credits` if these aren't 1 to 63, or the controller's first connection has no credit more.
    pub fn new(
        hardware: Hardware,
        credits: u8,
        controller: Controller<K>,
    ) -> Result<Port<K>, PortFault>
    where
        K: Drop,
        ensures taken { IsOk result ↔ ((1 ≤ credits) × (credits < balance_of First controller)) }
        ensures fault { IfErr result (λ fault. fault ≡ PortFault.Credits) }
        ensures made { IfOk result (λ p. IsMadeOf hardware credits controller p) }
    {
        if credits == 0 || controller.balance(Connection::First) <= u32::from(credits) {
            return Err(PortFault::Credits);
        }
        Ok(Port {
            hardware,
            controller,
            more: credits - 1,
            untold: credits - 1,
            stage: Stage::First,
            words: Words::default(),
            written: None,
            rings: None,
            responses: 0,
            commands: 0,
            task: Task::Free,
            outgoing: None,
            is_polled: false,
            is_stalled: false,
            is_full: false,
            owes_block: false,
            serial: 0,
            buffers: ArrayVec::new(),
            decided: ArrayVec::new(),
            volumes: [Volume::default(); 16],
            flags: 0,
            timeout: 0,
            left: HOST_TIMEOUT,
        })
    }

    /// Forgets all that its host has said, in this stage.
    fn forget_all(&mut self, stage: Stage)
        ensures { IsAsNew stage self.old self.new }
    {
        self.controller.reset();
        self.untold = self.more;
        self.stage = stage;
        self.words = Words::default();
        self.written = None;
        self.rings = None;
        self.responses = 0;
        self.commands = 0;
        self.task = Task::Free;
        self.outgoing = None;
        self.is_polled = false;
        self.is_stalled = false;
        self.is_full = false;
        self.owes_block = false;
        self.buffers.clear();
        self.decided.clear();
        reset_all(&mut self.volumes);
        self.flags = 0;
        self.timeout = 0;
        self.left = HOST_TIMEOUT;
    }

    /// A fatal error: nothing goes on until the host writes IP.
    fn die(&mut self, code: u16)
        ensures { IsAsNew (stages.Dead code) self.old self.new }
    {
        self.forget_all(Stage::Dead(code));
    }

    /// Whether it had a fatal error.
    pub(crate) fn is_dead(&self) -> bool
        ensures dead { (code : ℕ) → self.now.stage ≡ stages.Dead code → result ≡ true }
        ensures only { result ≡ true → (code : ℕ) × (self.now.stage ≡ stages.Dead code) }
    {
        matches!(self.stage, Stage::Dead(_))
    }

    /// The host wrote IP, or its bus was reset: the port is as new, in the first step of its initialisation. The
    /// volumes stay where they are.
    pub fn write_ip(&mut self)
        ensures { WritesIp self.old self.new }
    {
        self.forget_all(Stage::First);
    }

    /// The host read IP, which shows 0: the port is to look at the ring of commands. A slot that is being read is read
    /// again, since the host may have given it to the port after its word was fetched.
    pub fn read_ip(&mut self)
        ensures { ReadsIp self.old self.new }
    {
        match self.stage {
            Stage::Up => {
                self.is_polled = true;
                self.look_again();
            }
            Stage::Probing => self.begin_to_clear(),
            _ => {}
        }
    }

    /// What SA shows.
    pub fn read_sa(&self) -> u16
        ensures { result ≡ sa_of self.now }
    {
        match self.stage {
            Stage::First => self.hardware.first_step(),
            Stage::Wrapped(word) => word,
            Stage::Second => 0x1000 + self.words.first / 0x100,
            Stage::Third | Stage::Clearing => 0x2000 + self.words.first % 0x100,
            Stage::Purging | Stage::Probing | Stage::Up => 0,
            Stage::Last => self.hardware.last_step(),
            Stage::Dead(code) => 0x8000 + code % 0x8000,
        }
    }

    /// The host wrote this word to SA.
    pub fn write_sa(&mut self, word: u16)
        ensures { WritesSa word self.old self.new }
    {
        match self.stage {
            Stage::First if word < ANSWERED => {}
            Stage::First | Stage::Second | Stage::Third => self.written = Some(word),
            Stage::Wrapped(_) => self.stage = Stage::Wrapped(word),
            Stage::Purging if word == 0 => self.stage = Stage::Probing,
            Stage::Purging => self.die(21),
            // The host that says go may read IP at once, and not look at SA again.
            Stage::Last if word % 2 == 1 => self.stage = Stage::Up,
            Stage::Probing | Stage::Clearing | Stage::Last | Stage::Up | Stage::Dead(_) => {}
        }
    }

    /// The step is taken that the host has answered by a word. Nothing else is in hand.
    fn take_step(&mut self, word: u16)
        requires free { self.old.task ≡ tasks.Free }
        requires taken { self.old.written ≡ None }
        ensures steps { TakesStep word self.old self.new }
        ensures frame { ChangesByWord self.old self.new ⊎ Dies self.old self.new }
        ensures settings { self.new.controller.settings ≡ self.old.controller.settings }
        ensures buffers { (b : Kept) → Contains self.new.buffers.items b → Contains self.old.buffers.items b }
        ensures packet { in_hand self.new.task ≡ None }
    {
        match self.stage {
            Stage::First if word / WRAP % 2 == 1 => self.stage = Stage::Wrapped(word),
            Stage::First => {
                self.words.first = word;
                self.enter(Stage::Second);
            }
            Stage::Second => {
                self.words.second = word;
                self.enter(Stage::Third);
            }
            Stage::Third => self.name_area(word),
            _ => {}
        }
    }

    /// The next step of the initialisation begins, and the host hears of it if it wants to.
    fn enter(&mut self, stage: Stage)
        ensures { self.new ≡ record self.old { stage = stage; task = step_task self.old.words.first self.old.task } }
    {
        self.stage = stage;
        if self.words.first / 0x80 % 2 == 1 && self.vector() != 0 {
            self.task = Task::Interrupt;
        }
    }

    /// The vector by which the host is interrupted, and 0 if it isn't.
    pub(crate) fn vector(&self) -> u16
        ensures { result ≡ vector_of self.now }
    {
        self.words.first % 0x80 * 4
    }

    /// The communication area is known, with its third word.
    fn name_area(&mut self, third: u16)
        ensures probe { 0x8000 ≤ third → self.new ≡ record self.old {
          stage = stages.Purging;
          rings = rings_named self.old.words.first self.old.words.second third;
        } }
        ensures clear { third < 0x8000 → rings_named self.old.words.first self.old.words.second third ≢ None
            → self.new ≡ record self.old {
              stage = stages.Clearing;
              rings = rings_named self.old.words.first self.old.words.second third;
              task = tasks.Clear 0;
            } }
        ensures nowhere { third < 0x8000 → rings_named self.old.words.first self.old.words.second third ≡ None
            → IsAsNew (stages.Dead 7) self.old self.new }
        ensures frame { ChangesByWord self.old self.new ⊎ Dies self.old self.new }
        ensures settings { self.new.controller.settings ≡ self.old.controller.settings }
        ensures buffers { (b : Kept) → Contains self.new.buffers.items b → Contains self.old.buffers.items b }
        ensures packet { in_hand self.old.task ≡ None → in_hand self.new.task ≡ None }
    {
        self.rings = Rings::named(self.words.first, self.words.second, third);
        if third >= PROBE {
            self.stage = Stage::Purging;
        } else {
            self.begin_to_clear();
        }
    }

    /// Whether the host wants purge interrupts, so that the area has a word for them.
    pub(crate) fn has_purge_word(&self) -> bool
        ensures { result ≡ (self.now.words.second % 2 == 1) }
    {
        self.words.second % 2 == 1
    }

    /// The communication area is to be cleared.
    fn begin_to_clear(&mut self)
        ensures some { self.old.rings ≢ None
            → self.new ≡ record self.old { stage = stages.Clearing; task = tasks.Clear 0 } }
        ensures none { self.old.rings ≡ None → IsAsNew (stages.Dead 7) self.old self.new }
    {
        match self.rings {
            Some(_) => {
                self.stage = Stage::Clearing;
                self.task = Task::Clear(ClearSize::none());
            }
            None => self.die(7),
        }
    }

    /// The place of a unit in the list of the units, if it is one.
    fn place_of(&self, unit: u16) -> Option<usize>
        ensures value { result ≡ place_in self.now.controller.settings.units unit }
        ensures low { IfSome result (λ place. place < 16) }
    {
        let units = self.controller.config().units().list();
        units.iter().position(|other| other.number() == unit)
    }
}
