// What is true of every legal trace, and of every controller.

ghost use Rattle.mscp_controller.specs.Common.{ControllersKeepThePromise, LegalTracesMakeProgress, PromiseIsKeptInTurn, RunsKeepThePromise};

use mscp_queue::Picker;

/// Every legal trace of a valid configuration, whoever answered it, keeps the promise: untaken ends and waiting
/// commands of each connection never exceed its credits, no start passes a sequential command of its unit, a sequential
/// command passes none of its unit, and no command is passed by more blocks than the budget. Every waiting command's
/// figure falls at each step and never rises between steps, is at least 1 exactly while the command waits, at most the
/// bound, and what the end of a poll of the command reports; and each queued command ends within the bound. At most one
/// command is in service, and if none is, the oldest that waits may start. What the host of one connection sends or
/// takes leaves the other's balance, untaken ends and outstanding reference numbers as they were. Each end has the body
/// of its endcode.
pub fn legal_traces_make_progress()
    ensures { LegalTracesMakeProgress }
{}

/// What a new controller over this picker answers to events is a run of them, with all that `run` promises, whoever
/// hands the events on, and whether or not the answers are kept in a list.
pub fn runs_keep_the_promise<K: Picker>(picker: &K)
    ensures { RunsKeepThePromise (K.picks picker.now) picker.now }
{}

/// The answers of a controller over this picker, one after the other from its making on, whoever calls it, are a legal
/// trace, with all that is promised of one: a finish of a command that is begun is a step of it, and nothing else of
/// begin and finish shows there. What was begun is what each begin tells and what the next step serves, until it is
/// served or aborted; a finish fails exactly if no command of its name is begun. Each start is one that the picker may
/// pick in the view at its begin, or at the step where nothing was begun: where it picks as `Sweep` does, the one of
/// least cost in that view, and of those the oldest. The figures and balances that it tells are always those of that
/// trace, and so are the states and the heads of its units, and those that keep a command back: while nothing is in
/// service a waiting command may start exactly if nobody keeps it back. After a reset it is as new, and what follows is
/// a trace of its own. The messages of the law may have any length: one of over 64 bytes, for which an `Event` has no
/// room, is refused and changes nothing.
pub fn controllers_keep_the_promise<K: Picker>(picker: &K)
    ensures { ControllersKeepThePromise (K.picks picker.now) picker.now }
{}

/// The same of a controller whose picker is replaced between calls, as often as one likes: its answers keep the
/// promise, whoever picks. Each start is one that the picker which the controller had then may pick in the view at its
/// begin, or at the step where nothing was begun: where that picks as `Sweep` does, the one of least cost, and of those
/// the oldest.
pub fn replaced_pickers_keep_the_promise<K: Picker>(picker: &K)
    ensures { PromiseIsKeptInTurn K.picks picker.now }
{}
