// What is true of every port, for its host.

ghost use Rattle.mscp_ported.specs.Answers.{PortsAnswerAsTheyMay, PortsHandOverTheRest};
ghost use Rattle.mscp_ported.specs.Asking.{PortsServeWhoAsksBehindPolls, PortsServeWhoAsksForBlocks};
ghost use Rattle.mscp_ported.specs.Awaited.{PortsEndWhatTheyTook};
ghost use Rattle.mscp_ported.specs.Departures.{PortsFillTheirSlots, PortsSpeakInOrder, PortsTellTheirCredits};
ghost use Rattle.mscp_ported.specs.Ends.{PortsSayWhatWasDecided};
ghost use Rattle.mscp_ported.specs.Fair.{PortsServeBetweenPolls};
ghost use Rattle.mscp_ported.specs.Figures.{PortsLowerFigures};
ghost use Rattle.mscp_ported.specs.Fitting.{PortsEndByOpcode};
ghost use Rattle.mscp_ported.specs.Kept.{PortsKeepWhatWasSaid};
ghost use Rattle.mscp_ported.specs.Loaded.{PortsMoveOnVolumes};
ghost use Rattle.mscp_ported.specs.Making.{PortsKeepThePromise};
ghost use Rattle.mscp_ported.specs.Mounted.{PortsMoveAsMounted};
ghost use Rattle.mscp_ported.specs.Mounts.{PortsCountOnTheirVolumes, PortsMoveOnTheirVolumes};
ghost use Rattle.mscp_ported.specs.Moved.{PortsMoveWhatTheySay};
ghost use Rattle.mscp_ported.specs.Named.{PortsHaveCredit, PortsTouchWhatIsNamed};
ghost use Rattle.mscp_ported.specs.News.{PortsAnnounceAvailableUnits};
ghost use Rattle.mscp_ported.specs.Owed.{PortsDoWhatIsDue};
ghost use Rattle.mscp_ported.specs.Passing.{PortsHoldWhatIsAwaited, PortsPassEndsOn};
ghost use Rattle.mscp_ported.specs.Places.{PortsTouchWhatWasPut};
ghost use Rattle.mscp_ported.specs.Polls.{PortsAnswerPolls};
ghost use Rattle.mscp_ported.specs.Serials.{PortsGiveSerialsOnce, PortsHearOfTheirBlocks};
ghost use Rattle.mscp_ported.specs.Soon.{PortsKeepTelling, PortsTellSoon};
ghost use Rattle.mscp_ported.specs.Told.{PortsHearInOrder, PortsOpenWhatTheyAccept, PortsTellInOrder};
ghost use Rattle.mscp_ported.specs.Transfers.{PortsCountWhatTheyMoved, PortsCountWhatWasAborted, PortsMoveEachBlock};

use mscp_controller::controllers_keep_the_promise;
use mscp_queue::Picker;

/// Whoever calls a port that was made over a controller, and whatever its host writes to registers and into its memory:
/// the port wants no memory touched but a communication area that three words name which the host wrote to SA in this
/// order, with or without others between them, a packet whose descriptor it gave to the port, and a buffer that a
/// command of its own names; each since it wrote IP last. So says the list of the calls alone, with what was answered
/// to them.
pub fn ports_touch_what_is_named<K: Picker>(picker: &K)
    ensures { PortsTouchWhatIsNamed K.picks }
{
    let _ = picker;
}

/// Whoever calls such a port, and tells of a read only after it was wanted: the packet's descriptor stood in a slot of
/// a ring that the host named, and the buffer's command where such a descriptor says. So the host has put all of it
/// into its memory, at the places where a host puts it.
pub fn ports_touch_what_was_put<K: Picker>(picker: &K)
    ensures { PortsTouchWhatWasPut K.picks }
{
    let _ = picker;
}

/// A port was made for a host that may have so many commands outstanding. Whoever calls the port: where the controller
/// has fewer of them that wait, or whose ends weren't taken, no message is refused for want of a credit. A command may
/// still stay in its slot while its number is in use, or, if the port answers it itself, while something else goes out.
pub fn ports_have_credit<K: Picker>(picker: &K)
    ensures { PortsHaveCredit K.picks }
{
    let _ = picker;
}

/// Whoever calls a port that was made over a controller: a block is moved only where a volume is in its unit, and one
/// that is written or erased only where that volume isn't protected, as was told last of it. So say the calls alone.
/// And that volume is the one that its unit was brought online with, and is written on only where its host doesn't
/// protect it: so say the ends that were heeded, with what was kept of their commands. And that was said by a message
/// of the command's number, to the unit that its end names.
pub fn ports_move_on_volumes<K: Picker>(picker: &K)
    ensures volumes { PortsMoveOnVolumes K.picks }
    ensures mounts { PortsMoveAsMounted K.picks }
    ensures kept { PortsKeepWhatWasSaid K.picks }
{
    let _ = picker;
}

/// Whoever calls such a port: each message that began to go out is gone in its turn, once, or still goes out. It is
/// gone once a slot of the ring of responses was given back, whose descriptor its host had made the port's since it
/// wrote IP; or the host wrote IP again, or a fatal error came. The credits of the disk's connection that were told
/// since are all that the host may have but the one that it begins with and those that it wasn't told yet, and one for
/// each end of the disk's. What stands in a packet isn't said here.
pub fn ports_speak_in_order<K: Picker>(picker: &K)
    ensures order { PortsSpeakInOrder K.picks }
    ensures slots { PortsFillTheirSlots K.picks }
    ensures credits { PortsTellTheirCredits K.picks }
{
    let _ = picker;
}

/// Whoever calls such a port and asks for blocks: after a poll was heard, no message is looked for while a command
/// waits, until a step of a command was told. So a host that polls as soon as its last poll ended gets its READ,
/// however few actions a turn has, and a figure that it hears twice has fallen. Only a holder that is at a block asks
/// for messages alone meanwhile.
pub fn ports_serve_between_polls<K: Picker>(picker: &K)
    ensures { PortsServeBetweenPolls K.picks }
{
    let _ = picker;
}

/// Whoever calls a port that was made over a controller, and tells of actions only after they were wanted: what the
/// port wants next of its host's memory is just what is due by what was read and written there since all was forgotten
/// last. So a slot is read where the ring goes on, its packet where its descriptor says; it is given back where it
/// lies, with its flag set; and the interrupt word is written, and the host interrupted, after a slot whose flag was
/// set is given back and the ring was empty or full before, and at the steps of the initialisation where the host asked
/// for it, once each, and never else. Nothing else is written but the zeros that clear the area, and the blocks of
/// transfers.
pub fn ports_do_what_is_due<K: Picker>(picker: &K)
    ensures { PortsDoWhatIsDue K.picks }
{
    let _ = picker;
}

/// Of such a port: the packets whose slots were given back since all was forgotten last say, one by one and in the same
/// order, what began to go out, but for what still goes out: none is left out, told twice or exchanged. Each is whole:
/// the length of its text, its credits, its connection and its text; and all credits that the host may have but the
/// first are told, up to 15 with an end of the disk's. The slots were the port's, and lie in the ring one behind the
/// other.
pub fn ports_tell_in_order<K: Picker>(picker: &K)
    ensures { PortsTellInOrder K.picks }
{
    let _ = picker;
}

/// Of such a port: the messages whose slots were given back since then are, one by one and in the same order, those
/// that were accepted: that the controller took, or that the port answered itself while nothing went out. At most one
/// more is in hand. Their slots were the port's, and lie in the ring one behind the other: so no message is heard
/// before one in front of it, or twice.
pub fn ports_hear_in_order<K: Picker>(picker: &K)
    ensures { PortsHearInOrder K.picks }
{
    let _ = picker;
}

/// Whoever calls a port, and whatever its host writes: the calls that the port has made of its controller since all was
/// forgotten last keep the promise: a send of each message that it doesn't answer itself, a take where an end begins to
/// go out, a begin where a step is taken in hand, and a finish with what came of the step's action. So the figures that
/// it tells fall and never rise, and each command ends within its bound.
pub fn ports_keep_the_promise<K: Picker>(picker: &K)
    ensures { PortsKeepThePromise K.picks picker.now }
{
    controllers_keep_the_promise(picker);
}

/// Whoever calls a port, and tells of actions only after they were wanted: where the controller is told that a block of
/// a command went well, the block was moved. It was wanted, of the command's unit and of that number, to or from its
/// place of the buffer: 512 bytes behind the block before, of the last one the bytes that are left; and it was told
/// done. The buffer is that of a message of the command's number, to its unit. Only where the buffer has no byte for
/// the block nothing is moved: then the wish was a pause.
pub fn ports_move_what_they_say<K: Picker>(picker: &K)
    ensures { PortsMoveWhatTheySay K.picks }
{
    let _ = picker;
}

/// Of such a port: where the controller is told that a block of a transfer went well, and by that the transfer's end
/// comes, the end says Success, and counts all bytes that the command asked for. The message by which the command came
/// is one that was read; and since it came, just the blocks for which it asks were wanted and told done, one behind the
/// other, each at its place of the buffer that the message named: one for each 512 bytes, and of the last one the bytes
/// that are left.
pub fn ports_move_each_block<K: Picker>(picker: &K)
    ensures { PortsMoveEachBlock K.picks }
{
    let _ = picker;
}

/// Of such a port: where the end of a transfer comes as a step was told, and the port keeps where the transfer's data
/// are, the end counts just the blocks that were wanted and told done since its message came, each at its place, from
/// the first one on. So the end of a transfer that failed counts those in front of the block that wasn't moved.
pub fn ports_count_what_they_moved<K: Picker>(picker: &K)
    ensures { PortsCountWhatTheyMoved K.picks }
{
    let _ = picker;
}

/// Of such a port: where a message brings the end of a transfer that waits, since it aborts it, the end counts just the
/// blocks that were moved, if the port keeps where the transfer's data are.
pub fn ports_count_what_was_aborted<K: Picker>(picker: &K)
    ensures { PortsCountWhatWasAborted K.picks }
{
    let _ = picker;
}

/// Whoever calls a port, and whatever its host writes: where a block of a command is wanted, the volume in its unit is
/// the one that was there as the command's message was read, and with which the unit is online: an ONLINE succeeded
/// since the host wrote IP last, and since then no AVAILABLE did, and no volume came or went. This is said of a unit
/// whose volume changed fewer than 2^32 times so far.
pub fn ports_move_on_their_volumes<K: Picker>(picker: &K)
    ensures { PortsMoveOnTheirVolumes K.picks }
{
    let _ = picker;
}

/// Of such a port, whose holder tells of actions only after they were wanted, and whose list of units is one that is
/// taken: it is so still where the controller is told that such a block went well. So none counts that was moved on a
/// volume which isn't there any more.
pub fn ports_count_on_their_volumes<K: Picker>(picker: &K)
    ensures { PortsCountOnTheirVolumes K.picks }
{
    let _ = picker;
}

/// Whoever calls a port, whose controller held no end of its host's as the port was made: the ends that came for the
/// host since all was forgotten last began to go out in the order in which they came, each once, but for those that the
/// controller holds still. Each has the fields that were decided as its command ended: its status, and of an ONLINE, a
/// SET UNIT CHARACTERISTICS, a GET UNIT STATUS and a SET CONTROLLER CHARACTERISTICS all that its table says of unit,
/// volume and controller. Any other end is the controller's, byte by byte, but for its status: so a poll's end has the
/// figure of the moment at which the poll came.
pub fn ports_say_what_was_decided<K: Picker>(picker: &K)
    ensures { PortsSayWhatWasDecided K.picks picker.now }
{
    controllers_keep_the_promise(picker);
}

/// Of such a port, whose holder tells of actions only after they were wanted: what begins to go out as a text is read
/// is an answer to that message, of its number and unit: to one for the utilities that its opcode is unknown; Success
/// to DETERMINE ACCESS PATHS, COMPARE CONTROLLER DATA and FLUSH, if their unit isn't there; and to a transfer past the
/// end of its volume that its block isn't there. It is of the message's connection. To no other message the port gives
/// an answer of its own. So no answer of the port's passes a sequential command but Invalid Command.
pub fn ports_answer_as_they_may<K: Picker>(picker: &K)
    ensures { PortsAnswerAsTheyMay K.picks }
{
    let _ = picker;
}

/// Of such a port, whose holder tells of actions only after they were wanted: a message that the port may answer itself
/// never reaches its controller, and any other does, as of the host's connection, byte by byte, but that a GET UNIT
/// STATUS which asks for the next unit names that one, and in the place of DETERMINE ACCESS PATHS, COMPARE CONTROLLER
/// DATA and FLUSH comes an ACCESS of no bytes: so that these wait in the controller's order. Nothing of the utilities'
/// connection reaches the controller.
pub fn ports_hand_over_the_rest<K: Picker>(picker: &K)
    ensures { PortsHandOverTheRest K.picks }
{
    let _ = picker;
}

/// Of such a port: a poll of the disk's connection that its controller takes brings one end, with the figure of the
/// host's own command of the number that it names, as it is then, and 0 if none of that number waits; and a poll of the
/// utilities' brings none. No command of another connection is ever told of.
pub fn ports_answer_polls<K: Picker>(picker: &K)
    ensures { PortsAnswerPolls K.picks }
{
    let _ = picker;
}

/// Of a port over a controller whose list of units is one that is taken: if an attention message begins to go out by a
/// call, the host has asked for such messages, and the unit of which it tells is available: a volume is in it, and it
/// isn't online. The message is the one of that unit and of that volume, byte by byte.
pub fn ports_announce_available_units<K: Picker>(picker: &K)
    ensures { PortsAnnounceAvailableUnits K.picks }
{
    let _ = picker;
}

/// Whoever calls a port, and tells of actions only after they were wanted: where something goes out, and the ring of
/// responses wasn't found full, it is gone after ten actions that were done, whatever else is called, if each slot of
/// that ring that is read is the port's: its slot was given back, or a reset or a fatal error made the port forget it.
pub fn ports_tell_soon<K: Picker>(picker: &K)
    ensures { PortsTellSoon K.picks }
{
    let _ = picker;
}

/// Of such a port: while something goes out or an end waits, one thing at least is gone for each seventeen actions that
/// are done, whatever else is called, if each slot of the ring of responses that is read is the port's. So an end with
/// `n` things in front of it is gone after more than `17 * (n + 1)` actions.
pub fn ports_keep_telling<K: Picker>(picker: &K)
    ensures { PortsKeepTelling K.picks }
{
    let _ = picker;
}

/// Whoever calls a port, whose controller had nothing of its host's as the port was made, and what it reads being
/// bytes: by each call, if it is no write of IP and no fatal error comes, at most one thing begins to go out, or a
/// message is accepted, or both, if the port answers that message itself. An end of the controller's that begins to go
/// out is that of a message that the controller took since all was forgotten last, and whose end hasn't gone out: there
/// is just one of its number. If it is a transfer's, it counts no more bytes than that message asks for; and it has all
/// bytes of an end of its code.
pub fn ports_end_what_they_took<K: Picker>(picker: &K)
    ensures { PortsEndWhatTheyTook K.picks picker.now }
{
    controllers_keep_the_promise(picker);
}

/// Of such a port, whose holder tells of actions only after they were wanted: where a text is accepted, the header in
/// front of it was read.
pub fn ports_open_what_they_accept<K: Picker>(picker: &K)
    ensures { PortsOpenWhatTheyAccept K.picks }
{
    let _ = picker;
}

/// Of such a port, whose holder tells of actions only after they were wanted: by no call the figure rises that a poll
/// would be told of a command of the host's that waits; and by each step that is told it falls, whichever command the
/// step is of: to 0 where the command ends.
pub fn ports_lower_figures<K: Picker>(picker: &K)
    ensures { PortsLowerFigures K.picks picker.now }
{
    controllers_keep_the_promise(picker);
}

/// Whoever calls a port, whose controller had nothing of its host's as the port was made, and whose units have blocks,
/// what it reads being bytes: an end of the controller's that begins to go out has the code of the message whose end it
/// is, that of its opcode; or if no opcode has that byte, it may have the one of an unknown opcode. It names the
/// message's unit, unless the message asks for the next one. The end of an ABORT or of a poll succeeds, and is about
/// the command that its message names, if that has all its bytes.
pub fn ports_end_by_opcode<K: Picker>(picker: &K)
    ensures { PortsEndByOpcode K.picks picker.now }
{
    controllers_keep_the_promise(picker);
}

/// Whoever calls a port, whose controller had nothing of its host's as the port was made, and what it reads being
/// bytes: of each message that its controller took since all was forgotten last, and whose end hasn't gone out, the
/// command waits, and has a figure of 1 or more, or the controller holds its end; and there is no other command and no
/// other end of the host's.
pub fn ports_hold_what_is_awaited<K: Picker>(picker: &K)
    ensures { PortsHoldWhatIsAwaited K.picks picker.now }
{
    controllers_keep_the_promise(picker);
}

/// Of such a port, whose units have blocks, and whose holder tells of actions only after they were wanted: while no
/// fatal error comes and the host writes no IP, ends pass on to the host in the order in which they came. A poll that
/// the controller takes brings one end, with the figure that its command has then.
pub fn ports_pass_ends_on<K: Picker>(picker: &K)
    ensures { PortsPassEndsOn K.picks picker.now }
{
    controllers_keep_the_promise(picker);
}

/// Whoever calls a port that was made over a controller, and asks for blocks each time that it asks what is wanted:
/// between any two polls about one command, as the controller took them, a step was told, or the command waits no more.
/// It may tell of actions as late as it likes, or never: then no second poll is taken. Whoever asks for messages alone
/// while it is at a block may take two polls before it tells of that block.
pub fn ports_serve_who_asks_for_blocks<K: Picker>(picker: &K)
    ensures { PortsServeWhoAsksForBlocks K.picks }
{
    let _ = picker;
}

/// Of such a port: so it is too if messages alone are asked for, but only where a step was told since each poll that
/// was taken: who is at a block may do so until a poll is taken.
pub fn ports_serve_who_asks_behind_polls<K: Picker>(picker: &K)
    ensures { PortsServeWhoAsksBehindPolls K.picks }
{
    let _ = picker;
}

/// A port has begun a step, and tells it with its serial. Whoever calls it then, while that serial and the calls since
/// are together below 2^64: as long as that serial is the last one, just that step is begun, without an end between, or
/// nothing is. So two blocks that are told with one serial are one block of one command. If the port hears of a block
/// by its serial, that is the block that was told with it, however often its command's number was used again: no ABORT
/// of it, no reset and no other report of it came meanwhile. Or the controller serves nothing by it, as after the
/// restore of a stranger's bytes.
pub fn ports_give_serials_once<K: Picker>(picker: &K)
    ensures serials { PortsGiveSerialsOnce K.picks }
    ensures blocks { PortsHearOfTheirBlocks K.picks }
{
    let _ = picker;
}
