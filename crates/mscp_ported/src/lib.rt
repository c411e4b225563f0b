//! What is promised of a port to its host, over registers and memory.
#![tactic(auto)]

mod law;

pub use crate::law::{
    ports_announce_available_units, ports_answer_as_they_may, ports_answer_polls,
    ports_count_on_their_volumes, ports_count_what_they_moved, ports_count_what_was_aborted,
    ports_do_what_is_due, ports_end_by_opcode, ports_end_what_they_took, ports_give_serials_once,
    ports_hand_over_the_rest, ports_have_credit, ports_hear_in_order, ports_hold_what_is_awaited,
    ports_keep_telling, ports_keep_the_promise, ports_lower_figures, ports_move_each_block,
    ports_move_on_their_volumes, ports_move_on_volumes, ports_move_what_they_say,
    ports_open_what_they_accept, ports_pass_ends_on, ports_say_what_was_decided,
    ports_serve_between_polls, ports_serve_who_asks_behind_polls, ports_serve_who_asks_for_blocks,
    ports_speak_in_order, ports_tell_in_order, ports_tell_soon, ports_touch_what_is_named,
    ports_touch_what_was_put,
};
