//! What the program does: scripts are run and reported, packets shown. What scripts mean is passed on from
//! `mscp_reader`, the line of a packet from `mscp_text`.
#![tactic(auto)]

mod choosing;
mod ending;
mod fault;
mod printing;
mod reading;
mod reported;
mod reporting;
mod running;
mod simulation;
mod stream;
mod totals;

pub use crate::choosing::{Deed, LineFault, choose};
pub use crate::ending::Ending;
pub use crate::fault::{Fault, words_fault};
pub use crate::printing::print_packet;
pub use crate::reading::{ReadAllFault, read_all};
pub use crate::reported::report_script;
pub use crate::reporting::Reporter;
pub use crate::simulation::{SimFault, simulate, simulate_in};
pub use crate::stream::{Failed, Sink, Source, Stream};
pub use mscp_reader::{Cause, ReadFault, ScriptFault, scripts_have_one_meaning};
pub use mscp_text::{Lent, Out, Room, ShowFault, show_packet, show_packet_to};
