//! The host's end of a disk controller: its account of credits, and its watch on the oldest command.
#![tactic(auto)]

mod asked;
mod envelope;
mod heard;
mod host;
mod law;
mod message;
mod news;
mod outstanding;
mod polling;
mod port_host;
mod port_law;
mod port_restoring;
mod port_saving;
mod restoring;
mod saving;
mod submission;
mod ticking;
mod watch;

pub use crate::asked::Asked;
pub use crate::envelope::Envelope;
pub use crate::heard::Heard;
pub use crate::host::Host;
pub use crate::law::hosts_keep_their_history;
pub use crate::message::HearFault;
pub use crate::news::{HostFault, News, Poll};
pub use crate::port_host::PortHost;
pub use crate::port_law::{
    port_hosts_keep_count, port_hosts_keep_their_history, watches_are_patient,
};
pub use crate::port_saving::PORT_HOST_ROOM;
pub use crate::restoring::RestoreFault;
pub use crate::saving::ROOM;
pub use crate::submission::Submission;
pub use crate::ticking::{Advice, Watch};
