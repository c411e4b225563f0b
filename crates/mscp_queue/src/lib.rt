//! The waiting commands of a disk controller: who may be served next, and what each may still have to wait.
#![tactic(auto)]

mod backlog;
mod buckets;
mod drive;
mod favorites;
pub mod lanes;
mod lowering;
mod masks;
mod name;
mod outcome;
mod picker;
mod plan;
mod queue;
mod ranges;
mod record;
mod report;
mod slots;
mod start;
mod start_key;
mod target;
mod upcoming;
mod view;
mod why;

pub use crate::drive::Drive;
pub use crate::name::Name;
pub use crate::outcome::{end_with, endcode_of};
pub use crate::picker::{Oldest, Picker, Sweep};
pub use crate::queue::{Queue, Waiting};
pub use crate::record::Record;
pub use crate::report::Report;
pub use crate::upcoming::Upcoming;
pub use crate::view::{Choice, View};
pub use crate::why::Holder;
pub use mscp_drive::{Block, Connection, FaultStatus};
