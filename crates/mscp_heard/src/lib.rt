//! What a host hears through a port.
#![tactic(auto)]

mod law;

pub use crate::law::{
    hosts_hear_no_reset, hosts_hear_their_own_ends, hosts_refuse_nothing,
    served_hosts_hear_no_reset,
};
