//! The sums of the networks of processes and of weaves: a sum over the components of such a network is the sum over what is
//! counted of its command, in either basis.
#![tactic(auto)]

mod laws;

pub use laws::net_sums_law;
