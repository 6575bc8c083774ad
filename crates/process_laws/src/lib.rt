//! Laws of processes, by their trees and traces alone: of a process whose bursts alternate, and of a grant.
#![tactic(auto)]

mod laws;

pub use laws::{
    fair_is_insensitive, fair_is_steady, grants_are_insensitive, plain_grant_law,
    release_grant_law, rounds_are_fair, weaves_are_insensitive,
};
