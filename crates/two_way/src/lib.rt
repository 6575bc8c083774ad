//! Components of two inputs or outputs that are alike at most, and layers of smaller ones.
#![tactic(auto)]
