//! Tests of whole calls. The library itself has nothing.
#![tactic(auto)]

#[cfg(test)]
mod calls;
#[cfg(test)]
mod compiled;
#[cfg(test)]
mod counted;
#[cfg(test)]
mod driven;
#[cfg(test)]
mod hazards;
#[cfg(test)]
mod judged;
#[cfg(test)]
mod layered;
#[cfg(test)]
mod probes;
#[cfg(test)]
mod replayed;
