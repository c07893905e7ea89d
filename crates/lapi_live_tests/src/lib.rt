//! Tests of lanes on threads, alone: what no clause says, that lanes run beside one another, and that handlers run
//! between their Begin and their End with no turn.
#![tactic(auto)]

#[cfg(test)]
mod faults;
#[cfg(test)]
mod gates;
#[cfg(test)]
mod meeting;
#[cfg(test)]
mod orders;
#[cfg(test)]
mod shared;
