//! Tests of the crates that stand on no task: each public call once, and worked values. What their contracts say is
//! not tested again.
#![tactic(auto)]

#[cfg(test)]
mod calls;
#[cfg(test)]
mod capture;
#[cfg(test)]
mod changed_captures;
#[cfg(test)]
mod collect;
#[cfg(test)]
mod counters;
#[cfg(test)]
mod generated;
#[cfg(test)]
mod handlers;
#[cfg(test)]
mod jobs;
mod link;
#[cfg(test)]
mod lists;
#[cfg(test)]
mod memory;
#[cfg(test)]
mod packet;
#[cfg(test)]
mod std_streams;
#[cfg(test)]
mod streams;
#[cfg(test)]
mod vector;
#[cfg(test)]
mod window;
