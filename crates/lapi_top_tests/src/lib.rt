//! Tests of the crates that stand on tasks or read and write the texts of a run, beside the table of `lapi_rows`: what
//! no command prints.
#![tactic(auto)]

#[cfg(test)]
mod counting;
#[cfg(test)]
mod ends;
#[cfg(test)]
mod faults;
#[cfg(test)]
mod written;
