//! Tests of block arrays: a plan's text, read and compiled.
#![tactic(auto)]

#[cfg(test)]
mod plans;
