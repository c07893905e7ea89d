//! A world that several threads share, each for the lanes that it owns.
#![tactic(auto)]

mod gate;
mod kinds;
mod lane_set;
mod live;
mod pass;
mod room;
mod running;
mod schedule_lanes;
mod shared;
mod steps;

pub use gate::{Gate, OpenGate};
pub use lane_set::{LaneSet, OneLane};
pub use live::run_world;
pub use pass::Pass;
pub use running::run_lanes;
pub use schedule_lanes::{LaneFault, lanes};
pub use shared::Shared;
