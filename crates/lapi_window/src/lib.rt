//! The windows of a link: which numbers were sent, which are acknowledged, and which were taken.
#![tactic(auto)]

mod number_set;
mod recv_window;
mod send_window;
mod took;

pub use number_set::covers;
pub use recv_window::RecvWindow;
pub use send_window::SendWindow;
pub use took::Took;
