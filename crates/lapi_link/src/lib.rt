//! The two ends of a link: what is kept of the messages that leave a task for another, and of those that come.
#![tactic(auto)]

mod arrival;
mod law;
mod receiver;
mod sender;
mod tags;

pub use arrival::Arrival;
pub use law::what_arrives_may_be_taken;
pub use receiver::Receiver;
pub use sender::Sender;
pub use tags::Tags;
