//! Messages that come in fragments, over one link.
#![tactic(auto)]

mod head_copy;
mod message;
mod partial;
mod partials;
mod put;

pub use message::Message;
pub use partials::Partials;
pub use put::Put;
