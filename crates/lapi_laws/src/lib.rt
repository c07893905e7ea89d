//! What holds of every record, whatever lines a schedule has, and of every atomic journal. Each law is the
//! contract of a function without a body.
#![tactic(auto)]

mod atomic;
mod counter;
mod fence;
mod finality;
mod handed;
mod landing;
mod order;
mod window;

pub use atomic::journal_is_atomic;
pub use counter::counters_add_up;
pub use fence::fences_wait;
pub use finality::{delivered_is_final, quiet_is_tested};
pub use handed::{handed_are_deliveries, owed_by_deliveries};
pub use landing::{done_have_landed, landed_are_delivered};
pub use order::{handlers_run_in_order, messages_land_once};
pub use window::{few_are_partial, numbers_are_small, owed_are_held_back, window_is_kept};
