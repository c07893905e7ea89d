//! What a record tells of its parts: its lines one after another, the packets on its wires, and what one task knows
//! of it. Each law is the contract of a function without a body.
#![tactic(auto)]

mod answering;
mod arrival;
mod copying;
mod exact;
mod memory;
mod part;
mod receiving;
mod rising;
mod rounds;
mod sending;
mod spelled;
mod takes;
mod working;

pub use answering::{backs_are_told, handlers_are_told, notes_are_told};
pub use arrival::{arrivals_are_told, arrivals_stay_in_reach, deliveries_are_told};
pub use copying::{copied_are_accepted, done_by_count, joins_are_copied_together};
pub use exact::packets_are_exact;
pub use memory::{bytes_stay_bytes, memories_are_written, messages_come_whole};
pub use part::{parts_are_apart, parts_decide, parts_go_on_alike};
pub use receiving::{arrivals_fit, new_arrivals_have_room};
pub use rising::statements_rise;
pub use rounds::{joins_join_once, known_rounds_are_passed, rounds_are_in_order};
pub use sending::{numbers_go_out_in_order, polls_send_the_next_numbers};
pub use spelled::packets_are_spelled;
pub use takes::{lines_are_taken, records_go_on};
pub use working::{jobs_are_begun_in_turn, jobs_run_undisturbed};
