//! The types of a run: scripts and schedules, events, packets, and the small lists they stand in.
#![tactic(auto)]

mod act_row;
mod address;
mod audit_input;
mod bytes;
mod capture;
mod command;
mod event;
mod frame;
mod handler;
mod head;
mod input;
mod layout;
mod memory;
mod message;
mod numbers;
mod packet;
mod payload;
mod piece;
mod refusal;
mod reply;
mod rule;
mod schedule;
mod script;
mod sizes;
mod span;
mod statement;
mod statement_copy;
mod status;
mod user_header;
mod vector;
mod wire;

pub use act_row::ActRow;
pub use address::Addr;
pub use audit_input::AuditInput;
pub use bytes::Bytes;
pub use capture::{CAPTURE_END, CAPTURE_MAGIC};
pub use command::{Command, View};
pub use event::{Event, Events};
pub use frame::Frame;
pub use handler::{Effect, HeaderIn, HeaderOut};
pub use head::{Head, NoteOp};
pub use input::{Input, LineError, ReadFault, Which};
pub use layout::{
    FIRST_UNIT, FRAME_ROOM, LONGEST_ACTIVE, LONGEST_INPUT, MOST_INJECTED, MOST_SHOWN, PAYLOAD_ROOM,
    WIDEST_WINDOW, has_echo, is_version, longest_in, unit_in, waits_for_poll,
};
pub use memory::Memory;
pub use message::{Leg, MsgName};
pub use numbers::Numbers;
pub use packet::{DataPacket, Packet};
pub use payload::Payload;
pub use piece::{Piece, PieceList};
pub use refusal::Refusal;
pub use reply::{Bad, Reason, Replies, Reply};
pub use rule::{Choice, CompletionRule, CompletionRules, HeaderRule, HeaderRules, Place, Rules};
pub use schedule::{Act, Line, Schedule};
pub use script::Script;
pub use sizes::Sizes;
pub use span::{Span, Spans};
pub use statement::{RmwOp, Statement, StatementLists, Statements};
pub use status::{Status, WriteFault};
pub use user_header::UserHeader;
pub use vector::Vector;
pub use wire::{Entries, WireEntry};
