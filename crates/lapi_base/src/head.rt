use crate::span::Spans;
use crate::statement::RmwOp;
use crate::user_header::UserHeader;

/// The operation that a completion notice speaks of.
#[derive(Clone, Copy, Debug, Eq, PartialEq)]
pub enum NoteOp {
    Put,
    Putv,
    Am,
}

/// What each kind of message carries in each of its packets, before the payload.
/// `Go` stands for a message from the origin, `Back` for its answer.
#[derive(Clone, Debug, Drop, Eq, PartialEq)]
pub enum Head {
    Put {
        at: u32,
        tgt: Option<u32>,
        cmpl: Option<u32>,
    },
    GetGo {
        asked: u32,
        source: u32,
        dest: u32,
        tgt: Option<u32>,
        org: Option<u32>,
    },
    GetBack {
        dest: u32,
        org: Option<u32>,
    },
    Putv {
        tgt: Option<u32>,
        cmpl: Option<u32>,
        pieces: Spans,
    },
    GetvGo {
        tgt: Option<u32>,
        org: Option<u32>,
        source: Spans,
        dest: Spans,
    },
    GetvBack {
        org: Option<u32>,
        dest: Spans,
    },
    RmwGo {
        op: RmwOp,
        at: u32,
        in1: u32,
        in2: u32,
        prev: u32,
        org: Option<u32>,
    },
    RmwBack {
        dest: u32,
        org: Option<u32>,
    },
    Am {
        handler: u32,
        tgt: Option<u32>,
        cmpl: Option<u32>,
        header: UserHeader,
    },
    Echo {
        dest: u32,
        cmpl: Option<u32>,
    },
    Note {
        op: NoteOp,
        cmpl: u32,
    },
    Gfence {
        round: u32,
    },
    Addr {
        round: u32,
        address: u32,
    },
}
