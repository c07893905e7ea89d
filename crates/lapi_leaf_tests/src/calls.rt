//! Statements as calls of one task, which knows the limits of its script.
ghost use Rattle.std.specs.Prelude.{◌≡◌, ◌≤◌, IfOk, [], ◌∷◌, length, true};
ghost use Rattle.std.specs.List.{AllByRecursion};
ghost use Rattle.lapi_base.specs.Record.Operations.{is_data, length_by};
ghost use Rattle.lapi_base.specs.declared.message.Leg.TheVariants.{Back};
ghost use Rattle.lapi_base.specs.Record.Valid.{AtPlain, IsAddress, IsByte, ValidScript, ValidStatement, ValidVector};

use lapi_base::{
    Addr, Bytes, Head, Leg, Memory, Piece, PieceList, Refusal, RmwOp, Script, Span, Spans,
    Statement, StatementLists, Statements, UserHeader, Vector,
};
use lapi_calls::{
    Entries, Limits, Setting, go_head, join_head, message_length, origin_spans, refusal_of,
    target_spans, why_refused,
};
use std::alloc::Global;
use std::test::Fail;

const LIMITS: Limits = Limits {
    tasks: 2,
    memory: 65_536,
    counters: 2,
    longest: 16_384,
    longest_active: 16_384,
    headers: 4,
};

/// A task that knows nothing, or that round 0 has this address at every task.
#[derive(Clone, Copy)]
struct FirstRound {
    address: Option<u32>,
}

impl Entries for FirstRound {
    ghost use Rattle.std.specs.Prelude.{◌==◌, ◌&&◌, is_some, unwrap_or};

    ghost valid = { λ _. Unit {0} };

    ghost is_known = { λ first round. is_some first.address && round == 0 };

    ghost given = { λ first _ _. unwrap_or first.address 0 };

    fn knows(&self, round: u32) -> bool {
        self.address.is_some() && round == 0
    }

    fn entry(&self, _round: u32, _task: u32) -> u32 {
        self.address.unwrap_or(0)
    }
}

const UNKNOWN: FirstRound = FirstRound { address: None };

fn refusal(statement: &Statement) -> Option<Refusal>
    requires { ValidStatement statement.now }
{
    refusal_of(&LIMITS, &UNKNOWN, 0, statement)
}

/// The head and the length of the message from the origin, if the call isn't refused.
fn sent(first: &FirstRound, statement: &Statement) -> Option<(Head, u32)>
    requires { ValidStatement statement.now × (is_data statement.now ≡ true) }
{
    let None = refusal_of(&LIMITS, first, 0, statement) else {
        return None;
    };
    let length = message_length(Leg::Go, statement);
    Some((go_head(first, 0, statement), length))
}

fn put(target: u32, to: Addr, from: u32, len: u32, tgt: Option<u32>) -> Statement
    requires { IsAddress to }
    ensures valid { ValidStatement result }
    ensures data { is_data result ≡ true }
{
    Statement::Put {
        target,
        to,
        from,
        len,
        tgt,
        org: None,
        cmpl: None,
    }
}

fn put_pieces(to: Vector, from: Vector, tgt: Option<u32>) -> Statement
    requires to { ValidVector to }
    requires from { ValidVector from × AtPlain from }
    ensures valid { ValidStatement result }
    ensures data { is_data result ≡ true }
{
    Statement::Putv {
        target: 1,
        to,
        from,
        tgt,
        org: None,
        cmpl: None,
    }
}

fn stride(base: u32, block: u32, stride: u32, count: u32) -> Vector
    requires { (1 ≤ count) × (count ≤ 16) }
    ensures valid { ValidVector result }
    ensures plain { AtPlain result }
{
    Vector::Stride {
        base: Addr::Plain(base),
        block,
        stride,
        count,
    }
}

fn piece(piece: (u32, u32)) -> Piece
    ensures { result ≡ record { at = Addr.Plain piece.0; len = piece.1 } }
{
    Piece {
        at: Addr::Plain(piece.0),
        len: piece.1,
    }
}

fn one(first: (u32, u32)) -> Vector
    ensures valid { ValidVector result }
    ensures plain { AtPlain result }
{
    Vector::List(PieceList::new(piece(first)))
}

fn two(first: (u32, u32), second: (u32, u32)) -> Vector
    ensures valid { ValidVector result }
    ensures plain { AtPlain result }
{
    let mut pieces = PieceList::new(piece(first));
    pieces.push(piece(second));
    Vector::List(pieces)
}

fn four(ats: [u32; 4], len: u32) -> Vector
    ensures valid { ValidVector result }
    ensures plain { AtPlain result }
{
    let [first, second, third, fourth] = ats;
    let mut pieces = PieceList::new(piece((first, len)));
    pieces.push(piece((second, len)));
    pieces.push(piece((third, len)));
    pieces.push(piece((fourth, len)));
    Vector::List(pieces)
}

fn message(handler: u32, header: Bytes) -> Statement
    requires { (length header ≤ 128) × AllByRecursion IsByte header }
    ensures valid { ValidStatement result }
    ensures data { is_data result ≡ true }
{
    Statement::Am {
        target: 1,
        handler,
        header,
        from: 0,
        len: 4,
        tgt: None,
        org: None,
        cmpl: Some(0),
    }
}

fn modify(at: u32) -> Statement
    ensures valid { ValidStatement result }
    ensures word { length_by Back result ≡ 4 }
    ensures data { is_data result ≡ true }
{
    Statement::Rmw {
        target: 1,
        op: RmwOp::Cas,
        at: Addr::Plain(at),
        in1: 5,
        in2: 7,
        prev: 20,
        org: Some(0),
    }
}

#[test]
fn the_first_reason_that_applies_is_told(rt: HostRuntime) -> Result<(), Fail> {
    let alloc = rt.alloc();
    let zero = Addr::Plain(0);
    let past = Addr::Plain(65_533);
    let unknown = Addr::Table {
        round: 0,
        offset: 0,
    };
    let told = [
        refusal(&put(1, zero, 0, 4, None)),
        refusal(&put(2, zero, 0, 4, None)),
        refusal(&put(1, past, 0, 4, None)),
        refusal(&put(1, zero, 65_533, 4, None)),
        refusal(&put(1, zero, 0, 4, Some(2))),
        refusal(&put(1, zero, 0, 16_385, None)),
        refusal(&put(1, unknown, 0, 4, None)),
        refusal(&message(4, Bytes::from_slice(alloc, &[0, 0, 0])?)),
        refusal(&message(0, Bytes::from_slice(alloc, &[0, 0, 0])?)),
        refusal(&put_pieces(one((0, 4)), two((0, 4), (4, 4)), None)),
        refusal(&put_pieces(two((0, 4), (8, 4)), two((0, 4), (4, 8)), None)),
        refusal(&put_pieces(stride(0, 8, 4, 2), stride(0, 8, 8, 2), None)),
        refusal(&modify(2)),
        refusal(&Statement::Wait {
            counter: 2,
            value: 1,
        }),
        refusal(&put(9, past, 65_533, 4, Some(7))),
    ];
    let expected = [
        None,
        Some(Refusal::BadTask),
        Some(Refusal::BadTargetRange),
        Some(Refusal::BadOriginRange),
        Some(Refusal::BadCounter),
        Some(Refusal::TooLong),
        Some(Refusal::NoTable),
        Some(Refusal::BadHandler),
        Some(Refusal::BadUserHeader),
        Some(Refusal::VecCount),
        Some(Refusal::VecLength),
        Some(Refusal::StrideBelowBlock),
        Some(Refusal::Misaligned),
        Some(Refusal::BadCounter),
        Some(Refusal::BadTask),
    ];
    assert_eq!(rt; told, expected);
    Ok(())
}

fn spans(ats: [u64; 4], len: u32) -> Spans {
    let [first, second, third, fourth] = ats;
    let mut spans = Spans::new();
    spans.push(Span { at: first, len });
    spans.push(Span { at: second, len });
    spans.push(Span { at: third, len });
    spans.push(Span { at: fourth, len });
    spans
}

#[test]
fn pieces_lie_in_their_order(rt: HostRuntime) {
    let all = put_pieces(stride(0, 4, 4, 4), stride(0, 4, 4, 4), Some(0));
    let apart = put_pieces(stride(32, 2, 4, 4), four([0, 2, 4, 6], 2), None);
    let whole = spans([0, 4, 8, 12], 4);
    assert_eq!(rt; target_spans(&UNKNOWN, 1, &all), whole);
    assert_eq!(rt; origin_spans(&all), whole);
    let head = Head::Putv {
        tgt: Some(0),
        cmpl: None,
        pieces: whole,
    };
    assert_eq!(rt; sent(&UNKNOWN, &all), Some((head, 16)));
    assert_eq!(rt; origin_spans(&apart), spans([0, 2, 4, 6], 2));
    let head = Head::Putv {
        tgt: None,
        cmpl: None,
        pieces: spans([32, 36, 40, 44], 2),
    };
    assert_eq!(rt; sent(&UNKNOWN, &apart), Some((head, 8)));
}

#[test]
fn a_known_address_table_is_resolved(rt: HostRuntime) {
    let at = Addr::Table {
        round: 0,
        offset: 4,
    };
    let first = FirstRound { address: Some(24) };
    let head = Head::Put {
        at: 28,
        tgt: Some(1),
        cmpl: None,
    };
    let call = put(1, at, 0, 4, Some(1));
    assert_eq!(rt; sent(&first, &call), Some((head, 4)));
    assert_eq!(rt; sent(&UNKNOWN, &call), None);
}

#[test]
fn calls_that_ask_for_bytes_send_none(rt: HostRuntime) {
    let get = Statement::Get {
        target: 1,
        from: Addr::Plain(0),
        to: 16,
        len: 4,
        tgt: Some(0),
        org: Some(1),
    };
    let head = Head::GetGo {
        asked: 4,
        source: 0,
        dest: 16,
        tgt: Some(0),
        org: Some(1),
    };
    assert_eq!(rt; message_length(Leg::Back, &get), 4);
    assert_eq!(rt; sent(&UNKNOWN, &get), Some((head, 0)));
    let getv = Statement::Getv {
        target: 1,
        from: four([0, 2, 4, 6], 2),
        to: stride(32, 2, 4, 4),
        tgt: None,
        org: Some(1),
    };
    let head = Head::GetvGo {
        tgt: None,
        org: Some(1),
        source: spans([0, 2, 4, 6], 2),
        dest: spans([32, 36, 40, 44], 2),
    };
    assert_eq!(rt; sent(&UNKNOWN, &getv), Some((head, 0)));
    let head = Head::RmwGo {
        op: RmwOp::Cas,
        at: 0,
        in1: 5,
        in2: 7,
        prev: 20,
        org: Some(0),
    };
    assert_eq!(rt; message_length(Leg::Back, &modify(0)), 4);
    assert_eq!(rt; sent(&UNKNOWN, &modify(0)), Some((head, 0)));
}

#[test]
fn an_active_message_carries_its_user_header(rt: HostRuntime) -> Result<(), Fail> {
    let bytes = b"\x00\x00\x04\x00";
    let mut header = UserHeader::new();
    header.extend_from_slice(bytes);
    let head = Head::Am {
        handler: 3,
        tgt: None,
        cmpl: Some(0),
        header,
    };
    let call = message(3, Bytes::from_slice(rt.alloc(), bytes)?);
    assert_eq!(rt; sent(&UNKNOWN, &call), Some((head, 4)));
    assert_eq!(rt; message_length(Leg::Echo, &call), 4);
    assert_eq!(rt; message_length(Leg::Note, &call), 0);
    Ok(())
}

#[test]
fn joins_name_their_round(rt: HostRuntime) {
    let given = Statement::Addr { at: 8 };
    assert_eq!(rt; join_head(3, &Statement::Gfence), Head::Gfence { round: 3 });
    assert_eq!(rt;
        join_head(0, &given),
        Head::Addr {
            round: 0,
            address: 8
        }
    );
    assert_eq!(rt; message_length(Leg::Join(1), &given), 0);
}

fn script(alloc: Global, statement: Statement) -> Result<Script, Memory>
    requires { ValidStatement statement }
    ensures { IfOk result (λ script. ValidScript script × (script.lists ≡ (statement ∷ []) ∷ [] ∷ [])) }
{
    let mut statements = Statements::new(alloc);
    statements.push(statement)?;
    let mut lists = StatementLists::new(alloc);
    lists.push(statements)?;
    lists.push(Statements::new(alloc))?;
    Ok(Script {
        layout: 1,
        tasks: 2,
        memory: 65_536,
        counters: 2,
        workers: 1,
        lists,
    })
}

#[test]
fn a_script_gives_its_sizes(rt: HostRuntime) -> Result<(), Fail> {
    let script = script(rt.alloc(), put(2, Addr::Plain(0), 0, 4, None))?;
    let setting = Setting {
        script: &script,
        headers: &[],
        completions: &[],
    };
    assert_eq!(rt;
        why_refused(&setting, &UNKNOWN, 0, 0),
        Some(Refusal::BadTask)
    );
    let limits = Limits {
        headers: 0,
        ..LIMITS
    };
    assert_eq!(rt; setting.limits(), limits);
    Ok(())
}
