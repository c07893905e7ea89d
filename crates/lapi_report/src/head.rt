//! The fields of a packet's head, each by its name.

ghost use Rattle.std.specs.Prelude.{◌≡◌, ◌≤◌, ◌+◌, ◌*◌, ◌++◌, length, codes};
ghost use Rattle.std.specs.List.{flat_map};
ghost use Rattle.std.specs.Fmt.{decimal};
ghost use Rattle.lapi_base.specs.Output.PacketText.{note_name, head_name, head_text, span_word, spans_word};
ghost use Rattle.lapi_base.specs.declared.span.Span.{Span};
ghost use Rattle.lapi_base.specs.Input.Rows.{operation_word};
ghost use Rattle.lapi_base.specs.Output.TextParts.{counter_word};

use crate::text_line::TextLine;
use lapi_base::{Head, NoteOp, RmwOp, Span, Spans, UserHeader};

fn note_name(op: NoteOp) -> &'static str
    ensures name { result.now ≡ note_name op }
    ensures short { length result.now ≤ 4 }
{
    match op {
        NoteOp::Put => "put",
        NoteOp::Putv => "putv",
        NoteOp::Am => "am",
    }
}

/// The operation that a head is of.
pub(crate) fn head_name(head: &Head) -> &'static str
    ensures name { result.now ≡ head_name head.now }
    ensures short { length result.now ≤ 6 }
{
    match head {
        Head::Put { .. } => "put",
        Head::GetGo { .. } | Head::GetBack { .. } => "get",
        Head::Putv { .. } => "putv",
        Head::GetvGo { .. } | Head::GetvBack { .. } => "getv",
        Head::RmwGo { .. } | Head::RmwBack { .. } => "rmw",
        Head::Am { .. } | Head::Echo { .. } => "am",
        Head::Note { op, .. } => note_name(*op),
        Head::Gfence { .. } => "gfence",
        Head::Addr { .. } => "addr",
    }
}

/// The fields of a head, each after a space.
pub(crate) fn add_head(head: &Head, line: &mut TextLine)
    requires { length line.old + 1600 ≤ 4096 }
    ensures text { line.new ≡ line.old ++ head_text head.now }
    ensures room { length line.new ≤ length line.old + 1600 }
{
    match head {
        Head::Put { at, tgt, cmpl } => add_put(*at, *tgt, *cmpl, line),
        Head::GetGo {
            asked,
            source,
            dest,
            tgt,
            org,
        } => add_get_go(*asked, *source, *dest, *tgt, *org, line),
        Head::GetBack { dest, org } | Head::RmwBack { dest, org } => add_back(*dest, *org, line),
        Head::Putv { tgt, cmpl, pieces } => add_putv(*tgt, *cmpl, pieces, line),
        Head::GetvGo {
            tgt,
            org,
            source,
            dest,
        } => add_getv_go(*tgt, *org, source, dest, line),
        Head::GetvBack { org, dest } => {
            add_counter(" org ", *org, line);
            add_spans(" pieces ", dest, line);
        }
        Head::RmwGo {
            op,
            at,
            in1,
            in2,
            prev,
            org,
        } => add_rmw_go(*op, *at, *in1, *in2, *prev, *org, line),
        Head::Am {
            handler,
            tgt,
            cmpl,
            header,
        } => add_am(*handler, *tgt, *cmpl, header, line),
        Head::Echo { dest, cmpl } => add_echo(*dest, *cmpl, line),
        Head::Note { cmpl, .. } => add_number(" cmpl ", *cmpl, line),
        Head::Gfence { round } => add_number(" round ", *round, line),
        Head::Addr { round, address } => add_addr(*round, *address, line),
    }
}

fn add_put(at: u32, tgt: Option<u32>, cmpl: Option<u32>, line: &mut TextLine)
    requires { length line.old + 200 ≤ 4096 }
    ensures text { line.new ≡ line.old ++ head_text (Head.Put at tgt cmpl) }
    ensures room { length line.new ≤ length line.old + 200 }
{
    add_number(" at ", at, line);
    add_counter(" tgt ", tgt, line);
    add_counter(" cmpl ", cmpl, line);
}

fn add_get_go(
    asked: u32,
    source: u32,
    dest: u32,
    tgt: Option<u32>,
    org: Option<u32>,
    line: &mut TextLine,
)
    requires { length line.old + 200 ≤ 4096 }
    ensures text { line.new ≡ line.old ++ head_text (Head.GetGo asked source dest tgt org) }
    ensures room { length line.new ≤ length line.old + 200 }
{
    add_number(" asked ", asked, line);
    add_number(" source ", source, line);
    add_number(" dest ", dest, line);
    add_counter(" tgt ", tgt, line);
    add_counter(" org ", org, line);
}

/// What comes back of a get or a read-modify-write.
fn add_back(dest: u32, org: Option<u32>, line: &mut TextLine)
    requires { length line.old + 200 ≤ 4096 }
    ensures text { line.new ≡ line.old ++ (codes " dest " ++ decimal dest ++ codes " org " ++ counter_word org) }
    ensures room { length line.new ≤ length line.old + 200 }
{
    add_number(" dest ", dest, line);
    add_counter(" org ", org, line);
}

fn add_putv(tgt: Option<u32>, cmpl: Option<u32>, pieces: &Spans, line: &mut TextLine)
    requires { length line.old + 1600 ≤ 4096 }
    ensures text { line.new ≡ line.old ++ head_text (Head.Putv tgt cmpl pieces.now) }
    ensures room { length line.new ≤ length line.old + 1600 }
{
    add_counter(" tgt ", tgt, line);
    add_counter(" cmpl ", cmpl, line);
    add_spans(" pieces ", pieces, line);
}

fn add_getv_go(
    tgt: Option<u32>,
    org: Option<u32>,
    source: &Spans,
    dest: &Spans,
    line: &mut TextLine,
)
    requires { length line.old + 1600 ≤ 4096 }
    ensures text { line.new ≡ line.old ++ head_text (Head.GetvGo tgt org source.now dest.now) }
    ensures room { length line.new ≤ length line.old + 1600 }
{
    add_counter(" tgt ", tgt, line);
    add_counter(" org ", org, line);
    add_spans(" source ", source, line);
    add_spans(" dest ", dest, line);
}

fn add_rmw_go(
    op: RmwOp,
    at: u32,
    in1: u32,
    in2: u32,
    prev: u32,
    org: Option<u32>,
    line: &mut TextLine,
)
    requires { length line.old + 200 ≤ 4096 }
    ensures text { line.new ≡ line.old ++ head_text (Head.RmwGo op at in1 in2 prev org) }
    ensures room { length line.new ≤ length line.old + 200 }
{
    add_operation(op, at, line);
    add_number(" in1 ", in1, line);
    add_number(" in2 ", in2, line);
    add_number(" prev ", prev, line);
    add_counter(" org ", org, line);
}

/// The operation and its place.
fn add_operation(op: RmwOp, at: u32, line: &mut TextLine)
    requires { length line.old + 50 ≤ 4096 }
    ensures text { line.new ≡ line.old ++ (codes " operation " ++ operation_word op ++ codes " at " ++ decimal at) }
    ensures room { length line.new ≤ length line.old + 50 }
{
    line.text(" operation ");
    line.text(op.word());
    add_number(" at ", at, line);
}

fn add_am(
    handler: u32,
    tgt: Option<u32>,
    cmpl: Option<u32>,
    header: &UserHeader,
    line: &mut TextLine,
)
    requires { length line.old + 250 ≤ 4096 }
    ensures text { line.new ≡ line.old ++ head_text (Head.Am handler tgt cmpl header.now) }
    ensures room { length line.new ≤ length line.old + 250 }
{
    add_number(" handler ", handler, line);
    add_counter(" tgt ", tgt, line);
    add_counter(" cmpl ", cmpl, line);
    line.text(" header ");
    line.optional_hex(header.as_slice());
}

fn add_echo(dest: u32, cmpl: Option<u32>, line: &mut TextLine)
    requires { length line.old + 200 ≤ 4096 }
    ensures text { line.new ≡ line.old ++ head_text (Head.Echo dest cmpl) }
    ensures room { length line.new ≤ length line.old + 200 }
{
    add_number(" dest ", dest, line);
    add_counter(" cmpl ", cmpl, line);
}

fn add_addr(round: u32, address: u32, line: &mut TextLine)
    requires { length line.old + 200 ≤ 4096 }
    ensures text { line.new ≡ line.old ++ head_text (Head.Addr round address) }
    ensures room { length line.new ≤ length line.old + 200 }
{
    add_number(" round ", round, line);
    add_number(" address ", address, line);
}

/// A field's name and its number.
fn add_number(name: &str, value: u32, line: &mut TextLine)
    requires { length line.old + length name.now + 20 ≤ 4096 }
    ensures text { line.new ≡ line.old ++ name.now ++ decimal value }
    ensures room { length line.new ≤ length line.old + length name.now + 20 }
{
    line.text(name);
    line.number(u64::from(value));
}

fn add_counter(name: &str, counter: Option<u32>, line: &mut TextLine)
    requires { length line.old + length name.now + 20 ≤ 4096 }
    ensures text { line.new ≡ line.old ++ name.now ++ counter_word counter }
    ensures room { length line.new ≤ length line.old + length name.now + 20 }
{
    line.text(name);
    line.counter(counter);
}

fn add_span(span: Span, line: &mut TextLine)
    requires { length line.old + 41 ≤ 4096 }
    ensures text { line.new ≡ line.old ++ span_word span }
    ensures room { length line.new ≤ length line.old + 41 }
{
    line.number(span.at);
    line.text(":");
    line.number(u64::from(span.len));
}

/// A field's name and its spans, between commas.
fn add_spans(name: &str, spans: &Spans, line: &mut TextLine)
    requires { length line.old + length name.now + 672 ≤ 4096 }
    ensures text { line.new ≡ line.old ++ name.now ++ spans_word spans.now }
    ensures room { length line.new ≤ length line.old + length name.now + 672 }
{
    line.text(name);
    if let Some((first, others)) = spans.as_slice().split_first() {
        add_span(*first, line);
        add_others(others, line);
    }
}

/// Further spans, each after a comma.
fn add_others(spans: &[Span], line: &mut TextLine)
    requires few { length spans.now ≤ 16 }
    requires room { length line.old + 42 * length spans.now ≤ 4096 }
    ensures text { line.new ≡ line.old ++ flat_map (λ (span : Span). codes "," ++ span_word span) spans.now }
    ensures room { length line.new ≤ length line.old + 42 * length spans.now }
{
    for span in spans {
        line.text(",");
        add_span(*span, line);
    }
}
