//! Lists of spans: a count, and then the spans.
//!
//! ```text
//! size  field  rule                               reason
//! 1     count  1 to 16                            Field
//!
//! 4     at     at most 65,536                     Field    each span
//! 4     len    at + len at most 65,536,           Field
//!              and the rule of its list
//! ```

ghost use Rattle.std.specs.Prelude.{◌≡◌, ◌≤◌, ◌+◌, ◌*◌, ◌++◌, ◌==◌, length, if◌then◌else◌, IfOk};
ghost use Rattle.lapi_base.specs.Packet.Fields.{count_form, span_form, within_form, covering_form, matching_form};
ghost use Rattle.lapi_packet.specs.Reader.{Reads};
ghost use Rattle.lapi_base.specs.Packet.PacketBytes as written;

use crate::fault::{Fault, refused};
use crate::number::{read_four, read_one, write_four};
use crate::range::{MEMORY, fits};
use lapi_base::{FRAME_ROOM, Frame, Reason, Span, Spans};

const MOST: u32 = 16;

#[tactic(auto, unfolding(lapi_base::specs::Packet::Fields::count_form))]
pub(crate) fn read_count(bytes: &[u8]) -> Result<(u32, &[u8]), Fault>
    ensures read { Reads count_form bytes.now result }
    ensures most { IfOk result (λ x. x.0 ≤ 16) }
{
    let (count, rest) = read_one(bytes)?;
    if count < 1 || count > MOST {
        return Err(refused(bytes, Reason::Field));
    }
    Ok((count, rest))
}

/// A span whose length is from `least` to `most`.
#[tactic(auto, unfolding(lapi_base::specs::Packet::Fields::span_form))]
fn read_span(least: u32, most: u32, bytes: &[u8]) -> Result<(Span, &[u8]), Fault>
    ensures read { Reads (span_form least most) bytes.now result }
    ensures most { IfOk result (λ x. x.0.len ≤ most) }
{
    let (at, after_at) = read_four(bytes)?;
    if at > MEMORY {
        return Err(refused(bytes, Reason::Field));
    }
    let (len, rest) = read_four(after_at)?;
    if !fits(at, len) || len < least || len > most {
        return Err(refused(after_at, Reason::Field));
    }
    let at = u64::from(at);
    Ok((Span { at, len }, rest))
}

/// Spans whose lengths have a sum of at most `most`.
pub(crate) fn read_within(most: u32, count: u32, bytes: &[u8]) -> Result<(Spans, &[u8]), Fault>
    requires { count ≤ 16 }
    ensures { Reads (within_form most count) bytes.now result }
{
    let mut spans = Spans::new();
    let mut rest = bytes;
    let mut left = most;
    for _ in 0..count {
        match read_span(0, left, rest) {
            Err(fault) => return Err(fault),
            Ok((span, after)) => {
                left -= span.len;
                spans.push(span);
                rest = after;
            }
        }
    }
    Ok((spans, rest))
}

/// The least length of a span where `left` is left of a sum and so many spans follow.
fn least_of(left: u32, following: u32) -> u32
    ensures { result ≡ (if following == 0 then left else 0) }
{
    if following == 0 { left } else { 0 }
}

/// Spans whose lengths have the sum `total`.
pub(crate) fn read_covering(total: u32, count: u32, bytes: &[u8]) -> Result<(Spans, &[u8]), Fault>
    requires { count ≤ 16 }
    ensures { Reads (covering_form total count) bytes.now result }
{
    let mut spans = Spans::new();
    let mut rest = bytes;
    let mut left = total;
    for i in 0..count {
        let least = least_of(left, count - (i + 1));
        match read_span(least, left, rest) {
            Err(fault) => return Err(fault),
            Ok((span, after)) => {
                left -= span.len;
                spans.push(span);
                rest = after;
            }
        }
    }
    Ok((spans, rest))
}

/// Spans of the same lengths as others.
pub(crate) fn read_matching<'a>(
    others: &[Span],
    bytes: &'a [u8],
) -> Result<(Spans, &'a [u8]), Fault>
    requires { length others.now ≤ 16 }
    ensures { Reads (matching_form others.now) bytes.now result }
{
    let mut spans = Spans::new();
    let mut rest = bytes;
    for other in others {
        match read_span(other.len, other.len, rest) {
            Err(fault) => return Err(fault),
            Ok((span, after)) => {
                spans.push(span);
                rest = after;
            }
        }
    }
    Ok((spans, rest))
}

fn write_span(span: Span, out: &mut Frame)
    requires { length out.old + 8 ≤ FRAME_ROOM }
    ensures { out.new ≡ out.old ++ written.span span }
{
    write_four((span.at % 4_294_967_296) as u32, out);
    write_four(span.len, out);
}

pub(crate) fn write(spans: &[Span], out: &mut Frame)
    requires { length out.old + 8 * length spans.now ≤ FRAME_ROOM }
    ensures bytes { out.new ≡ out.old ++ written.spans spans.now }
    ensures room { length out.new ≡ length out.old + 8 * length spans.now }
{
    for span in spans {
        write_span(*span, out);
    }
}
