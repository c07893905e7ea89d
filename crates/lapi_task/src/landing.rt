//! What a message does to a memory and to counters, by its head.
ghost use Rattle.std.specs.Prelude.{◌≡◌, ◌^◌, ◌<◌, length, false, IfSome, OnOk, slice_get};
ghost use Rattle.lapi_base.specs.Record.HeadSays.{announces, head_pieces, asked_pieces, is_active};
ghost use Rattle.lapi_vector.specs.Pieces.{AreWithin, total_of};
ghost use Rattle.lapi_base.specs.Record.Values.{scattered};
ghost use Rattle.lapi_task.specs.Answered.{kept_pieces};
ghost use Rattle.lapi_task.specs.Landed.{head_memory, after_writes};

use crate::spans::same_spans;
use lapi_base::{Head, HeaderOut, Memory, Span, Spans};
use lapi_memory::{TaskMemory, rmw};
use lapi_vector::Pieces;

/// Writes what the message brings, or the word that it makes. What an active message brings goes where the answer to
/// its header says.
#[tactic(auto, unfolding(lapi_base::specs::Record::Values::scattered))]
pub fn write(
    memory: &mut TaskMemory,
    head: &Head,
    out: Option<HeaderOut>,
    bytes: &[u8],
) -> Result<(), Memory>
    requires pieces { AreWithin (head_pieces head.now (length bytes.now)) (length memory.old) }
    requires total { is_active head.now ≡ false
        → total_of (head_pieces head.now (length bytes.now)) ≡ length bytes.now }
    requires asked { AreWithin (asked_pieces head.now) (length memory.old) }
    ensures { OnOk result (memory.new ≡ head_memory head.now out bytes.now memory.old) }
{
    match head {
        Head::Put { at: dest, .. }
        | Head::GetBack { dest, .. }
        | Head::RmwBack { dest, .. }
        | Head::Echo { dest, .. } => {
            memory.write(*dest, bytes);
        }
        Head::Putv { pieces, .. } | Head::GetvBack { dest: pieces, .. } => {
            scatter(memory, pieces, bytes)?;
        }
        Head::RmwGo {
            op,
            at,
            in1,
            in2,
            ..
        } => {
            let old = memory.word(*at);
            memory.set_word(*at, rmw(*op, old, *in1, *in2));
        }
        Head::Am { .. } => keep(memory, out, bytes),
        Head::GetGo { .. }
        | Head::GetvGo { .. }
        | Head::Note { .. }
        | Head::Gfence { .. }
        | Head::Addr { .. } => {}
    }
    Ok(())
}

/// Writes the bytes of an active message where the answer keeps them.
#[tactic(auto, unfolding(lapi_base::specs::Record::Values::scattered))]
fn keep(memory: &mut TaskMemory, out: Option<HeaderOut>, bytes: &[u8])
    ensures { memory.new
        ≡ after_writes memory.old (scattered (kept_pieces (length memory.old) (length bytes.now) out) bytes.now) }
{
    if let Some(span) = kept(memory, out, bytes.len()) {
        memory.write(span.at as u32, bytes);
    }
}

/// Where so many bytes are kept by the answer, if they lie within the memory.
pub fn kept(memory: &TaskMemory, out: Option<HeaderOut>, len: usize) -> Option<Span>
    ensures span { result ≡ slice_get (kept_pieces (length memory.now) len out) 0 }
    ensures small { IfSome result (λ span. span.at < 2 ^ 32) }
{
    let at = out?.place?;
    let size = u64::from(memory.size());
    let bytes = len as u64;
    if bytes > size || at > size - bytes {
        return None;
    }
    Some(Span {
        at,
        len: len as u32,
    })
}

/// Writes the bytes into the pieces, in order: where pieces overlap, the last one counts.
fn scatter(memory: &mut TaskMemory, pieces: &Spans, bytes: &[u8]) -> Result<(), Memory>
    requires within { AreWithin pieces.now (length memory.old) }
    requires total { total_of pieces.now ≡ length bytes.now }
    ensures { OnOk result (memory.new ≡ after_writes memory.old (scattered pieces.now bytes.now)) }
{
    Pieces::list(same_spans(pieces)?).scatter(memory, bytes);
    Ok(())
}

/// The counter that its landing announces, where it has a completion or none.
pub fn announced_by(head: &Head, completion: bool) -> Option<u32>
    ensures { result ≡ announces head.now completion }
{
    match head {
        Head::Put { tgt, .. }
        | Head::Putv { tgt, .. }
        | Head::GetGo { tgt, .. }
        | Head::GetvGo { tgt, .. } => *tgt,
        Head::GetBack { org, .. } | Head::GetvBack { org, .. } | Head::RmwBack { org, .. } => *org,
        Head::Am { tgt, .. } => tgt.filter(|_tgt| !completion),
        Head::Note { cmpl, .. } => Some(*cmpl),
        Head::Echo { cmpl, .. } => *cmpl,
        Head::RmwGo { .. } | Head::Gfence { .. } | Head::Addr { .. } => None,
    }
}
