//! Copies of heads that a contract sees to be equal.
ghost use Rattle.std.specs.Prelude.{◌≡◌, IfOk};

use lapi_base::{Head, Memory, Spans, UserHeader};

/// A head with the same fields.
pub(crate) fn copy_of(head: &Head) -> Result<Head, Memory>
    ensures { IfOk result (λ copy. copy ≡ head.now) }
{
    Ok(match head {
        Head::Putv { tgt, cmpl, pieces } => Head::Putv {
            tgt: *tgt,
            cmpl: *cmpl,
            pieces: copy_of_spans(pieces)?,
        },
        Head::GetvGo {
            tgt,
            org,
            source,
            dest,
        } => Head::GetvGo {
            tgt: *tgt,
            org: *org,
            source: copy_of_spans(source)?,
            dest: copy_of_spans(dest)?,
        },
        Head::GetvBack { org, dest } => Head::GetvBack {
            org: *org,
            dest: copy_of_spans(dest)?,
        },
        Head::Am {
            handler,
            tgt,
            cmpl,
            header,
        } => Head::Am {
            handler: *handler,
            tgt: *tgt,
            cmpl: *cmpl,
            header: copy_of_header(header)?,
        },
        _ => head.clone()?,
    })
}

fn copy_of_spans(spans: &Spans) -> Result<Spans, Memory>
    ensures { IfOk result (λ copy. copy ≡ spans.now) }
{
    Ok(spans.clone()?)
}

fn copy_of_header(header: &UserHeader) -> Result<UserHeader, Memory>
    ensures { IfOk result (λ copy. copy ≡ header.now) }
{
    Ok(header.clone()?)
}
