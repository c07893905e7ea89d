ghost use Rattle.std.specs.Prelude.{◌≡◌, IfOk};

use lapi_base::{Memory, Spans};

/// The spans once more, to be kept.
pub fn same_spans(spans: &Spans) -> Result<Spans, Memory>
    ensures { IfOk result (λ same. same ≡ spans.now) }
{
    Ok(spans.clone()?)
}
