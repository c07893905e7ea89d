//! Where the pieces of a statement lie, with its address tables resolved.
ghost use Rattle.std.specs.Prelude.{◌≡◌, ℕ};
ghost use Rattle.lapi_base.specs.declared.script.Script.{Script};
ghost use Rattle.lapi_base.specs.Record.Operations.{spans, target_pieces, origin_pieces};
ghost use Rattle.lapi_base.specs.Record.Valid.{ValidStatement};
ghost use Rattle.lapi_calls.specs.Calls.{AreSpans, spans_by};

use crate::entries::Entries;
use crate::no_entries::NoEntries;
use crate::pieces::{origins, targets};
use lapi_base::{Spans, Statement};

/// The spans at the target, task `d`.
pub fn target_spans<E: Entries>(entries: &E, d: u32, statement: &Statement) -> Spans
    requires asked { E.valid entries.now }
    requires statement { ValidStatement statement.now }
    ensures given { result ≡ spans_by (E.given entries.now) d (target_pieces statement.now) }
    ensures spans { AreSpans (E.is_known entries.now) (E.given entries.now) d (target_pieces statement.now) result }
{
    targets(entries, d, statement).spans()
}

/// The spans at the origin, which are at plain addresses.
pub fn origin_spans(statement: &Statement) -> Spans
    requires { ValidStatement statement.now }
    ensures given { result ≡ spans_by (λ _ _. 0) 0 (origin_pieces statement.now) }
    ensures spans { (script : Script) (d : ℕ) → result ≡ spans script d (origin_pieces statement.now) }
{
    origins(&NoEntries, 0, statement).spans()
}
