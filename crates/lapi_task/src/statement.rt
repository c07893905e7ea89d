ghost use Rattle.std.specs.Prelude.{◌≡◌, option_map, slice_get};

use lapi_base::{Statement, Statements};

/// Statement `i` of these, if there is one.
pub fn statement_at(statements: &Statements, i: u32) -> Option<&Statement>
    ensures { option_map (λ s. s.now) result ≡ slice_get statements.now i }
{
    statements.as_slice().get(i as usize)
}
