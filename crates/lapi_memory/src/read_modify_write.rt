ghost use Rattle.std.specs.Prelude.{◌≡◌};
ghost use Rattle.lapi_base.specs.Record.Values.{rmw_word};

use lapi_base::RmwOp;

/// The word that the target has afterwards, where it had `old`. Sums wrap at 2^32; `in2` counts only with
/// compare-and-swap.
#[tactic(auto, unfolding(lapi_base::specs::Record::Values::rmw_word))]
pub fn rmw(op: RmwOp, old: u32, in1: u32, in2: u32) -> u32
    ensures { result ≡ rmw_word op old in1 in2 }
{
    match op {
        RmwOp::Add => old.wrapping_add(in1),
        RmwOp::Or => old | in1,
        RmwOp::Swap => in1,
        RmwOp::Cas if old == in1 => in2,
        RmwOp::Cas => old,
    }
}
