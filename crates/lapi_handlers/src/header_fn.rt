ghost use Rattle.std.specs.Prelude.{◌≡◌};
ghost use Rattle.lapi_base.specs.Record.Handlers.{header_answer};
ghost use Rattle.lapi_handlers.specs.HeaderFn.{IsInRange};

use lapi_base::{HeaderIn, HeaderOut, HeaderRule};

/// A header handler as main hands it in.
type HeaderClosure = Box<dyn Fn(&HeaderIn) -> HeaderOut + Send + Sync>;

/// A header handler: a closure that answers its rule's value for whatever a message may bring.
#[derive(Drop)]
pub struct HeaderFn {
    pub rule: HeaderRule,
    f: HeaderClosure,
    ghost callable: { (given : _) → IsInRange given.now → HeaderClosure.pre f given },
    ghost answers: { (given : _) (out : _) → IsInRange given.now → HeaderClosure.post f given out → out ≡ header_answer rule given.now },
}

impl HeaderFn {
    /// Stores the closure beside its rule.
    pub fn new(rule: HeaderRule, f: HeaderClosure) -> HeaderFn
        requires callable { (given : _) → IsInRange given.now → HeaderClosure.pre f given }
        requires answers { (given : _) (out : _) → IsInRange given.now → HeaderClosure.post f given out → out ≡ header_answer rule given.now }
        ensures { result.rule ≡ rule }
    {
        HeaderFn { rule, f }
    }

    /// Calls the closure.
    pub(crate) fn answer(&self, given: &HeaderIn) -> HeaderOut
        requires { IsInRange given.now }
        ensures { result ≡ header_answer self.now.rule given.now }
    {
        (self.f)(given)
    }
}
