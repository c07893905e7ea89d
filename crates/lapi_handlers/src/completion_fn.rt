ghost use Rattle.std.specs.Prelude.{◌≡◌, ℕ, ◌<◌, ◌≤◌, ◌^◌, length};
ghost use Rattle.lapi_base.specs.Record.Handlers.{completion_answer};
ghost use Rattle.lapi_handlers.specs.CompletionFn.{IsInRange};

use lapi_base::{CompletionRule, Effect};

/// A completion handler as main hands it in: it is given a user value and a buffer.
type CompletionClosure = Box<dyn Fn(u32, &[u8]) -> Effect + Send + Sync>;

/// A completion handler: a closure that answers its rule's value for whatever a message may bring.
#[derive(Drop)]
pub struct CompletionFn {
    pub rule: CompletionRule,
    f: CompletionClosure,
    ghost callable: { (user : ℕ) (buffer : _) → IsInRange user buffer.now → CompletionClosure.pre f user buffer },
    ghost answers: { (user : ℕ) (buffer : _) (effect : _) → IsInRange user buffer.now → CompletionClosure.post f user buffer effect → effect ≡ completion_answer rule user buffer.now },
}

impl CompletionFn {
    /// Stores the closure beside its rule.
    pub fn new(rule: CompletionRule, f: CompletionClosure) -> CompletionFn
        requires callable { (user : ℕ) (buffer : _) → IsInRange user buffer.now → CompletionClosure.pre f user buffer }
        requires answers { (user : ℕ) (buffer : _) (effect : _) → IsInRange user buffer.now → CompletionClosure.post f user buffer effect → effect ≡ completion_answer rule user buffer.now }
        ensures { result.rule ≡ rule }
    {
        CompletionFn { rule, f }
    }

    /// Calls the closure.
    pub(crate) fn effect(&self, user: u32, buffer: &[u8]) -> Effect
        requires { IsInRange user buffer.now }
        ensures { result ≡ completion_answer self.now.rule user buffer.now }
    {
        (self.f)(user, buffer)
    }
}
