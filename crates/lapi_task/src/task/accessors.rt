//! What a task tells of itself, and the parts that it lends.
ghost use Rattle.std.specs.Prelude.{◌≡◌, ℕ, ◌<◌, ◌^◌, length, slice_index, option_map};
ghost use Rattle.lapi_base.specs.declared.script.Script.{Script};
ghost use Rattle.lapi_base.specs.declared.message.MsgName.{MsgName};
ghost use Rattle.lapi_base.specs.Record.Counters.{count, reads};
ghost use Rattle.lapi_base.specs.Record.Jobs.{queue, busy};
ghost use Rattle.lapi_base.specs.Record.Wires.{Run, is_delivered};
ghost use Rattle.lapi_base.specs.Record.Refusals.{next, refusals};
ghost use Rattle.lapi_base.specs.Record.Values.{memory_bytes};
ghost use Rattle.lapi_window.specs.RecvWindow.{is_taken};
ghost use Rattle.lapi_reassembly.specs.Partials.{partial};
ghost use Rattle.lapi_link.specs.Receiver.{kept_answer, partial_of, unanswered};
ghost use Rattle.lapi_task.specs.Answered.{answer_for};
ghost use Rattle.lapi_task.specs.Sends.{HasNumbers};
ghost use Rattle.lapi_task.specs.StandsFor.{ForEachRecord, ForSomeRecord};

use crate::task::Task;
use lapi_base::Refusal;
use lapi_counters::Counters;
use lapi_memory::TaskMemory;
use lapi_reassembly::Partials;
use lapi_window::{RecvWindow, SendWindow};

impl Task {
    /// How many statements were issued, refused or passed: the number of the next one.
    pub fn next(&self) -> u32
        ensures { ForEachRecord self.now (λ script rules t r. result ≡ next r.journal t) }
    {
        self.state.next
    }

    pub fn memory(&self) -> &TaskMemory
        ensures { ForEachRecord self.now (λ script rules t r. result.now ≡ memory_bytes script rules r.journal t) }
    {
        &self.state.memory
    }

    /// The value of counter `c`.
    pub fn counter(&self, c: u32) -> u64
        requires { ForSomeRecord self.now (λ script rules t r. c < script.counters) }
        ensures { ForEachRecord self.now (λ script rules t r. c < script.counters
            → result ≡ count script rules r.journal t c) }
    {
        self.state.counters.get(c)
    }

    /// The counters that were read, each with the number of the statement, in order.
    pub fn reads(&self) -> &[(u32, u64)]
        ensures { ForEachRecord self.now (λ script rules t r. result.now ≡ reads script rules r.journal t) }
    {
        self.state.reads.as_slice()
    }

    /// The statements that were refused, each with the reason, in order.
    pub fn refusals(&self) -> &[(u32, Refusal)]
        ensures { ForEachRecord self.now (λ script rules t r. result.now ≡ refusals r.journal t) }
    {
        self.state.refusals.as_slice()
    }

    /// How many jobs wait for a worker.
    pub fn queued(&self) -> u32
        ensures { ForEachRecord self.now (λ script rules t r. result ≡ length (queue script rules r.journal t)) }
    {
        to_u32(self.state.jobs.queued())
    }

    /// How many workers run a job.
    pub fn running(&self) -> u32
        ensures { ForEachRecord self.now (λ script rules t r. result ≡ length (busy script r.journal t)) }
    {
        to_u32(self.state.jobs.running())
    }

    /// The numbers of the link to task `b`.
    pub fn sending(&self, b: u32) -> &SendWindow
        requires { ForSomeRecord self.now (λ script rules t r. b < script.tasks) }
        ensures { ForEachRecord self.now (λ script rules t r. b < script.tasks → HasNumbers script result.now r t b) }
    {
        self.senders[b as usize].window()
    }

    /// The numbers taken from task `a`.
    pub fn receiving(&self, a: u32) -> &RecvWindow
        requires { ForSomeRecord self.now (λ script rules t r. a < script.tasks) }
        ensures { ForEachRecord self.now (λ script rules t r. a < script.tasks → (n : ℕ)
            → is_taken result.now n ≡ is_delivered r a t n) }
    {
        self.receivers[a as usize].window()
    }

    /// The messages from task `a` of which some fragments have come and some are missing, with the answers to
    /// the headers of active messages.
    pub fn partials(&self, a: u32) -> &Partials
        requires { ForSomeRecord self.now (λ script rules t r. a < script.tasks) }
        ensures came { ForEachRecord self.now (λ script rules t r. a < script.tasks → (m : MsgName)
            → option_map unanswered (partial result.now m) ≡ partial_of script (r.handed a t) m) }
        ensures answers { ForEachRecord self.now (λ script rules t r. a < script.tasks → (m : MsgName)
            → kept_answer (partial result.now m) ≡ answer_for rules (partial result.now m)) }
    {
        self.receivers[a as usize].partials()
    }

    pub fn counters(&self) -> &Counters
        ensures { ForEachRecord self.now (λ script rules t r. (c : ℕ) → c < script.counters
            → slice_index result.now c ≡ count script rules r.journal t c) }
    {
        &self.state.counters
    }
}

/// The number in 32 bits, where it has no more.
fn to_u32(n: usize) -> u32
    ensures { n < 2 ^ 32 → result ≡ n }
{
    n.min(u32::MAX as usize) as u32
}
