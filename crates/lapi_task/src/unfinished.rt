ghost use Rattle.std.specs.Prelude.{◌≡◌, ℕ, ◌-◌, ◌<◌, ◌≤◌, ◌&&◌, ◌==◌, not, nat_lt, IsTrue, ◌↔◌, true, false, IfOk, length, replicate, slice_index, slice_set};
ghost use Rattle.std.specs.List.{AllByRecursion};
ghost use Rattle.lapi_collect.specs.Outstanding.{is_open};
ghost use Rattle.lapi_base.specs.declared.message.Leg.TheVariants.{Back};
ghost use Rattle.lapi_base.specs.Record.Operations.{is_data};
ghost use Rattle.lapi_task.specs.Unfinished.{times, flags_issued, flags_closed, flags_landed, IsOfStatement};

use lapi_base::{Leg, Memory, MsgName, Statement};
use lapi_calls::is_data;
use lapi_collect::{Outstanding, Unacknowledged};
use lapi_reassembly::Message;
use std::alloc::Global;

/// The data operations of a task that were issued and whose data are not done, and how many numbers of each message
/// are not acknowledged.
#[derive(Drop)]
pub struct Unfinished {
    pub undone: Outstanding,
    pub left: Unacknowledged,
}

impl Unfinished {
    /// So many statements, none of which was issued.
    pub fn new(alloc: Global, statements: u32) -> Result<Unfinished, Memory>
        ensures { IfOk result (λ made. (made.undone ≡ replicate statements false) × (made.left ≡ replicate statements 0)) }
    {
        let undone = Outstanding::new(alloc, statements)?;
        let left = Unacknowledged::new(alloc, statements)?;
        Ok(Unfinished { undone, left })
    }

    /// Statement `i` was issued: it is open where it has data.
    pub fn issued(&mut self, i: u32, statement: &Statement)
        requires { i < length self.old.undone }
        ensures { self.new ≡ record self.old { undone = flags_issued (is_data statement.now) i self.old.undone } }
    {
        if is_data(statement) {
            self.undone.begin(i);
        }
    }

    /// Its data were copied, and have so many numbers.
    pub fn copied(&mut self, statement: u32, count: u32)
        requires { statement < length self.old.left }
        ensures { self.new ≡ record self.old { left = slice_set self.old.left statement count } }
    {
        self.left.begin(statement, count);
    }

    /// What came whole, if a message did, took effect: where it is an answer, the data of its operation are done.
    pub fn arrived(&mut self, message: &Option<Message>)
        requires { IsOfStatement message.now (length self.old.undone) }
        ensures { self.new ≡ record self.old { undone = flags_landed message.now self.old.undone } }
    {
        if let Some(message) = message {
            self.landed(message.name);
        }
    }

    /// A message has landed.
    fn landed(&mut self, name: MsgName)
        requires { name.leg ≡ Back → name.statement < length self.old.undone }
        ensures { self.new ≡ record self.old { undone = flags_closed name self.old.undone } }
    {
        match name.leg {
            Leg::Back => self.undone.done(name.statement),
            Leg::Go | Leg::Note | Leg::Echo | Leg::Join(_) => {}
        }
    }

    /// For each time that a statement is named, one number of its message was acknowledged. Its data are done with
    /// the last one.
    pub fn acknowledged(&mut self, named: &[u32])
        requires known { AllByRecursion (λ i. (i < length self.old.left) × (i < length self.old.undone)) named.now }
        requires enough { (i : ℕ) → times i named.now ≤ slice_index self.old.left i }
        ensures size { (length self.new.undone ≡ length self.old.undone) × (length self.new.left ≡ length self.old.left) }
        ensures left { (i : ℕ) → slice_index self.new.left i ≡ slice_index self.old.left i - times i named.now }
        ensures undone { (i : ℕ) → is_open self.new.undone i
            ≡ (is_open self.old.undone i && not (nat_lt 0 (times i named.now) && slice_index self.new.left i == 0)) }
    {
        for i in 0..named.len() {
            self.one_acknowledged(named[i]);
        }
    }

    /// One number of its message was acknowledged.
    fn one_acknowledged(&mut self, statement: u32)
        requires known { (statement < length self.old.left) × (statement < length self.old.undone) }
        requires one { 0 < slice_index self.old.left statement }
        ensures left { self.new.left
            ≡ slice_set self.old.left statement (slice_index self.old.left statement - 1) }
        ensures last { (slice_index self.old.left statement ≡ 1)
            → self.new.undone ≡ slice_set self.old.undone statement false }
        ensures more { ((slice_index self.old.left statement == 1) ≡ false) → self.new.undone ≡ self.old.undone }
    {
        if self.left.acked(statement) {
            self.undone.done(statement);
        }
    }

    /// Whether no operation before this statement is open.
    pub fn clear_before(&self, statement: u32) -> bool
        ensures { IsTrue result ↔ ((i : ℕ) → i < statement → is_open self.now.undone i ≡ false) }
    {
        self.undone.clear_before(statement)
    }
}
