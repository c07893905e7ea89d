//! How a task takes part in collective calls: the fences over all tasks, and the rounds in which they tell an address.
ghost use Rattle.std.specs.Prelude.{◌≡◌, ℕ, ◌∷◌, [], ◌++◌, true, false, IfOk, OnOk};
ghost use Rattle.lapi_base.specs.declared.script.Script.{Script as TheScript};
ghost use Rattle.lapi_base.specs.declared.rule.Rules.{Rules};
ghost use Rattle.lapi_base.specs.Record.Refusals.{joined};
ghost use Rattle.lapi_base.specs.Record.Wires.{Run};
ghost use Rattle.lapi_base.specs.Record.Acts.{step};
ghost use Rattle.lapi_task.specs.HasEffect.{IsAt, Performs};
ghost use Rattle.lapi_task.specs.Joining.{JoinsNext, IsHeadOfJoins, may_enter};

use crate::outcome::Outcome;
use crate::rounds::is_gfence;
use crate::statement::statement_at;
use crate::task::Task;
use lapi_base::{Head, Memory, Reply};
use lapi_calls::join_head;

impl Task {
    /// The next statement, a collective call that isn't refused, is entered, or passed where all tasks joined its round. A
    /// fence over all tasks is entered once the task's own data are done.
    pub(super) fn join_round(&mut self, out: &mut Outcome) -> Result<Reply, Memory>
        requires { JoinsNext self.old }
        ensures effect { OnOk result (Performs step self.old self.new out.old out.new) }
        ensures reply { IfOk result (λ reply. (script : TheScript) (rules : Rules) (t : ℕ) (r : Run)
            → IsAt script rules t self.old r → (step script rules r t).replies ≡ r.replies ++ reply ∷ []) }
    {
        if self.state.collective.entered {
            if !self.is_joined() {
                return Ok(Reply::Blocked);
            }
            self.state.pass(&mut out.events)?;
            return Ok(Reply::Did);
        }
        if !self.may_enter() {
            return Ok(Reply::Blocked);
        }
        let head = self.next_join();
        self.state.enter(&head, self.sizes.tasks, &mut out.events)?;
        Ok(Reply::Did)
    }

    /// Whether all tasks joined the round of the next statement, which this task has entered.
    fn is_joined(&self) -> bool
        requires call { JoinsNext self.now }
        requires entered { self.now.state.collective.entered ≡ true }
        ensures { (script : TheScript) (rules : Rules) (t : ℕ) (r : Run) → IsAt script rules t self.now r
            → result ≡ joined script r.journal t self.now.state.next }
    {
        let Some(statement) = statement_at(&self.statements, self.state.next) else {
            unreachable!()
        };
        let round = self.rounds[self.state.next as usize];
        self.state.collective.is_complete(statement, round)
    }

    /// Whether the next statement may be entered: a fence over all tasks waits for the task's own data.
    fn may_enter(&self) -> bool
        requires { JoinsNext self.now }
        ensures { (script : TheScript) (rules : Rules) (t : ℕ) (r : Run) → IsAt script rules t self.now r
            → result ≡ may_enter script r t self.now.state.next }
    {
        let Some(statement) = statement_at(&self.statements, self.state.next) else {
            unreachable!()
        };
        !is_gfence(statement) || self.is_clear()
    }

    /// The head of the next statement's messages to the other tasks.
    fn next_join(&self) -> Head
        requires { JoinsNext self.now }
        ensures { (script : TheScript) (rules : Rules) (t : ℕ) (r : Run) → IsAt script rules t self.now r
            → IsHeadOfJoins script t self.now.state.next result }
    {
        let Some(statement) = statement_at(&self.statements, self.state.next) else {
            unreachable!()
        };
        join_head(self.rounds[self.state.next as usize], statement)
    }
}
