//! How a task begins, and how it performs its statements.
ghost use Rattle.std.specs.Prelude.{◌≡◌, ℕ, ◌<◌, ◌≤◌, ◌∷◌, [], ◌++◌, false, replicate, IfOk, OnOk, length};
ghost use Rattle.std.specs.List.{AllByRecursion};
ghost use Rattle.lapi_base.specs.declared.script.Script.{Script as TheScript};
ghost use Rattle.lapi_base.specs.declared.rule.Rules.{Rules};
ghost use Rattle.lapi_base.specs.Record.Valid.{ValidRules, ValidScript};
ghost use Rattle.lapi_base.specs.Record.Wires.{Run, start};
ghost use Rattle.lapi_base.specs.Record.Acts.{step};
ghost use Rattle.lapi_base.specs.Record.Operations.{statements};
ghost use Rattle.lapi_base.specs.Packet.Layout.{window_of, unit_of};
ghost use Rattle.lapi_link.specs.Sender.{IsNewSender};
ghost use Rattle.lapi_link.specs.Receiver.{IsNewReceiver};
ghost use Rattle.lapi_task.specs.StandsFor.{StandsFor};
ghost use Rattle.lapi_task.specs.HasEffect.{IsAt, IsAtSome, Performs};

use crate::outcome::Outcome;
use crate::rounds::rounds_of;
use crate::state::State;
use crate::statement::statement_at;
use crate::task::Task;
use crate::unfinished::Unfinished;
use lapi_base::{Memory, Reply, Script, Statement, Statements};
use lapi_calls::{Limits, is_entered, refusal_of};
use lapi_link::{Receiver, Sender};
use std::alloc::Global;

impl Task {
    /// A task of the script before its first line, where there are so many header handlers.
    pub fn new(alloc: Global, script: &Script, task: u32, header_count: u32) -> Result<Task, Memory>
        requires script { ValidScript script.now }
        requires task { task < script.now.tasks }
        ensures { IfOk result (λ made. (rules : Rules) → ValidRules rules → length rules.headers ≡ header_count
            → StandsFor script.now rules task made start) }
    {
        let sizes = script.sizes();
        let limits = Limits::of(script, header_count as usize);
        let statements = statements(alloc, script, task)?;
        let rounds = rounds_of(alloc, &statements, script.memory)?;
        let state = State::new(alloc, sizes, task)?;
        let unfinished = Unfinished::new(alloc, statements.as_slice().len() as u32)?;
        let senders = senders(alloc, script)?;
        let receivers = receivers(alloc, script)?;
        let owed = none_owed(alloc, script.tasks)?;
        Ok(Task {
            sizes,
            limits,
            statements,
            rounds,
            state,
            unfinished,
            senders,
            receivers,
            owed,
        })
    }

    /// Performs the next statement, if its condition holds.
    pub fn step(&mut self, out: &mut Outcome) -> Result<Reply, Memory>
        requires { IsAtSome self.old }
        ensures effect { OnOk result (Performs step self.old self.new out.old out.new) }
        ensures reply { IfOk result (λ reply. (script : TheScript) (rules : Rules) (t : ℕ) (r : Run)
            → IsAt script rules t self.old r → (step script rules r t).replies ≡ r.replies ++ reply ∷ []) }
    {
        let Some(statement) = statement_at(&self.statements, self.state.next) else {
            return Ok(Reply::Idle);
        };
        if let Some(why) = refusal_of(
            &self.limits,
            &self.state.collective,
            self.state.number,
            statement,
        ) {
            self.state.refuse(why, &mut out.events)?;
            return Ok(Reply::Did);
        }
        if let Statement::Wait { counter, value } = statement {
            let is_past = self.state.wait(*counter, *value, &mut out.events)?;
            return Ok(if is_past { Reply::Did } else { Reply::Blocked });
        }
        if let Statement::Fence = statement {
            if !self.is_clear() {
                return Ok(Reply::Blocked);
            }
            self.state.pass(&mut out.events)?;
            return Ok(Reply::Did);
        }
        if is_entered(statement) {
            return self.join_round(out);
        }
        self.unfinished.issued(self.state.next, statement);
        self.state.issue(statement, &mut out.events)?;
        Ok(Reply::Did)
    }
}

/// A copy of a task's statements.
fn statements(alloc: Global, script: &Script, task: u32) -> Result<Statements, Memory>
    ensures { IfOk result (λ list. list ≡ statements script.now task) }
{
    match script.lists.as_slice().get(task as usize) {
        Some(list) => list.copy(alloc),
        None => Ok(Statements::new(alloc)),
    }
}

/// That no task is owed an acknowledgement.
fn none_owed(alloc: Global, tasks: u32) -> Result<Vec<bool>, Memory>
    ensures { IfOk result (λ made. made.items ≡ replicate tasks false) }
{
    let mut owed = Vec::new(alloc);
    for _task in 0..tasks {
        owed.push(false)?;
    }
    Ok(owed)
}

/// The sending ends of the links to each task.
fn senders(alloc: Global, script: &Script) -> Result<Vec<Sender>, Memory>
    ensures count { IfOk result (λ made. length made.items ≡ script.now.tasks) }
    ensures new { IfOk result (λ made. AllByRecursion (IsNewSender (window_of script.now)) made.items) }
{
    let mut senders = Vec::new(alloc);
    for _task in 0..script.tasks {
        let sender = Sender::new(alloc, script.window())?;
        senders.push(sender)?;
    }
    Ok(senders)
}

/// The receiving ends of the links from each task.
fn receivers(alloc: Global, script: &Script) -> Result<Vec<Receiver>, Memory>
    ensures count { IfOk result (λ made. length made.items ≡ script.now.tasks) }
    ensures new { IfOk result (λ v. AllByRecursion (IsNewReceiver (window_of script.now)
        (unit_of script.now)) v.items) }
{
    let mut receivers = Vec::new(alloc);
    for _task in 0..script.tasks {
        let receiver = Receiver::new(alloc, script.window(), script.unit())?;
        receivers.push(receiver)?;
    }
    Ok(receivers)
}
