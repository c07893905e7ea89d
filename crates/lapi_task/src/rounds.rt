//! The rounds of a task's collective calls: its fences over all tasks, and apart from them the calls that give an address.
ghost use Rattle.std.specs.Prelude.{◌≡◌, ℕ, ◌<◌, ◌^◌, IfOk, length, map};
ghost use Rattle.lapi_base.specs.declared.script.Script.{Script};
ghost use Rattle.lapi_base.specs.Record.Operations as kinds;
ghost use Rattle.lapi_base.specs.Record.Operations.{numbers_below};
ghost use Rattle.lapi_base.specs.Record.Refusals.{round_of};

use lapi_base::{Memory, Statement, Statements};
use std::alloc::Global;

/// The round of each of these statements, which are those of a task with so many bytes of memory.
pub fn rounds_of(alloc: Global, statements: &Statements, memory: u32) -> Result<Vec<u32>, Memory>
    requires { length statements.now < 2 ^ 32 }
    ensures { IfOk result (λ made. (script : Script) (task : ℕ) → statements.now ≡ kinds.statements script task
        → script.memory ≡ memory → made.items ≡ map (round_of script task) (numbers_below (length statements.now))) }
{
    let mut rounds = Vec::new(alloc);
    let mut fences = 0;
    let mut tables = 0;
    for statement in statements.as_slice() {
        let is_fence = is_gfence(statement);
        rounds.push(if is_fence { fences } else { tables })?;
        fences += is_fence as u32;
        tables += gives_address(statement, memory) as u32;
    }
    Ok(rounds)
}

/// Whether the statement is a fence over all tasks.
pub fn is_gfence(statement: &Statement) -> bool
    ensures { result ≡ kinds.is_gfence statement.now }
{
    matches!(statement, Statement::Gfence)
}

/// Whether the statement tells the other tasks an address within a memory of so many bytes.
fn gives_address(statement: &Statement, memory: u32) -> bool
    ensures { (script : Script) → script.memory ≡ memory → result ≡ kinds.is_table script statement.now }
{
    matches!(statement, Statement::Addr { at } if *at <= memory)
}
