ghost use Rattle.std.specs.Prelude.{◌≡◌, ◌<◌, ◌++◌, IfOk, OnOk};
ghost use Rattle.lapi_gen.specs.declared.form.TheConstants.{TASKS, BATCHES};
ghost use Rattle.lapi_gen.specs.Scripts.{area, user_header, called, stores_of, calls_of, statements_of, script_of};

use crate::draws::Draws;
use crate::form::{
    AREA, BATCHES, COMPLETION_COUNTER, COMPLETION_HANDLER, COUNTERS, DATA, HEADER_HANDLER, LAYOUT,
    MEMORY, OLD_WORD, ORIGIN_COUNTER, STORED, STORES, SUMS, TARGET_COUNTER, TASKS, WORD, WORKERS,
};
use crate::kind::Kind;
use lapi_base::{Addr, Bytes, Memory, RmwOp, Script, Statement, StatementLists, Statements};
use std::alloc::Global;

#[tactic(auto, unfolding(crate::specs::Scripts::script_of), using(crate::proofs::Numbered::map_first, crate::proofs::Numbered::map_more))]
pub fn script(alloc: Global, draws: &Draws) -> Result<Script, Memory>
    ensures { IfOk result (λ script. script ≡ script_of draws.now) }
{
    let mut lists = StatementLists::new(alloc);
    for a in 0..TASKS as u32 {
        lists.push(statements(alloc, draws, a)?)?;
    }
    Ok(Script {
        layout: LAYOUT,
        tasks: TASKS as u32,
        memory: MEMORY,
        counters: COUNTERS,
        workers: WORKERS,
        lists,
    })
}

/// The statements of task `a`.
#[tactic(auto, unfolding(crate::specs::Scripts::statements_of))]
fn statements(alloc: Global, draws: &Draws, a: u32) -> Result<Statements, Memory>
    requires { a < TASKS }
    ensures { IfOk result (λ list. list ≡ statements_of draws.now a) }
{
    let mut list = Statements::new(alloc);
    stores(alloc, &mut list, draws, a)?;
    calls(alloc, &mut list, draws, a)?;
    Ok(list)
}

/// Appends the stores of task `a`.
#[tactic(auto, using(crate::proofs::Numbered::map_none, crate::proofs::Numbered::map_next))]
fn stores(alloc: Global, list: &mut Statements, draws: &Draws, a: u32) -> Result<(), Memory>
    requires { a < TASKS }
    ensures { OnOk result (list.new ≡ list.old ++ stores_of draws.now a) }
{
    for i in 0..STORES {
        let bytes = draws.stored(alloc, a, i)?;
        list.push(Statement::Store {
            at: STORED * i,
            bytes,
        })?;
    }
    Ok(())
}

/// Appends its calls.
#[tactic(auto, using(crate::proofs::Numbered::map_none, crate::proofs::Numbered::map_next))]
fn calls(alloc: Global, list: &mut Statements, draws: &Draws, a: u32) -> Result<(), Memory>
    requires { a < TASKS }
    ensures { OnOk result (list.new ≡ list.old ++ calls_of draws.now a) }
{
    for b in 0..BATCHES {
        let statement = called(alloc, draws, a, b)?;
        list.push(statement)?;
    }
    Ok(())
}

/// What task `a` calls in batch `b`.
fn called(alloc: Global, draws: &Draws, a: u32, b: u32) -> Result<Statement, Memory>
    requires { (a < TASKS) × (b < BATCHES) }
    ensures { IfOk result (λ statement. statement ≡ called draws.now a b) }
{
    let batch = draws.batch(b);
    let target = batch.target(a);
    Ok(match batch.kind {
        Kind::Put => Statement::Put {
            target,
            to: Addr::Plain(area(a)),
            from: DATA,
            len: batch.len,
            tgt: Some(TARGET_COUNTER),
            org: Some(ORIGIN_COUNTER),
            cmpl: Some(COMPLETION_COUNTER),
        },
        Kind::Get => Statement::Get {
            target,
            from: Addr::Plain(DATA),
            to: area(a),
            len: batch.len,
            tgt: Some(TARGET_COUNTER),
            org: Some(ORIGIN_COUNTER),
        },
        Kind::Rmw => Statement::Rmw {
            target,
            op: RmwOp::Add,
            at: Addr::Plain(WORD),
            in1: b + 1,
            in2: 0,
            prev: OLD_WORD,
            org: Some(ORIGIN_COUNTER),
        },
        Kind::Am => Statement::Am {
            target,
            handler: HEADER_HANDLER,
            header: user_header(alloc, a)?,
            from: DATA,
            len: batch.len,
            tgt: Some(TARGET_COUNTER),
            org: Some(ORIGIN_COUNTER),
            cmpl: Some(COMPLETION_COUNTER),
        },
    })
}

/// Where the bytes that task `a` moves go.
fn area(a: u32) -> u32
    requires { a < TASKS }
    ensures { result ≡ area a }
{
    AREA + AREA * a
}

/// The three words that an active message of task `a` brings.
fn user_header(alloc: Global, a: u32) -> Result<Bytes, Memory>
    requires { a < TASKS }
    ensures { IfOk result (λ header. header ≡ user_header a) }
{
    let mut header = Vec::new(alloc);
    header.extend_from_slice(&area(a).to_be_bytes())?;
    header.extend_from_slice(&(SUMS + 4 * a).to_be_bytes())?;
    header.extend_from_slice(&COMPLETION_HANDLER.to_be_bytes())?;
    Ok(Bytes::from(header))
}
