//! What is judged of a line that has its form.

ghost use Rattle.std.specs.Prelude.{◌≡◌};
ghost use Rattle.lapi_base.specs.Input.Reading.{checked_sizes, has_few_pieces, keeps_pieces, keeps_bytes, keeps_injected, names_known};
ghost use Rattle.lapi_base.specs.Packet.Spelling.{spells_packet};
ghost use Rattle.lapi_script.specs.Gives.{Gives};

use crate::fault::{LineFault, limit};
use lapi_base::{Act, MOST_INJECTED, Script, Statement, Vector, Which};
use lapi_packet::decode;

/// The most bytes of a store.
const MOST_STORED: usize = 1024;

/// The most bytes of a user header, as it is written.
const MOST_USER_HEADER: usize = 128;

pub(crate) fn checked_sizes(script: Script) -> Result<Script, LineFault>
    ensures { Gives (λ script. script) result (checked_sizes script) }
{
    if script.tasks < 2 || script.tasks > 8 {
        return Err(limit(Which::Tasks));
    }
    if script.memory < 64 || script.memory > 65_536 || script.memory % 4 != 0 {
        return Err(limit(Which::Memory));
    }
    if script.counters > 64 {
        return Err(limit(Which::Counters));
    }
    if script.workers < 1 || script.workers > 4 {
        return Err(limit(Which::Workers));
    }
    Ok(script)
}

fn has_few_pieces(vector: &Vector) -> bool
    ensures { result ≡ has_few_pieces vector.now }
{
    match vector {
        Vector::List(pieces) => pieces.as_slice().len() <= 16,
        Vector::Stride { count, .. } => *count <= 16,
    }
}

#[tactic(auto, unfolding(lapi_base::specs::Input::Reading::keeps_pieces))]
pub(crate) fn keeps_pieces(statement: &Statement) -> bool
    ensures { result ≡ keeps_pieces statement.now }
{
    match statement {
        Statement::Putv { to, from, .. } => has_few_pieces(to) && has_few_pieces(from),
        Statement::Getv { from, to, .. } => has_few_pieces(from) && has_few_pieces(to),
        Statement::Store { .. }
        | Statement::Put { .. }
        | Statement::Get { .. }
        | Statement::Rmw { .. }
        | Statement::Am { .. }
        | Statement::Wait { .. }
        | Statement::Set { .. }
        | Statement::Read { .. }
        | Statement::Fence
        | Statement::Gfence
        | Statement::Addr { .. } => true,
    }
}

#[tactic(auto, unfolding(lapi_base::specs::Input::Reading::keeps_bytes))]
pub(crate) fn keeps_bytes(statement: &Statement) -> bool
    ensures { result ≡ keeps_bytes statement.now }
{
    match statement {
        Statement::Store { bytes, .. } => bytes.as_slice().len() <= MOST_STORED,
        Statement::Am { header, .. } => header.as_slice().len() <= MOST_USER_HEADER,
        Statement::Put { .. }
        | Statement::Get { .. }
        | Statement::Putv { .. }
        | Statement::Getv { .. }
        | Statement::Rmw { .. }
        | Statement::Wait { .. }
        | Statement::Set { .. }
        | Statement::Read { .. }
        | Statement::Fence
        | Statement::Gfence
        | Statement::Addr { .. } => true,
    }
}

#[tactic(auto, unfolding(lapi_base::specs::Input::Reading::keeps_injected))]
pub(crate) fn keeps_injected(act: &Act) -> bool
    ensures { result ≡ keeps_injected act.now }
{
    match act {
        Act::Inject { bytes, .. } => bytes.as_slice().len() <= MOST_INJECTED,
        _ => true,
    }
}

#[tactic(auto, unfolding(lapi_base::specs::Packet::Spelling::spells_packet))]
fn spells_packet(bytes: &[u8]) -> bool
    ensures { result ≡ spells_packet bytes.now }
{
    decode(bytes).is_ok()
}

/// Whether the tasks and the worker that a line names are there, and what it injects spells no
/// packet.
#[tactic(auto, unfolding(lapi_base::specs::Input::Reading::names_known))]
pub(crate) fn names_known(script: &Script, act: &Act) -> bool
    ensures { result ≡ names_known script.now act.now }
{
    let tasks = script.tasks;
    match act {
        Act::Step(t) | Act::Poll(t) | Act::Tick(t) => *t < tasks,
        Act::Deliver { a, b, .. } | Act::Cut { a, b, .. } => *a < tasks && *b < tasks,
        Act::Inject { a, b, bytes } => {
            *a < tasks && *b < tasks && !spells_packet(bytes.as_slice())
        }
        Act::Begin { task, worker } | Act::End { task, worker } => {
            *task < tasks && *worker < script.workers
        }
    }
}
