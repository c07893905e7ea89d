//! Why a statement is refused.
ghost use Rattle.std.specs.Prelude.{◌≡◌, ◌%◌, ◌==◌, ◌||◌, ◌&&◌, not, nat_lt, true, length, option_to_list, None};
ghost use Rattle.std.specs.List.{list_any, zip};
ghost use Rattle.lapi_base.specs.Record.Atomic.{has_statement};
ghost use Rattle.lapi_base.specs.Record.Handlers.{handler_of};
ghost use Rattle.lapi_base.specs.Record.Operations as operations;
ghost use Rattle.lapi_base.specs.Record.Refusals as refusals;
ghost use Rattle.lapi_base.specs.Record.Refusals.{option_any, counters_of};
ghost use Rattle.lapi_base.specs.Record.Valid.{ValidScript, ValidStatement};
ghost use Rattle.lapi_calls.specs.Entries.{AreGiven};
ghost use Rattle.lapi_calls.specs.Reasons as reasons;
ghost use Rattle.lapi_calls.specs.Calls.{MaySend};
ghost use Rattle.lapi_calls.specs.Reasons.{why_told, IsRefusal, IsRefusalAfter};
ghost use Rattle.lapi_calls.specs.Setting.{HasStatement};

use crate::entries::Entries;
use crate::limits::Limits;
use crate::pieces::{origins, targets};
use crate::reach::Reaches;
use crate::setting::Setting;
use crate::statement::{
    completion_counter, origin_counter, own_counter, peer, target_counter, target_of,
};
use lapi_base::{Refusal, Statement, Vector};

/// Why a call of a task is refused, if it is, where the task knows these addresses: the first reason that
/// applies, in the order of `Refusal`.
pub fn refusal_of<E: Entries>(
    limits: &Limits,
    entries: &E,
    task: u32,
    statement: &Statement,
) -> Option<Refusal>
    requires asked { E.valid entries.now }
    requires statement { ValidStatement statement.now }
    ensures told { IsRefusal limits.now (E.is_known entries.now) (E.given entries.now) task statement.now result }
    ensures after { IsRefusalAfter limits.now (E.is_known entries.now) (E.given entries.now) task statement.now result }
    ensures sendable { result ≡ None → MaySend limits.now (E.is_known entries.now) (E.given entries.now) task statement.now }
{
    reason_by_reach(limits, entries, task, statement)
}

/// Why statement `i` of a task is refused, if it is, where the task knows these addresses.
pub fn why_refused<E: Entries>(
    setting: &Setting<'_>,
    entries: &E,
    task: u32,
    i: u32,
) -> Option<Refusal>
    requires script { ValidScript setting.now.script.now }
    requires there { HasStatement setting.now task i }
    requires asked { E.valid entries.now }
    requires given { AreGiven setting.now.script.now (E.is_known entries.now) (E.given entries.now) }
    ensures { result ≡ why_told setting.now (E.is_known entries.now) task i }
{
    refusal_of(&setting.limits(), entries, task, setting.at(task, i))
}

/// The first reason that applies, by where the pieces lie.
fn reason_by_reach<E: Entries>(
    limits: &Limits,
    entries: &E,
    task: u32,
    statement: &Statement,
) -> Option<Refusal>
    requires asked { E.valid entries.now }
    requires statement { ValidStatement statement.now }
    ensures { result ≡ reasons.reason_by_reach limits.now (E.is_known entries.now) (E.given entries.now) task statement.now }
{
    let target = peer(task, statement);
    let to = targets(entries, target, statement);
    let from = origins(entries, target, statement);
    first_reason(&tests(limits, statement, &to, &from))
}

/// The reasons in their order, with the tests that tell which apply.
fn tests(
    limits: &Limits,
    statement: &Statement,
    to: &Reaches,
    from: &Reaches,
) -> [(bool, Refusal); 12]
    ensures { result ≡ reasons.reach_tests limits.now to.now from.now statement.now }
{
    let memory = limits.memory;
    [
        (lacks_task(limits.tasks, statement), Refusal::BadTask),
        (to.any_outside(memory), Refusal::BadTargetRange),
        (from.any_beyond(memory), Refusal::BadOriginRange),
        (
            misses_counter(limits.counters, statement),
            Refusal::BadCounter,
        ),
        (is_too_long(limits, statement, to, from), Refusal::TooLong),
        (to.any_unknown(), Refusal::NoTable),
        (
            lacks_handler(limits.headers, statement),
            Refusal::BadHandler,
        ),
        (has_bad_header(statement), Refusal::BadUserHeader),
        (counts_differ(statement, to, from), Refusal::VecCount),
        (lengths_differ(statement, to, from), Refusal::VecLength),
        (is_stride_short(statement), Refusal::StrideBelowBlock),
        (is_misaligned(statement, to, from), Refusal::Misaligned),
    ]
}

/// Whether the header handler isn't there.
fn lacks_handler(handlers: usize, statement: &Statement) -> bool
    ensures { result ≡ (operations.is_am statement.now && not (nat_lt (handler_of statement.now) handlers)) }
{
    let Statement::Am { handler, .. } = statement else {
        return false;
    };
    *handler as usize >= handlers
}

/// Whether a counter is named that isn't there.
fn misses_counter(counters: u32, statement: &Statement) -> bool
    ensures { result ≡ list_any (λ c. not (nat_lt c counters)) (counters_of statement.now) }
{
    let own = is_missing(counters, own_counter(statement));
    let target = is_missing(counters, target_counter(statement));
    let origin = is_missing(counters, origin_counter(statement));
    let completion = is_missing(counters, completion_counter(statement));
    any_of(own, target, origin, completion)
}

fn any_of(a: bool, b: bool, c: bool, d: bool) -> bool
    ensures { result ≡ (((a || b) || c) || d) }
{
    a || b || c || d
}

/// Whether this counter is named and isn't there.
fn is_missing(counters: u32, counter: Option<u32>) -> bool
    ensures { result ≡ list_any (λ c. not (nat_lt c counters)) (option_to_list counter) }
{
    match counter {
        Some(counter) => counter >= counters,
        None => false,
    }
}

/// Whether the target isn't there.
fn lacks_task(tasks: u32, statement: &Statement) -> bool
    ensures { result ≡ option_any (λ t. not (nat_lt t tasks)) (operations.target_of statement.now) }
{
    match target_of(statement) {
        Some(target) => target >= tasks,
        None => false,
    }
}

/// Whether the message is longer than its layout allows, in bytes; a vector, on either side.
fn is_too_long(limits: &Limits, statement: &Statement, to: &Reaches, from: &Reaches) -> bool
    ensures { result ≡ reasons.long_by limits.now to.now from.now statement.now }
{
    match statement {
        Statement::Put { len, .. } | Statement::Get { len, .. } => *len > limits.longest,
        Statement::Am { len, .. } => *len > limits.longest_active,
        Statement::Putv { .. } | Statement::Getv { .. } => {
            to.total() > limits.longest as u64 || from.total() > limits.longest as u64
        }
        Statement::Store { .. }
        | Statement::Rmw { .. }
        | Statement::Wait { .. }
        | Statement::Set { .. }
        | Statement::Read { .. }
        | Statement::Fence
        | Statement::Gfence
        | Statement::Addr { .. } => false,
    }
}

/// Whether the user header is longer than 64 bytes, or no whole number of words.
fn has_bad_header(statement: &Statement) -> bool
    ensures { result ≡ reasons.header_is_bad statement.now }
{
    let Statement::Am { header, .. } = statement else {
        return false;
    };
    let len = header.as_slice().len();
    len > 64 || len % 4 != 0
}

/// Whether the pieces are given by two vectors.
fn is_vector(statement: &Statement) -> bool
    ensures { result ≡ refusals.is_vector statement.now }
{
    matches!(statement, Statement::Putv { .. } | Statement::Getv { .. })
}

/// Whether two vectors have different counts of pieces.
fn counts_differ(statement: &Statement, to: &Reaches, from: &Reaches) -> bool
    ensures { result ≡ (refusals.is_vector statement.now && not (length to.now == length from.now)) }
{
    is_vector(statement) && to.len() != from.len()
}

/// Whether two pieces that belong together have different lengths.
fn lengths_differ(statement: &Statement, to: &Reaches, from: &Reaches) -> bool
    ensures { result ≡ reasons.lengths_differ to.now from.now statement.now }
{
    is_vector(statement) && to.differs(from)
}

/// Whether the pieces of a stride overlap.
fn is_below_block(vector: &Vector) -> bool
    ensures { result ≡ refusals.below_block vector.now }
{
    match vector {
        Vector::List(_) => false,
        Vector::Stride { block, stride, .. } => stride < block,
    }
}

/// Whether a vector's stride is shorter than its block.
fn is_stride_short(statement: &Statement) -> bool
    ensures { result ≡ refusals.stride_below_block statement.now }
{
    match statement {
        Statement::Putv { to, from, .. } => is_below_block(to) || is_below_block(from),
        Statement::Getv { from, to, .. } => is_below_block(to) || is_below_block(from),
        Statement::Put { .. }
        | Statement::Get { .. }
        | Statement::Am { .. }
        | Statement::Store { .. }
        | Statement::Rmw { .. }
        | Statement::Wait { .. }
        | Statement::Set { .. }
        | Statement::Read { .. }
        | Statement::Fence
        | Statement::Gfence
        | Statement::Addr { .. } => false,
    }
}

/// Whether a word that is read and modified, or the place for its old value, isn't at a multiple of 4.
fn is_misaligned(statement: &Statement, to: &Reaches, from: &Reaches) -> bool
    ensures { result ≡ reasons.is_misplaced to.now from.now statement.now }
{
    matches!(statement, Statement::Rmw { .. }) && (to.any_misaligned() || from.any_misaligned())
}

/// The first reason whose test holds.
#[tactic(auto, unfolding(lapi_base::specs::Record::Refusals::first_reason))]
fn first_reason(tests: &[(bool, Refusal)]) -> Option<Refusal>
    ensures { result ≡ refusals.first_reason tests.now }
{
    let mut rest = tests;
    while let [(applies, why), others @ ..] = rest {
        if *applies {
            return Some(*why);
        }
        rest = others;
    }
    None
}
