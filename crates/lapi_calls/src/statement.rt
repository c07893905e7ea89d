//! Kinds of statements, and what a statement names.
ghost use Rattle.std.specs.Prelude.{◌≡◌};
ghost use Rattle.lapi_base.specs.Record.Atomic as atomic;
ghost use Rattle.lapi_base.specs.Record.Operations as kinds;
ghost use Rattle.lapi_calls.specs.Calls.{peer_of};

use lapi_base::Statement;

/// Whether the statement is issued: a store, a set or a read, and each operation with data.
pub fn is_issued(statement: &Statement) -> bool
    ensures { result ≡ atomic.is_issued statement.now }
{
    match statement {
        Statement::Store { .. } | Statement::Set { .. } | Statement::Read { .. } => true,
        Statement::Put { .. }
        | Statement::Get { .. }
        | Statement::Putv { .. }
        | Statement::Getv { .. }
        | Statement::Rmw { .. }
        | Statement::Am { .. } => true,
        Statement::Wait { .. } | Statement::Fence | Statement::Gfence | Statement::Addr { .. } =>
            false,
    }
}

/// Whether the statement passes once what it waits for has come: a wait, a fence or a collective call.
pub fn is_passed(statement: &Statement) -> bool
    ensures { result ≡ atomic.is_passed statement.now }
{
    match statement {
        Statement::Wait { .. } | Statement::Fence | Statement::Gfence | Statement::Addr { .. } =>
            true,
        Statement::Store { .. }
        | Statement::Set { .. }
        | Statement::Read { .. }
        | Statement::Put { .. }
        | Statement::Get { .. }
        | Statement::Putv { .. }
        | Statement::Getv { .. }
        | Statement::Rmw { .. }
        | Statement::Am { .. } => false,
    }
}

/// Whether the statement is entered before it passes, and joins the other tasks: a collective call.
pub fn is_entered(statement: &Statement) -> bool
    ensures entered { result ≡ kinds.has_join statement.now }
    ensures joins { result ≡ kinds.has_join statement.now }
{
    matches!(statement, Statement::Gfence | Statement::Addr { .. })
}

/// Whether the statement moves data to or from a target.
pub fn is_data(statement: &Statement) -> bool
    ensures { result ≡ kinds.is_data statement.now }
{
    matches!(
        statement,
        Statement::Put { .. }
            | Statement::Get { .. }
            | Statement::Putv { .. }
            | Statement::Getv { .. }
            | Statement::Rmw { .. }
            | Statement::Am { .. }
    )
}

/// Whether the statement sends an active message.
pub fn is_message(statement: &Statement) -> bool
    ensures { result ≡ kinds.is_am statement.now }
{
    matches!(statement, Statement::Am { .. })
}

/// Whether the target sends something back: the bytes of a get, the old word of a read-modify-write.
pub fn has_back(statement: &Statement) -> bool
    ensures { result ≡ kinds.has_back statement.now }
{
    matches!(
        statement,
        Statement::Get { .. } | Statement::Getv { .. } | Statement::Rmw { .. }
    )
}

/// The target task of an operation with data.
pub fn target_of(statement: &Statement) -> Option<u32>
    ensures { result ≡ kinds.target_of statement.now }
{
    match statement {
        Statement::Put { target, .. }
        | Statement::Get { target, .. }
        | Statement::Putv { target, .. }
        | Statement::Getv { target, .. }
        | Statement::Rmw { target, .. }
        | Statement::Am { target, .. } => Some(*target),
        Statement::Store { .. }
        | Statement::Set { .. }
        | Statement::Read { .. }
        | Statement::Wait { .. }
        | Statement::Fence
        | Statement::Gfence
        | Statement::Addr { .. } => None,
    }
}

/// The task at which a call of this task works: its target, or the task itself.
pub fn peer(task: u32, statement: &Statement) -> u32
    ensures { result ≡ peer_of task statement.now }
{
    target_of(statement).unwrap_or(task)
}

/// The target counter that an operation names, if it names one.
pub fn target_counter(statement: &Statement) -> Option<u32>
    ensures { result ≡ kinds.tgt_counter statement.now }
{
    match statement {
        Statement::Put { tgt, .. }
        | Statement::Get { tgt, .. }
        | Statement::Putv { tgt, .. }
        | Statement::Getv { tgt, .. }
        | Statement::Am { tgt, .. } => *tgt,
        Statement::Rmw { .. }
        | Statement::Store { .. }
        | Statement::Set { .. }
        | Statement::Read { .. }
        | Statement::Wait { .. }
        | Statement::Fence
        | Statement::Gfence
        | Statement::Addr { .. } => None,
    }
}

/// The origin counter that an operation names, if it names one.
pub fn origin_counter(statement: &Statement) -> Option<u32>
    ensures { result ≡ kinds.org_counter statement.now }
{
    match statement {
        Statement::Put { org, .. }
        | Statement::Get { org, .. }
        | Statement::Putv { org, .. }
        | Statement::Getv { org, .. }
        | Statement::Rmw { org, .. }
        | Statement::Am { org, .. } => *org,
        Statement::Store { .. }
        | Statement::Set { .. }
        | Statement::Read { .. }
        | Statement::Wait { .. }
        | Statement::Fence
        | Statement::Gfence
        | Statement::Addr { .. } => None,
    }
}

/// The completion counter that an operation names, if it names one.
pub fn completion_counter(statement: &Statement) -> Option<u32>
    ensures { result ≡ kinds.cmpl_counter statement.now }
{
    match statement {
        Statement::Put { cmpl, .. } | Statement::Putv { cmpl, .. } | Statement::Am { cmpl, .. } => {
            *cmpl
        }
        Statement::Get { .. }
        | Statement::Getv { .. }
        | Statement::Rmw { .. }
        | Statement::Store { .. }
        | Statement::Set { .. }
        | Statement::Read { .. }
        | Statement::Wait { .. }
        | Statement::Fence
        | Statement::Gfence
        | Statement::Addr { .. } => None,
    }
}

/// The counter of a wait, a set or a read.
pub fn own_counter(statement: &Statement) -> Option<u32>
    ensures { result ≡ kinds.own_counter statement.now }
{
    match statement {
        Statement::Wait { counter, .. }
        | Statement::Set { counter, .. }
        | Statement::Read { counter } => Some(*counter),
        Statement::Store { .. }
        | Statement::Put { .. }
        | Statement::Get { .. }
        | Statement::Putv { .. }
        | Statement::Getv { .. }
        | Statement::Rmw { .. }
        | Statement::Am { .. }
        | Statement::Fence
        | Statement::Gfence
        | Statement::Addr { .. } => None,
    }
}
