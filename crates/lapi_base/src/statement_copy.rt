//! Copies of statements, field by field.
ghost use Rattle.std.specs.Prelude.{◌≡◌, IfOk};
ghost use Rattle.lapi_base.specs.declared.statement.Statement.TheVariants.{Store};
ghost use Rattle.lapi_base.specs.Record.Kinds.{IsPut, IsGet, IsPutv, IsGetv, IsRmw, IsAm};

use crate::bytes::Bytes;
use crate::memory::Memory;
use crate::statement::Statement;
use std::alloc::Global;

impl Statement {
    /// A copy of the statement.
    pub fn copy(&self, alloc: Global) -> Result<Statement, Memory>
        ensures { IfOk result (λ copy. copy ≡ self.now) }
    {
        Ok(match self {
            Statement::Store { at, bytes } => store(alloc, *at, bytes)?,
            Statement::Put { .. } => put(self),
            Statement::Get { .. } => get(self),
            Statement::Putv { .. } => putv(self),
            Statement::Getv { .. } => getv(self),
            Statement::Rmw { .. } => rmw(self),
            Statement::Am { .. } => am(alloc, self)?,
            &Statement::Wait { counter, value } => Statement::Wait { counter, value },
            &Statement::Set { counter, value } => Statement::Set { counter, value },
            &Statement::Read { counter } => Statement::Read { counter },
            &Statement::Addr { at } => Statement::Addr { at },
            Statement::Fence => Statement::Fence,
            Statement::Gfence => Statement::Gfence,
        })
    }
}

fn store(alloc: Global, at: u32, bytes: &Bytes) -> Result<Statement, Memory>
    ensures { IfOk result (λ copy. copy ≡ Store at bytes.now) }
{
    let bytes = bytes.copy(alloc)?;
    Ok(Statement::Store { at, bytes })
}

fn put(statement: &Statement) -> Statement
    requires { IsPut statement.now }
    ensures { result ≡ statement.now }
{
    let Statement::Put {
        target,
        to,
        from,
        len,
        tgt,
        org,
        cmpl,
    } = *statement
    else {
        unreachable!()
    };
    Statement::Put {
        target,
        to,
        from,
        len,
        tgt,
        org,
        cmpl,
    }
}

fn get(statement: &Statement) -> Statement
    requires { IsGet statement.now }
    ensures { result ≡ statement.now }
{
    let Statement::Get {
        target,
        from,
        to,
        len,
        tgt,
        org,
    } = *statement
    else {
        unreachable!()
    };
    Statement::Get {
        target,
        from,
        to,
        len,
        tgt,
        org,
    }
}

fn putv(statement: &Statement) -> Statement
    requires { IsPutv statement.now }
    ensures { result ≡ statement.now }
{
    let Statement::Putv {
        target,
        to,
        from,
        tgt,
        org,
        cmpl,
    } = statement
    else {
        unreachable!()
    };
    Statement::Putv {
        target: *target,
        to: to.copy(),
        from: from.copy(),
        tgt: *tgt,
        org: *org,
        cmpl: *cmpl,
    }
}

fn getv(statement: &Statement) -> Statement
    requires { IsGetv statement.now }
    ensures { result ≡ statement.now }
{
    let Statement::Getv {
        target,
        from,
        to,
        tgt,
        org,
    } = statement
    else {
        unreachable!()
    };
    Statement::Getv {
        target: *target,
        from: from.copy(),
        to: to.copy(),
        tgt: *tgt,
        org: *org,
    }
}

fn rmw(statement: &Statement) -> Statement
    requires { IsRmw statement.now }
    ensures { result ≡ statement.now }
{
    let Statement::Rmw {
        target,
        op,
        at,
        in1,
        in2,
        prev,
        org,
    } = *statement
    else {
        unreachable!()
    };
    Statement::Rmw {
        target,
        op,
        at,
        in1,
        in2,
        prev,
        org,
    }
}

fn am(alloc: Global, statement: &Statement) -> Result<Statement, Memory>
    requires { IsAm statement.now }
    ensures { IfOk result (λ copy. copy ≡ statement.now) }
{
    let Statement::Am {
        target,
        handler,
        header,
        from,
        len,
        tgt,
        org,
        cmpl,
    } = statement
    else {
        unreachable!()
    };
    Ok(Statement::Am {
        target: *target,
        handler: *handler,
        header: header.copy(alloc)?,
        from: *from,
        len: *len,
        tgt: *tgt,
        org: *org,
        cmpl: *cmpl,
    })
}
