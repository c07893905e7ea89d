//! The rounds of collective calls that the tasks have joined, as far as one task knows.
ghost use Rattle.std.specs.Prelude.{◌≡◌, ◌≤◌, ◌<◌, nat_lt, ◌&&◌, None, cond, true, IfOk, length, unwrap_or};
ghost use Rattle.lapi_base.specs.Record.Operations.{has_join};
ghost use Rattle.lapi_collect.specs.declared.rounds.TheConstants as limits;
ghost use Rattle.lapi_collect.specs.Rounds.{is_complete, joined};
ghost use Rattle.lapi_task.specs.HasRounds.{IsNewCollective, MayJoin, JoinsBy, joins_like};

use lapi_base::{Head, Memory, Statement};
use lapi_calls::Entries;
use lapi_collect::{AddressTable, MOST_ROUNDS, Rounds};
use std::alloc::Global;

/// What a task knows of collective calls.
#[derive(Debug, Drop)]
pub struct Collective {
    /// Whether the next statement was entered.
    pub entered: bool,
    /// Who joined which fence over all tasks.
    pub fences: Rounds,
    /// Who gave which address.
    pub tables: AddressTable,
}

impl Collective {
    /// So many tasks, none of which joined a round.
    pub fn new(alloc: Global, tasks: u32) -> Result<Collective, Memory>
        requires { tasks ≤ 8 }
        ensures { IfOk result (IsNewCollective tasks) }
    {
        let fences = Rounds::new(alloc, tasks, MOST_ROUNDS)?;
        let tables = AddressTable::new(alloc, tasks, MOST_ROUNDS)?;
        Ok(Collective {
            entered: false,
            fences,
            tables,
        })
    }

    /// A task joins the round that the head names, if it names one.
    pub fn join(&mut self, task: u32, head: &Head)
        requires { MayJoin task head.now self.old }
        ensures { JoinsBy task head.now self.old self.new }
    {
        match head {
            Head::Gfence { round } => self.fences.join(task, *round, 0),
            Head::Addr { round, address } => self.tables.join(task, *round, *address),
            Head::Put { .. }
            | Head::Putv { .. }
            | Head::Am { .. }
            | Head::GetGo { .. }
            | Head::GetBack { .. }
            | Head::GetvGo { .. }
            | Head::GetvBack { .. }
            | Head::RmwGo { .. }
            | Head::RmwBack { .. }
            | Head::Note { .. }
            | Head::Echo { .. } => {}
        }
    }

    /// Whether every task joined this round of the statement's kind.
    pub fn is_complete(&self, statement: &Statement, round: u32) -> bool
        requires statement { has_join statement.now ≡ true }
        requires round { round < length (joins_like self.now statement.now).rounds }
        ensures { result ≡ is_complete (joins_like self.now statement.now) round }
    {
        match statement {
            Statement::Gfence => self.fences.complete(round),
            Statement::Addr { .. } => self.tables.complete(round),
            Statement::Store { .. }
            | Statement::Put { .. }
            | Statement::Get { .. }
            | Statement::Putv { .. }
            | Statement::Getv { .. }
            | Statement::Rmw { .. }
            | Statement::Am { .. }
            | Statement::Wait { .. }
            | Statement::Set { .. }
            | Statement::Read { .. }
            | Statement::Fence => unreachable!(),
        }
    }
}

impl Entries for Collective {
    ghost valid = { λ c. length c.tables.rounds ≡ limits.MOST_ROUNDS };

    ghost is_known = { λ c round. nat_lt round limits.MOST_ROUNDS && is_complete c.tables round };

    ghost given = { λ c round task. unwrap_or (cond (is_complete c.tables round) (joined c.tables task round) None) 0 };

    fn knows(&self, round: u32) -> bool {
        round < MOST_ROUNDS && self.tables.complete(round)
    }

    fn entry(&self, round: u32, task: u32) -> u32 {
        self.tables.entry(round, task).unwrap_or(0)
    }
}
