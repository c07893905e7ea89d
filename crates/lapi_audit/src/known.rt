//! The addresses that a task knows, by the events so far.
ghost use Rattle.std.specs.Prelude.{◌≡◌, ◌<◌, ℕ, length, Some, slice_get};
ghost use Rattle.lapi_base.specs.Record.Operations as operations;
ghost use Rattle.lapi_base.specs.Record.Operations.{statement, statements, table_rounds};
ghost use Rattle.lapi_audit.specs.Known.{known_to};
ghost use Rattle.lapi_audit.specs.Seen.{IsSeen};

use crate::rounds::Call;
use crate::waits::Seen;
use lapi_base::Statement;
use lapi_calls::Entries;

/// What task `task` knows: the addresses of the rounds whose call it has passed.
#[derive(Clone, Copy)]
pub struct Known<'a> {
    pub seen: Seen<'a>,
    pub task: u32,
}

impl Entries for Known<'_> {
    ghost valid = { λ known. IsSeen known.seen × (known.task < known.seen.setting.script.now.tasks) };

    ghost is_known = { λ known. known_to known };

    ghost given = { λ known. operations.entry known.seen.setting.script.now };

    fn knows(&self, round: u32) -> bool {
        match self.seen.table_round(self.task, round) {
            Some(i) => self.seen.table.get(self.task, i).passed,
            None => false,
        }
    }

    fn entry(&self, round: u32, task: u32) -> u32 {
        self.seen.entry(round, task)
    }
}

impl Seen<'_> {
    /// The statement of task `d` that is its address round of this number.
    fn table_round(&self, d: u32, round: u32) -> Option<u32>
        requires seen { IsSeen self.now }
        requires task { d < self.now.setting.script.now.tasks }
        ensures round { result ≡ slice_get (table_rounds self.now.setting.script.now d) round }
        ensures there { (j : ℕ) → result ≡ Some j → j < length (statements self.now.setting.script.now d) }
    {
        self.rounds.round(Call::Table, d, round as usize)
    }

    /// The address that task `d` gave in a round; 0 where it has no such round.
    fn entry(&self, round: u32, d: u32) -> u32
        requires seen { IsSeen self.now }
        ensures { result ≡ operations.entry self.now.setting.script.now round d }
    {
        if d >= self.setting.script.tasks {
            return 0;
        }
        match self.table_round(d, round) {
            Some(i) => self.given(d, i),
            None => 0,
        }
    }

    /// The address that a statement gives to all tasks; 0 where it gives none.
    fn given(&self, d: u32, i: u32) -> u32
        requires seen { IsSeen self.now }
        requires task { d < self.now.setting.script.now.tasks }
        requires there { i < length (statements self.now.setting.script.now d) }
        ensures { result ≡ operations.given_address (statement self.now.setting.script.now d i) }
    {
        match self.setting.at(d, i) {
            Statement::Addr { at } => *at,
            Statement::Store { .. }
            | Statement::Put { .. }
            | Statement::Get { .. }
            | Statement::Putv { .. }
            | Statement::Getv { .. }
            | Statement::Rmw { .. }
            | Statement::Am { .. }
            | Statement::Wait { .. }
            | Statement::Set { .. }
            | Statement::Read { .. }
            | Statement::Fence
            | Statement::Gfence => 0,
        }
    }
}
