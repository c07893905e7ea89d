ghost use Rattle.std.specs.Prelude.{◌≡◌, ℕ, ◌<◌, ◌≤◌, ◌==◌, ◌&&◌, IfOk, cond, Some, None, true, false, length};
ghost use Rattle.lapi_collect.specs.Rounds.{joined, is_complete};

use lapi_base::Memory;
use std::alloc::Global;
use std::marker::Model;

/// The most rounds of one kind: as many as a task may have statements.
pub const MOST_ROUNDS: u32 = 512;

/// One round: bit t of `joined` tells whether task t joined, and `values` with which value.
#[derive(Clone, Copy, Debug)]
struct Round {
    joined: u8,
    values: [u32; 8],
}

/// Which task joined which round, and with which value.
#[derive(Debug, Drop)]
pub struct Rounds {
    tasks: u32,
    rounds: Vec<Round>,
}

/// The rounds in which the tasks tell one another an address.
pub type AddressTable = Rounds;

impl Model for Rounds {
    ghost use Rattle.lapi_collect.specs.Rounds.{Joins, joins_of, AreRounds};

    ghost Value = { Joins };

    ghost view = { λ r. joins_of r.tasks r.rounds.items };

    ghost invariant = { λ r. AreRounds r.tasks r.rounds.items };
}

impl Rounds {
    /// So many rounds of so many tasks, which no task joined.
    pub fn new(alloc: Global, tasks: u32, rounds: u32) -> Result<Rounds, Memory>
        requires { tasks ≤ 8 }
        ensures size { IfOk result (λ made. (made.tasks ≡ tasks) × (length made.rounds ≡ rounds)) }
        ensures none { IfOk result (λ made. (task round : ℕ) → joined made task round ≡ None) }
    {
        let unjoined = Round {
            joined: 0,
            values: [0; 8],
        };
        let rounds = vec![in alloc; unjoined; rounds as usize]?;
        Ok(Rounds { tasks, rounds })
    }

    /// Notes that a task joined a round.
    pub fn join(&mut self, task: u32, round: u32, value: u32)
        requires known { (task < self.old.tasks) × (round < length self.old.rounds) }
        requires first { joined self.old task round ≡ None }
        ensures joined { (t r : ℕ) → joined self.new t r ≡ cond (t == task && r == round) (Some value) (joined self.old t r) }
        ensures size { (self.new.tasks ≡ self.old.tasks) × (length self.new.rounds ≡ length self.old.rounds) }
    {
        let row = &mut self.rounds[round as usize];
        row.joined |= 1 << task;
        row.values[task as usize] = value;
    }

    /// Whether every task joined the round.
    pub fn complete(&self, round: u32) -> bool
        requires { round < length self.now.rounds }
        ensures { result ≡ is_complete self.now round }
    {
        self.rounds[round as usize].joined as u32 == (1 << self.tasks) - 1
    }

    /// The value with which the task joined the round, once every task joined it. None where there is no such task or round.
    pub fn entry(&self, round: u32, task: u32) -> Option<u32>
        ensures { result ≡ cond (is_complete self.now round) (joined self.now task round) None }
    {
        if !self.has(task, round) {
            return None;
        }
        if self.complete(round) {
            Some(self.rounds[round as usize].values[task as usize])
        } else {
            None
        }
    }

    /// Whether there are such a task and such a round.
    fn has(&self, task: u32, round: u32) -> bool
        ensures known { result ≡ true → (task < self.now.tasks) × (round < length self.now.rounds) }
        ensures none { result ≡ false → joined self.now task round ≡ None }
    {
        task < self.tasks && (round as usize) < self.rounds.len()
    }
}
