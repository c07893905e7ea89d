ghost use Rattle.std.specs.Prelude.{◌≡◌};
ghost use Rattle.lapi_calls.specs.Limits.{limits_of};

use lapi_base::Script;

/// The limits of a script by which its statements are refused. A task keeps these, and its own statements.
#[derive(Clone, Copy, Debug, Eq, PartialEq)]
pub struct Limits {
    /// How many tasks there are.
    pub tasks: u32,
    /// The bytes of each task's memory.
    pub memory: u32,
    /// How many counters each task has.
    pub counters: u32,
    /// The bytes of the longest message that isn't an active message, and of the longest active message.
    pub longest: u32,
    pub longest_active: u32,
    /// How many header handlers there are.
    pub headers: usize,
}

impl Limits {
    /// The limits of this script, with so many header handlers.
    pub fn of(script: &Script, headers: usize) -> Limits
        ensures { result ≡ limits_of script.now headers }
    {
        Limits {
            tasks: script.tasks,
            memory: script.memory,
            counters: script.counters,
            longest: script.longest(),
            longest_active: script.longest_active(),
            headers,
        }
    }
}
