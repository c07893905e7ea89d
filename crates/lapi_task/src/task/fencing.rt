//! Whether a fence passes.
ghost use Rattle.std.specs.Prelude.{◌≡◌};
ghost use Rattle.lapi_base.specs.Record.Wires.{data_clear};
ghost use Rattle.lapi_task.specs.StandsFor.{ForEachRecord};

use crate::task::Task;

impl Task {
    /// Whether the data of every operation before the next statement are done. Only the first one that is not is
    /// looked at.
    pub(super) fn is_clear(&self) -> bool
        ensures { ForEachRecord self.now (λ script rules t r. result ≡ data_clear script r t self.now.state.next) }
    {
        self.unfinished.clear_before(self.state.next)
    }
}
