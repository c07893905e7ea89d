ghost use Rattle.std.specs.Prelude.{◌≡◌, ℕ, ◌<◌, length, Some, OnOk};
ghost use Rattle.lapi_task.specs.Counting.{announced};

use lapi_base::Memory;
use lapi_counters::Counters;

/// Counts one event at the counter, if one is named. There is no time for 2^63 events.
pub fn announce(counters: &mut Counters, counter: Option<u32>) -> Result<(), Memory>
    requires { (c : ℕ) → counter ≡ Some c → c < length counters.old }
    ensures { OnOk result (counters.new ≡ announced counters.old counter) }
{
    if let Some(counter) = counter {
        if counters.get(counter) >= 1 << 63 {
            return Err(Memory);
        }
        counters.announce(counter);
    }
    Ok(())
}
