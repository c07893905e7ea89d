ghost use Rattle.std.specs.Prelude.{◌≡◌};
ghost use Rattle.lapi_views.specs.SinkWrites.{WritesWithMemory};

use lapi_base::WriteFault;
use lapi_io::{Sink, write_all};

/// Writes the text whole.
pub fn write_text<K: Sink>(text: &str, sink: &mut K) -> Result<(), WriteFault>
    ensures { WritesWithMemory K.held K.faults K.room sink.old sink.new text.now result }
{
    write_all(sink, text.as_bytes())?;
    Ok(())
}
