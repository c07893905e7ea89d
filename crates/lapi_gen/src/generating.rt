ghost use Rattle.std.specs.Prelude.{◌≡◌, IfOk};
ghost use Rattle.lapi_base.specs.Packet.Spelling.{spells_packet};
ghost use Rattle.lapi_base.specs.Record.Valid.{ValidScript, ValidSchedule};
ghost use Rattle.lapi_gen.specs.Inputs.{generated_input};

use crate::draws::Draws;
use crate::schedule::schedule;
use crate::script::script;
use lapi_base::{Input, Memory};
use std::alloc::Global;

/// Makes the input of a number: five tasks, each with stores and then calls that are drawn from it, and lines that bring
/// all their messages home, some of them late.
pub fn generate(alloc: Global, number: u32) -> Result<Input, Memory>
    ensures input { IfOk result (λ input. input ≡ generated_input number) }
    ensures valid { IfOk result (λ x. ValidScript x.script × ValidSchedule x.script spells_packet x.schedule) }
{
    let draws = Draws::new(alloc, number)?;
    Ok(Input {
        script: script(alloc, &draws)?,
        schedule: schedule(alloc, &draws)?,
    })
}
