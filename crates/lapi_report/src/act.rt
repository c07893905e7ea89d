//! What a schedule line does, as it is written.

ghost use Rattle.std.specs.Prelude.{◌≡◌, ◌≤◌, ◌+◌, ◌*◌, ◌++◌, length};
ghost use Rattle.std.specs.List.{flat_map};
ghost use Rattle.lapi_base.specs.Input.ActRows.{number_text, injected_text};
ghost use Rattle.lapi_base.specs.Input.Rows.{act_row, row_line};
ghost use Rattle.lapi_report.specs.SinkWrites.{WritesUpTo};

use crate::text_line::TextLine;
use lapi_base::Act;
use lapi_io::{Failed, Sink};

/// Adds the row of an act. Of bytes for which there is no room, the first are written at once.
pub(crate) fn add_act<K: Sink>(act: &Act, line: &mut TextLine, sink: &mut K) -> Result<(), Failed>
    requires { length line.old ≤ 100 }
    ensures written { WritesUpTo K.held K.faults K.room sink.old sink.new
        (line.old ++ row_line (act_row act.now)) line.new result }
    ensures short { length line.new ≤ 2048 }
{
    let row = act.row();
    line.text(row.word);
    add_numbers(row.numbers.as_slice(), line);
    add_injected(row.injected, line, sink)
}

/// Each number, behind a space.
fn add_numbers(numbers: &[u32], line: &mut TextLine)
    requires few { length numbers.now ≤ 4 }
    requires room { length line.old ≤ 200 }
    ensures text { line.new ≡ line.old ++ flat_map number_text numbers.now }
    ensures room { length line.new ≤ length line.old + 84 }
{
    for number in numbers {
        line.text(" ");
        line.number(u64::from(*number));
    }
}

/// The bytes that are injected, behind a space, if some are.
fn add_injected<K: Sink>(
    injected: Option<&[u8]>,
    line: &mut TextLine,
    sink: &mut K,
) -> Result<(), Failed>
    requires { length line.old ≤ 300 }
    ensures written { WritesUpTo K.held K.faults K.room sink.old sink.new
        (line.old ++ injected_text injected.entry) line.new result }
    ensures short { length line.new ≤ 2048 }
{
    match injected {
        None => Ok(()),
        Some([]) => {
            line.text(" -");
            Ok(())
        }
        Some(bytes) => {
            line.text(" ");
            line.long_hex(bytes, sink)
        }
    }
}
