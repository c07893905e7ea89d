//! The rows of a memory that a report shows.

ghost use Rattle.std.specs.Prelude.{◌≡◌, ◌==◌, ◌*◌, ◌≤◌, length, take, drop};
ghost use Rattle.std.specs.List.{list_all};
ghost use Rattle.lapi_base.specs.Output.ReportText.{memory_row_text, memory_text};
ghost use Rattle.lapi_io.specs.Writes.{Writes};

use crate::text_line::TextLine;
use lapi_io::{Failed, Sink};

/// A line for each 16 bytes that aren't all zero; the last of them may be fewer.
pub(crate) fn write_memory<K: Sink>(
    t: u32,
    bytes: &[u8],
    line: &mut TextLine,
    sink: &mut K,
) -> Result<(), Failed>
    ensures { Writes K.held K.faults K.room sink.old sink.new (memory_text t bytes.now) result }
{
    for k in 0..bytes.len().div_ceil(16) {
        write_row(t, 16 * k, row_at(bytes, 16 * k), line, sink)?;
    }
    Ok(())
}

/// The 16 bytes from a place on, or those to the end.
fn row_at(bytes: &[u8], at: usize) -> &[u8]
    requires { at ≤ length bytes.now }
    ensures row { result.now ≡ take 16 (drop at bytes.now) }
    ensures short { length result.now ≤ 16 }
{
    let (_, rest) = bytes.split_at(at);
    let (row, _) = rest.split_at(rest.len().min(16));
    row
}

fn is_zero(row: &[u8]) -> bool
    ensures { result ≡ list_all (λ b. b == 0) row.now }
{
    row.iter().all(|byte| *byte == 0)
}

fn write_row<K: Sink>(
    t: u32,
    at: usize,
    row: &[u8],
    line: &mut TextLine,
    sink: &mut K,
) -> Result<(), Failed>
    requires { length row.now ≤ 16 }
    ensures { Writes K.held K.faults K.room sink.old sink.new (memory_row_text t at row.now) result }
{
    if is_zero(row) {
        return Ok(());
    }
    line.begin("memory ");
    line.number(u64::from(t));
    line.text(" ");
    line.hex(&((at % 65_536) as u16).to_be_bytes());
    line.text(" ");
    line.hex(row);
    line.text("\n");
    line.write(sink)
}
