//! The text of what a plan's operations got, and of the array that they leave.

ghost use Rattle.std.specs.Prelude.{◌≡◌, ℕ, ◌<◌, ◌+◌, ◌*◌, List, length, take, drop, slice_get, Some, IfOk};
ghost use Rattle.lapi_blocks.specs.declared.plan.Op.TheVariants.{Get};
ghost use Rattle.lapi_blocks.specs.Arrays.{patch_bytes};
ghost use Rattle.lapi_blocks.specs.Plans.{ValidPlan, patch_of, plain};
ghost use Rattle.lapi_array.specs.ArrayText.{AreLeft, HasBytes, part_bytes, row_bytes, row_line, got_from, got_words, got_text, got_at, array_text};
ghost use Rattle.lapi_array.specs.Parts.{IsOp};

use crate::part::{area, op_at};
use lapi_base::{Bytes, Memory};
use lapi_blocks::{Op, Patch, Plan};
use std::alloc::Global;

/// The text of a plan that was run, by the memory of each task as the run left it: a line for each get, in order, and
/// then one for each row of the array.
#[tactic(auto, using(crate::proofs::Listed::flat_first, crate::proofs::Listed::flat_more, crate::proofs::Listed::flat_none, crate::proofs::Listed::flat_behind))]
pub fn array_text(alloc: Global, plan: &Plan, memories: &[Bytes]) -> Result<Bytes, Memory>
    requires plan { ValidPlan plan.now }
    requires memories { AreLeft plan.now memories.now }
    ensures { IfOk result (λ text. text ≡ array_text plan.now) }
{
    let mut text = Vec::new(alloc);
    for k in 0..plan.ops.as_slice().len() as u32 {
        text.extend_from_slice(got_line(alloc, plan, memories, k)?.as_slice())?;
    }
    for row in 0..plan.p * plan.height {
        text.extend_from_slice(row_line(alloc, plan, memories, row)?.as_slice())?;
    }
    Ok(Bytes::from(text))
}

/// What operation `k` got, if it is a get.
fn got_line(alloc: Global, plan: &Plan, memories: &[Bytes], k: u32) -> Result<Bytes, Memory>
    requires plan { ValidPlan plan.now × (k < length plan.now.ops) }
    requires memories { AreLeft plan.now memories.now }
    ensures { IfOk result (λ line. line ≡ got_at plan.now k) }
{
    let op = op_at(plan, k);
    match op {
        Op::Set { .. } => Ok(Bytes::new(alloc)),
        Op::Get { .. } => {
            let line = got_text(alloc, k, &op.patch(), got(plan, memories, k, op))?;
            Ok(line)
        }
    }
}

/// That operation `k` got these bytes of a patch.
fn got_text(alloc: Global, k: u32, patch: &Patch, bytes: &[u8]) -> Result<Bytes, Memory>
    ensures { IfOk result (λ line. line ≡ got_text k patch.now bytes.now) }
{
    let front = got_from(alloc, k, patch.row, patch.col)?;
    let rest = got_words(alloc, patch.rows, patch.cols, bytes)?;
    let mut line = Vec::from_slice(alloc, front.as_slice())?;
    line.extend_from_slice(rest.as_slice())?;
    Ok(Bytes::from(line))
}

/// Where the patch of operation `k` begins.
fn got_from(alloc: Global, k: u32, row: u32, col: u32) -> Result<Bytes, Memory>
    ensures { IfOk result (λ text. text ≡ got_from k row col) }
{
    let text = format!(in alloc; "get {k} {row} {col}")?;
    Ok(Bytes::from(text.into_bytes()))
}

/// Its rows and columns, and its bytes.
fn got_words(alloc: Global, rows: u32, cols: u32, bytes: &[u8]) -> Result<Bytes, Memory>
    ensures { IfOk result (λ text. text ≡ got_words rows cols bytes.now) }
{
    let digits = hex::encode(alloc, bytes)?;
    let digits = digits.as_str();
    let text = format!(in alloc; " {rows} {cols} {digits}\n")?;
    Ok(Bytes::from(text.into_bytes()))
}

/// The bytes in the area of operation `k`: those that it got, if it is a get.
fn got<'a>(plan: &Plan, memories: &'a [Bytes], k: u32, op: &Op) -> &'a [u8]
    requires op { IsOp plan.now k op.now }
    requires memories { AreLeft plan.now memories.now }
    ensures { (task row col rows cols : ℕ) → op.now ≡ Get task row col rows cols
        → result.now ≡ patch_bytes (plain plan.now.ops k) (patch_of op.now) }
{
    let patch = op.patch();
    bytes_at(memories, patch.task, area(k), 4 * (patch.rows * patch.cols))
}

/// A row of the array.
fn row_line(alloc: Global, plan: &Plan, memories: &[Bytes], row: u32) -> Result<Bytes, Memory>
    requires plan { ValidPlan plan.now × (row < plan.now.p * plan.now.height) }
    requires memories { AreLeft plan.now memories.now }
    ensures { IfOk result (λ line. line ≡ row_line plan.now row) }
{
    let bytes = row_bytes(alloc, plan, memories, row)?;
    let digits = hex::encode(alloc, bytes.as_slice())?;
    let digits = digits.as_str();
    let line = format!(in alloc; "row {row} {digits}\n")?;
    Ok(Bytes::from(line.into_bytes()))
}

/// The bytes of a row of the array.
#[tactic(auto, using(crate::proofs::Stretches::no_parts, crate::proofs::Stretches::part_more))]
fn row_bytes(alloc: Global, plan: &Plan, memories: &[Bytes], row: u32) -> Result<Bytes, Memory>
    requires plan { ValidPlan plan.now × (row < plan.now.p * plan.now.height) }
    requires memories { AreLeft plan.now memories.now }
    ensures { IfOk result
        (λ bytes. bytes ≡ row_bytes (plain plan.now.ops (length plan.now.ops)) (plan.now.q * plan.now.width) row) }
{
    let mut bytes = Vec::new(alloc);
    for col in 0..plan.q {
        bytes.extend_from_slice(row_part(plan, memories, row, col))?;
    }
    Ok(Bytes::from(bytes))
}

/// Those of them that stand in column `col` of the grid.
fn row_part<'a>(plan: &Plan, memories: &'a [Bytes], row: u32, col: u32) -> &'a [u8]
    requires plan { ValidPlan plan.now × (row < plan.now.p * plan.now.height) × (col < plan.now.q) }
    requires memories { AreLeft plan.now memories.now }
    ensures { result.now ≡ part_bytes (plain plan.now.ops (length plan.now.ops)) plan.now.width col row }
{
    let task = (row / plan.height) * plan.q + col;
    let first = row % plan.height;
    bytes_at(memories, task, 4 * (first * plan.width), 4 * plan.width)
}

/// The bytes of a task's memory from a place on.
fn bytes_at(memories: &[Bytes], task: u32, at: u32, len: u32) -> &[u8]
    requires { HasBytes memories.now task (at + len) }
    ensures { (memory : List ℕ) → slice_get memories.now task ≡ Some memory
        → result.now ≡ take len (drop at memory) }
{
    let memory = memory_of(memories, task);
    let (_, rest) = memory.split_at(at as usize);
    let (bytes, _) = rest.split_at(len as usize);
    bytes
}

fn memory_of(memories: &[Bytes], task: u32) -> &[u8]
    requires { task < length memories.now }
    ensures { slice_get memories.now task ≡ Some result.now }
{
    memories[task as usize].as_slice()
}
