//! The blocks of a plan, and the parts of a patch that lie in them.

ghost use Rattle.std.specs.Prelude.{◌≡◌, ◌≤◌, ◌<◌, length, slice_get, Some};
ghost use Rattle.lapi_blocks.specs.Plans.{ValidPlan, IsWithin, tasks_of, block_row, block_col, part_of, is_nonempty, byte_at, block_side, area_side, area, patch_of};
ghost use Rattle.lapi_array.specs.Parts.{IsPart};

use lapi_base::{Addr, Vector};
use lapi_blocks::{Op, Patch, Plan};

/// Where the area of the first operation begins.
const AREAS: u32 = 16_384;

/// The bytes of an area.
const AREA: u32 = 1024;

/// How many tasks the grid has.
pub fn tasks(plan: &Plan) -> u32
    requires { ValidPlan plan.now }
    ensures { result ≡ tasks_of plan.now }
{
    plan.p * plan.q
}

/// The first row that a task owns.
pub fn block_row(plan: &Plan, task: u32) -> u32
    requires { ValidPlan plan.now × (task < tasks_of plan.now) }
    ensures row { result ≡ block_row plan.now task }
    ensures few { result ≤ 112 }
{
    (task / plan.q) * plan.height
}

/// The first column that it owns.
pub fn block_col(plan: &Plan, task: u32) -> u32
    requires { ValidPlan plan.now × (task < tasks_of plan.now) }
    ensures col { result ≡ block_col plan.now task }
    ensures few { result ≤ 1792 }
{
    (task % plan.q) * plan.width
}

/// The part of a patch that lies in the block of task `task`; it may have no word.
pub fn part_of(plan: &Plan, patch: &Patch, task: u32) -> Patch
    requires plan { ValidPlan plan.now × (task < tasks_of plan.now) }
    requires patch { IsWithin plan.now patch.now }
    ensures { result ≡ part_of plan.now patch.now task }
{
    let first_row = block_row(plan, task);
    let first_col = block_col(plan, task);
    let row = patch.row.max(first_row);
    let col = patch.col.max(first_col);
    let lower = (patch.row + patch.rows).min(first_row + plan.height);
    let right = (patch.col + patch.cols).min(first_col + plan.width);
    Patch {
        task,
        row,
        col,
        rows: lower.saturating_sub(row),
        cols: right.saturating_sub(col),
    }
}

/// Whether a patch has a word.
pub fn is_nonempty(patch: &Patch) -> bool
    ensures { result ≡ is_nonempty patch.now }
{
    patch.rows > 0 && patch.cols > 0
}

/// Where the word in this row and column stands, where rows of so many words follow each other.
fn place(width: u32, row: u32, col: u32) -> u32
    requires { byte_at width row col 0 ≤ 65536 }
    ensures { result ≡ byte_at width row col 0 }
{
    4 * (row * width + col)
}

/// The address of the area of operation `k`.
pub fn area(k: u32) -> u32
    requires { k < 48 }
    ensures { result ≡ area k }
{
    AREAS + AREA * k
}

/// Where a part stands in its block.
pub fn block_side(plan: &Plan, k: u32, op: &Op, part: &Patch) -> Vector
    requires { IsPart plan.now k op.now part.now }
    ensures { result ≡ block_side plan.now part.now }
{
    let row = part.row - block_row(plan, part.task);
    let col = part.col - block_col(plan, part.task);
    Vector::Stride {
        base: Addr::Plain(place(plan.width, row, col)),
        block: 4 * part.cols,
        stride: 4 * plan.width,
        count: part.rows,
    }
}

/// Where it stands in the area of operation `k`.
pub fn area_side(plan: &Plan, k: u32, op: &Op, part: &Patch) -> Vector
    requires { IsPart plan.now k op.now part.now }
    ensures { result ≡ area_side k (patch_of op.now) part.now }
{
    let whole = op.patch();
    let base = place(whole.cols, part.row - whole.row, part.col - whole.col);
    Vector::Stride {
        base: Addr::Plain(area(k) + base),
        block: 4 * part.cols,
        stride: 4 * whole.cols,
        count: part.rows,
    }
}

/// Operation `k` of a plan.
pub fn op_at(plan: &Plan, k: u32) -> &Op
    requires { k < length plan.now.ops }
    ensures { slice_get plan.now.ops k ≡ Some result.now }
{
    &plan.ops.as_slice()[k as usize]
}
