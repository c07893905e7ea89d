//! The scripts that plans compile to.
ghost use Rattle.lapi_blocks.specs.Plans.{ScriptsAreValid, ScriptsAreShort};

/// The script of a valid plan is valid, and each task has at most ten statements for each operation.
pub fn scripts_are_valid()
    ensures valid { ScriptsAreValid }
    ensures short { ScriptsAreShort }
{}
