//! The first two lines.

ghost use Rattle.std.specs.Prelude.{◌≡◌};
ghost use Rattle.lapi_base.specs.Input.Forms.{run, head_form, sizes_form};
ghost use Rattle.lapi_script.specs.Gives.{Gives};

use crate::fault::LineFault;
use crate::fields::{end, keyword, number};
use crate::words::Words;
use lapi_base::{Script, StatementLists};
use std::alloc::Global;

/// The layout.
#[tactic(auto, unfolding(lapi_base::specs::Input::Forms::head_form))]
pub(crate) fn head(words: &mut Words) -> Result<u32, LineFault>
    ensures { Gives (λ layout. layout) result (run head_form words.old) }
{
    keyword(words, b"lapi")?;
    let layout = number(words)?;
    end(words)?;
    Ok(layout)
}

/// A script of these sizes without tasks.
#[tactic(auto, unfolding(lapi_base::specs::Input::Forms::sizes_form))]
pub(crate) fn sizes(alloc: Global, layout: u32, words: &mut Words) -> Result<Script, LineFault>
    ensures { Gives (λ script. script) result (run (sizes_form layout) words.old) }
{
    keyword(words, b"tasks")?;
    let tasks = number(words)?;
    keyword(words, b"memory")?;
    let memory = number(words)?;
    keyword(words, b"counters")?;
    let counters = number(words)?;
    keyword(words, b"workers")?;
    let workers = number(words)?;
    end(words)?;
    Ok(Script {
        layout,
        tasks,
        memory,
        counters,
        workers,
        lists: StatementLists::new(alloc),
    })
}
