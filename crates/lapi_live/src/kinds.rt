//! Which lines of a schedule begin and end jobs.
ghost use Rattle.std.specs.Prelude.{◌≡◌, ◌<◌, length, slice_get, Some, IfOk};
ghost use Rattle.lapi_live.specs.Kinds.{kind_of, kinds_of};

use lapi_base::{Act, Line, Memory};
use std::alloc::Global;
use std::marker::Model;

/// Whether a line begins or ends a job, and of which worker.
#[derive(Clone, Copy, Debug)]
pub(crate) enum Kind {
    Plain,
    Begin { task: u32, worker: u32 },
    End { task: u32, worker: u32 },
}

/// The kind of each line of a schedule.
#[derive(Debug, Drop)]
pub(crate) struct Kinds {
    items: Vec<Kind>,
}

impl Model for Kinds {
    ghost use Rattle.std.specs.Prelude.{List};
    ghost use Rattle.lapi_live.specs.declared.kinds.Kind.{Kind};

    ghost Value = { List Kind };

    ghost view = { λ kinds. kinds.items.items };
}

impl Kinds {
    pub(crate) fn of(alloc: Global, schedule: &[Line]) -> Result<Kinds, Memory>
        ensures { IfOk result (λ kinds. kinds ≡ kinds_of schedule.now) }
    {
        let mut items = Vec::new(alloc);
        for line in schedule {
            items.push(kind_of(&line.act))?;
        }
        Ok(Kinds { items })
    }

    pub(crate) fn at(&self, n: u32) -> Kind
        requires { n < length self.now }
        ensures { slice_get self.now n ≡ Some result }
    {
        self.items[n as usize]
    }
}

fn kind_of(act: &Act) -> Kind
    ensures { result ≡ kind_of act.now }
{
    match act {
        Act::Begin { task, worker } => Kind::Begin {
            task: *task,
            worker: *worker,
        },
        Act::End { task, worker } => Kind::End {
            task: *task,
            worker: *worker,
        },
        Act::Step(_)
        | Act::Poll(_)
        | Act::Tick(_)
        | Act::Deliver { .. }
        | Act::Cut { .. }
        | Act::Inject { .. } => Kind::Plain,
    }
}
