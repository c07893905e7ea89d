//! Names of messages, and where events lie.
ghost use Rattle.std.specs.Prelude.{◌≡◌};
ghost use Rattle.lapi_base.specs.Record.Names.{leg_eq, key_of};
ghost use Rattle.lapi_base.specs.declared.message.Leg.TheVariants.{Go};
ghost use Rattle.lapi_calls.specs.Places.{task_of, statement_of};
ghost use Rattle.lapi_calls.specs.Setting.{target_by, receiver_by};

use crate::statement::target_of;
use lapi_base::{Event, Leg, MsgName, Statement};

/// Whether this is the leg Go.
pub fn is_go(leg: Leg) -> bool
    ensures { result ≡ leg_eq leg Go }
{
    matches!(leg, Leg::Go)
}

/// The task to which a message of this statement goes.
pub fn receiver(name: MsgName, statement: &Statement) -> u32
    ensures { result ≡ receiver_by name statement.now }
{
    match name.leg {
        Leg::Go => target(name, statement),
        Leg::Join(to) => to,
        Leg::Back | Leg::Note | Leg::Echo => name.origin,
    }
}

/// The task at which the operation of a message works: its target, or its own task.
pub fn target(name: MsgName, statement: &Statement) -> u32
    ensures { result ≡ target_by name statement.now }
{
    target_of(statement).unwrap_or(name.origin)
}

/// The task and the number of the statement at which an event lies.
pub fn place_of(event: &Event) -> (u32, u32)
    ensures task { result.0 ≡ task_of (key_of event.now) }
    ensures statement { result.1 ≡ statement_of (key_of event.now) }
{
    match event {
        Event::Issue { task, statement }
        | Event::Refuse {
            task,
            statement,
            ..
        }
        | Event::Enter { task, statement }
        | Event::Pass { task, statement } => (*task, *statement),
        Event::Copy(name)
        | Event::Head(name)
        | Event::Land(name)
        | Event::Begin { name, .. }
        | Event::End { name, .. } => (name.origin, name.statement),
    }
}
