//! What comes before an event in its operation.
ghost use Rattle.std.specs.Prelude.{◌≡◌, true, length, slice_index_or};
ghost use Rattle.std.specs.List.{list_all};
ghost use Rattle.lapi_base.specs.Record.Atomic.{is_there, needs};
ghost use Rattle.lapi_base.specs.Record.Names.{key_of};
ghost use Rattle.lapi_base.specs.Record.Valid.{ValidScript};
ghost use Rattle.lapi_audit.specs.Noted.{stood, HasStates};
ghost use Rattle.lapi_audit.specs.Order as order;
ghost use Rattle.lapi_calls.specs.Setting.{rules_of, IsThere};

use crate::operation::Operation;
use crate::table::Table;
use lapi_base::{Event, Leg};
use lapi_calls::{Setting, is_go, is_message, place_of};

impl Operation {
    /// Whether the data may land, by what stood.
    fn may_land(&self, is_message: bool) -> bool
        ensures { result ≡ order.may_land self.now is_message }
    {
        self.issued && self.go.copied && (!is_message || self.headed)
    }

    /// Whether what follows the operation may be copied.
    fn may_follow(&self, is_message: bool, completes: bool) -> bool
        ensures { result ≡ order.may_follow self.now is_message completes }
    {
        (!completes || self.begun && self.ended) && self.go.landed && self.may_land(is_message)
    }

    /// Whether a message may be copied.
    fn may_copy(&self, is_message: bool, completes: bool, leg: Leg) -> bool
        ensures { result ≡ order.may_copy self.now is_message completes leg }
    {
        match leg {
            Leg::Go => self.issued,
            Leg::Join(_) => self.entered,
            Leg::Back | Leg::Note | Leg::Echo => self.may_follow(is_message, completes),
        }
    }

    /// Whether all stood that is earlier in the operation than the event.
    fn is_after(&self, is_message: bool, completes: bool, event: &Event) -> bool
        ensures { result ≡ order.is_after self.now is_message completes event.now }
    {
        match event {
            Event::Copy(name) => self.may_copy(is_message, completes, name.leg),
            Event::Head(name) => self.issued && self.transit(name.leg).copied,
            Event::Land(name) => match name.leg {
                Leg::Go => self.may_land(is_message),
                Leg::Back | Leg::Note | Leg::Echo | Leg::Join(_) => {
                    self.transit(name.leg).copied && self.may_copy(is_message, completes, name.leg)
                }
            },
            Event::Begin { name, .. } => {
                self.transit(name.leg).landed && self.may_land(is_message)
            }
            Event::End { name, .. } => {
                (!completes || is_go(name.leg) && self.begun)
                    && self.transit(name.leg).landed
                    && self.may_land(is_message)
            }
            Event::Issue { .. } | Event::Refuse { .. } | Event::Enter { .. } | Event::Pass { .. } =>
                true,
        }
    }
}

/// Whether all stood that is earlier in its operation than the event.
pub fn is_after(table: &Table, setting: &Setting<'_>, event: &Event) -> bool
    requires valid { ValidScript setting.now.script.now }
    requires states { HasStates setting.now.script.now table.now }
    requires there { IsThere setting.now event.now }
    ensures { result ≡ order.all_stood setting.now.script.now (rules_of setting.now) table.now event.now }
{
    let (task, i) = place_of(event);
    let statement = setting.of(event);
    let operation = table.get(task, i);
    operation.is_after(
        is_message(statement),
        setting.has_completion(statement),
        event,
    )
}
