//! What several lines have in common.

ghost use Rattle.std.specs.Prelude.{◌≡◌, ◌≤◌, ◌+◌, ◌++◌, length};
ghost use Rattle.lapi_base.specs.Output.TextParts.{dotted, leg_text, message_text, refusal_text, reason_number, reason_name};

use crate::text_line::TextLine;
use lapi_base::{Leg, MsgName, Reason, Refusal};

/// A number of a task, as in `T.S`.
pub(crate) fn add_dotted(task: u32, number: u32, line: &mut TextLine)
    requires { length line.old + 41 ≤ 4096 }
    ensures text { line.new ≡ line.old ++ dotted task number }
    ensures room { length line.new ≤ length line.old + 41 }
{
    line.number(u64::from(task));
    line.text(".");
    line.number(u64::from(number));
}

fn add_leg(leg: Leg, line: &mut TextLine)
    requires { length line.old + 25 ≤ 4096 }
    ensures text { line.new ≡ line.old ++ leg_text leg }
    ensures room { length line.new ≤ length line.old + 25 }
{
    match leg {
        Leg::Go => line.text("go"),
        Leg::Back => line.text("back"),
        Leg::Note => line.text("note"),
        Leg::Echo => line.text("echo"),
        Leg::Join(task) => {
            line.text("join-");
            line.number(u64::from(task));
        }
    }
}

pub(crate) fn add_message(name: MsgName, line: &mut TextLine)
    requires { length line.old + 67 ≤ 4096 }
    ensures text { line.new ≡ line.old ++ message_text name }
    ensures room { length line.new ≤ length line.old + 67 }
{
    add_dotted(name.origin, name.statement, line);
    line.text(" ");
    add_leg(name.leg, line);
}

/// The number and the name of a refusal.
pub(crate) fn add_refusal(why: Refusal, line: &mut TextLine)
    requires { length line.old + 37 ≤ 4096 }
    ensures text { line.new ≡ line.old ++ refusal_text why }
    ensures room { length line.new ≤ length line.old + 37 }
{
    line.number(u64::from(why.number()));
    line.text(" ");
    line.text(why.name());
}

pub(crate) fn reason_number(reason: Reason) -> u64
    ensures { result ≡ reason_number reason }
{
    match reason {
        Reason::Short => 1,
        Reason::Long => 2,
        Reason::Magic => 3,
        Reason::Version => 4,
        Reason::Kind => 5,
        Reason::Task => 6,
        Reason::Field => 7,
        Reason::NotCanonical => 8,
    }
}

pub(crate) fn reason_name(reason: Reason) -> &'static str
    ensures name { result.now ≡ reason_name reason }
    ensures short { length result.now ≤ 12 }
{
    match reason {
        Reason::Short => "Short",
        Reason::Long => "Long",
        Reason::Magic => "Magic",
        Reason::Version => "Version",
        Reason::Kind => "Kind",
        Reason::Task => "Task",
        Reason::Field => "Field",
        Reason::NotCanonical => "NotCanonical",
    }
}
