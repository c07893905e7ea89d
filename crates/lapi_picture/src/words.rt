//! The words beside a row.

ghost use Rattle.std.specs.Prelude.{◌≡◌, ◌++◌, OnOk, codes};
ghost use Rattle.lapi_base.specs.Output.JournalText.{event_line};
ghost use Rattle.lapi_base.specs.Output.TextParts.{dotted, leg_text, message_text, reason_number};
ghost use Rattle.lapi_base.specs.Output.TraceText.{reply_text};
ghost use Rattle.lapi_picture.specs.Labels.{cargo_words, deed_numbers};

use crate::cargo::Cargo;
use crate::deed::Deed;
use lapi_base::{Event, Leg, Memory, MsgName, Reason, Reply};

/// What a packet says.
#[tactic(auto, unfolding(crate::specs::Labels::cargo_words))]
pub fn add_cargo(out: &mut String, cargo: Cargo) -> Result<(), Memory>
    ensures { OnOk result (out.new.bytes.items ≡ out.old.bytes.items ++ cargo_words cargo) }
{
    match cargo {
        Cargo::Data {
            name,
            seq,
            fragment,
        } => {
            out.push_str("data ")?;
            add_message(out, name)?;
            write!(out, " number {seq} fragment {fragment}")?;
        }
        Cargo::Ack { base } => write!(out, "acknowledgement below {base}")?,
        Cargo::Nothing => out.push_str("no packet")?,
    }
    Ok(())
}

/// The numbers of what a line of a schedule does.
#[tactic(auto, unfolding(crate::specs::Labels::deed_numbers))]
pub fn add_numbers(out: &mut String, deed: Deed) -> Result<(), Memory>
    ensures { OnOk result (out.new.bytes.items ≡ out.old.bytes.items ++ deed_numbers deed) }
{
    match deed {
        Deed::Step | Deed::Poll | Deed::Tick => {}
        Deed::Deliver { from, place } => write!(out, " from {from} entry {place}")?,
        Deed::Cut { from, place, count } => write!(out, " from {from} entry {place} to {count}")?,
        Deed::Inject { from } => write!(out, " from {from}")?,
        Deed::Begin { worker } | Deed::End { worker } => write!(out, " {worker}")?,
    }
    Ok(())
}

pub fn add_reply(out: &mut String, reply: Reply) -> Result<(), Memory>
    ensures { OnOk result (out.new.bytes.items ≡ out.old.bytes.items ++ reply_text reply) }
{
    match reply {
        Reply::Did => out.push_str("did")?,
        Reply::Blocked => out.push_str("blocked")?,
        Reply::Absent => out.push_str("absent")?,
        Reply::Idle => out.push_str("idle")?,
        Reply::Busy => out.push_str("busy")?,
        Reply::Bad(bad) => {
            let place = bad.place;
            let number = reason_number(bad.reason);
            write!(out, "bad {place} {number}")?;
        }
    }
    Ok(())
}

fn reason_number(reason: Reason) -> u64
    ensures { result ≡ reason_number reason }
{
    match reason {
        Reason::Short => 1,
        Reason::Long => 2,
        Reason::Magic => 3,
        Reason::Version => 4,
        Reason::Kind => 5,
        Reason::Task => 6,
        Reason::Field => 7,
        Reason::NotCanonical => 8,
    }
}

/// An event as the journal has it, its line feed too.
pub fn add_event(out: &mut String, event: Event) -> Result<(), Memory>
    ensures { OnOk result (out.new.bytes.items ≡ out.old.bytes.items ++ event_line event) }
{
    match event {
        Event::Issue { task, statement } => write!(out, "issue {task}.{statement}\n")?,
        Event::Refuse {
            task,
            statement,
            why,
        } => {
            let number = why.number();
            let name = why.name();
            write!(out, "refuse {task}.{statement} {number} {name}\n")?;
        }
        Event::Enter { task, statement } => write!(out, "enter {task}.{statement}\n")?,
        Event::Pass { task, statement } => write!(out, "pass {task}.{statement}\n")?,
        Event::Copy(name) => add_named(out, "copy ", name)?,
        Event::Head(name) => {
            let MsgName {
                origin,
                statement,
                ..
            } = name;
            write!(out, "head {origin}.{statement}\n")?;
        }
        Event::Land(name) => add_named(out, "land ", name)?,
        Event::Begin { name, task, worker } => add_job(out, "begin ", name, task, worker)?,
        Event::End { name, task, worker } => add_job(out, "end ", name, task, worker)?,
    }
    Ok(())
}

/// A word and a message.
fn add_named(out: &mut String, word: &str, name: MsgName) -> Result<(), Memory>
    ensures { OnOk result (out.new.bytes.items ≡ out.old.bytes.items ++ (word.now ++ message_text name ++ codes "\n")) }
{
    out.push_str(word)?;
    add_message(out, name)?;
    out.push_str("\n")?;
    Ok(())
}

/// A word, the statement whose job it is, and the worker that runs it.
fn add_job(
    out: &mut String,
    word: &str,
    name: MsgName,
    task: u32,
    worker: u32,
) -> Result<(), Memory>
    ensures { OnOk result (out.new.bytes.items ≡ out.old.bytes.items
        ++ (word.now ++ dotted name.origin name.statement ++ codes " " ++ dotted task worker ++ codes "\n")) }
{
    let MsgName {
        origin,
        statement,
        ..
    } = name;
    write!(out, "{word}{origin}.{statement} {task}.{worker}\n")?;
    Ok(())
}

fn add_message(out: &mut String, name: MsgName) -> Result<(), Memory>
    ensures { OnOk result (out.new.bytes.items ≡ out.old.bytes.items ++ message_text name) }
{
    let MsgName {
        origin,
        statement,
        leg,
    } = name;
    write!(out, "{origin}.{statement} ")?;
    add_leg(out, leg)
}

fn add_leg(out: &mut String, leg: Leg) -> Result<(), Memory>
    ensures { OnOk result (out.new.bytes.items ≡ out.old.bytes.items ++ leg_text leg) }
{
    match leg {
        Leg::Go => out.push_str("go")?,
        Leg::Back => out.push_str("back")?,
        Leg::Note => out.push_str("note")?,
        Leg::Echo => out.push_str("echo")?,
        Leg::Join(task) => write!(out, "join-{task}")?,
    }
    Ok(())
}
