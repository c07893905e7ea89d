//! The lines of events.

ghost use Rattle.std.specs.Prelude.{◌≡◌, ◌==◌, ◌&&◌};
ghost use Rattle.lapi_base.specs.declared.event.Event.TheVariants.{Issue, Enter, Pass, Copy, Head, Land, Begin, End};
ghost use Rattle.lapi_base.specs.Input.AuditForms.{refusals, refusal_among, statement_event_form, refuse_form, message_event_form, request_event_form, job_event_form, event_form, event_line_form};
ghost use Rattle.lapi_base.specs.Input.Forms.{run};
ghost use Rattle.lapi_base.specs.declared.message.Leg.TheVariants.{Go};
ghost use Rattle.lapi_base.specs.Record.Names.{message};
ghost use Rattle.lapi_base.specs.Input.Tokens.{same_text};
ghost use Rattle.lapi_base.specs.Output.TextParts.{refusal_number, refusal_name};
ghost use Rattle.lapi_script.specs.Gives.{Gives};

use crate::fault::{LineFault, syntax};
use crate::fields::{dotted, end, leg, number, word};
use crate::words::{Words, is_text};
use lapi_base::{Event, Leg, MsgName, Refusal};

const REFUSALS: [Refusal; 12] = [
    Refusal::BadTask,
    Refusal::BadTargetRange,
    Refusal::BadOriginRange,
    Refusal::BadCounter,
    Refusal::TooLong,
    Refusal::NoTable,
    Refusal::BadHandler,
    Refusal::BadUserHeader,
    Refusal::VecCount,
    Refusal::VecLength,
    Refusal::StrideBelowBlock,
    Refusal::Misaligned,
];

#[tactic(auto, unfolding(lapi_base::specs::Input::AuditForms::statement_event_form))]
fn issue(words: &mut Words) -> Result<Event, LineFault>
    ensures { Gives (λ e. e) result (run (statement_event_form (λ t s. Issue t s)) words.old) }
{
    let (task, statement) = dotted(words)?;
    end(words)?;
    Ok(Event::Issue { task, statement })
}

#[tactic(auto, unfolding(lapi_base::specs::Input::AuditForms::statement_event_form))]
fn enter(words: &mut Words) -> Result<Event, LineFault>
    ensures { Gives (λ e. e) result (run (statement_event_form (λ t s. Enter t s)) words.old) }
{
    let (task, statement) = dotted(words)?;
    end(words)?;
    Ok(Event::Enter { task, statement })
}

#[tactic(auto, unfolding(lapi_base::specs::Input::AuditForms::statement_event_form))]
fn pass(words: &mut Words) -> Result<Event, LineFault>
    ensures { Gives (λ e. e) result (run (statement_event_form (λ t s. Pass t s)) words.old) }
{
    let (task, statement) = dotted(words)?;
    end(words)?;
    Ok(Event::Pass { task, statement })
}

/// Whether the refusal has this number and this name.
fn is_named(why: Refusal, number: u32, name: &[u8]) -> bool
    ensures { result ≡ (number == refusal_number why && same_text name.now (refusal_name why)) }
{
    number == why.number() && is_text(name, why.name().as_bytes())
}

/// The refusal that has this number and this name.
fn refusal_of(number: u32, name: &[u8]) -> Option<Refusal>
    ensures { result ≡ refusal_among refusals number name.now }
{
    for why in &REFUSALS {
        if is_named(*why, number, name) {
            return Some(*why);
        }
    }
    None
}

#[tactic(auto, unfolding(lapi_base::specs::Input::AuditForms::refuse_form))]
fn refuse(words: &mut Words) -> Result<Event, LineFault>
    ensures { Gives (λ e. e) result (run refuse_form words.old) }
{
    let (task, statement) = dotted(words)?;
    let n = number(words)?;
    let name = word(words)?;
    match refusal_of(n, name) {
        None => Err(syntax()),
        Some(why) => {
            end(words)?;
            Ok(Event::Refuse {
                task,
                statement,
                why,
            })
        }
    }
}

#[tactic(auto, unfolding(lapi_base::specs::Input::AuditForms::message_event_form))]
fn copy(words: &mut Words) -> Result<Event, LineFault>
    ensures { Gives (λ e. e) result (run (message_event_form (λ m. Copy m)) words.old) }
{
    let (origin, statement) = dotted(words)?;
    let leg = leg(words)?;
    end(words)?;
    Ok(Event::Copy(MsgName {
        origin,
        statement,
        leg,
    }))
}

#[tactic(auto, unfolding(lapi_base::specs::Input::AuditForms::message_event_form))]
fn land(words: &mut Words) -> Result<Event, LineFault>
    ensures { Gives (λ e. e) result (run (message_event_form (λ m. Land m)) words.old) }
{
    let (origin, statement) = dotted(words)?;
    let leg = leg(words)?;
    end(words)?;
    Ok(Event::Land(MsgName {
        origin,
        statement,
        leg,
    }))
}

/// The request of a statement.
fn request(origin: u32, statement: u32) -> MsgName
    ensures { result ≡ message origin statement Go }
{
    MsgName {
        origin,
        statement,
        leg: Leg::Go,
    }
}

#[tactic(auto, unfolding(lapi_base::specs::Input::AuditForms::request_event_form))]
fn head(words: &mut Words) -> Result<Event, LineFault>
    ensures { Gives (λ e. e) result (run (request_event_form (λ m. Head m)) words.old) }
{
    let (origin, statement) = dotted(words)?;
    end(words)?;
    Ok(Event::Head(request(origin, statement)))
}

#[tactic(auto, unfolding(lapi_base::specs::Input::AuditForms::job_event_form))]
fn begin(words: &mut Words) -> Result<Event, LineFault>
    ensures { Gives (λ e. e) result (run (job_event_form (λ m t w. Begin m t w)) words.old) }
{
    let (origin, statement) = dotted(words)?;
    let (task, worker) = dotted(words)?;
    end(words)?;
    Ok(Event::Begin {
        name: request(origin, statement),
        task,
        worker,
    })
}

#[tactic(auto, unfolding(lapi_base::specs::Input::AuditForms::job_event_form))]
fn end_job(words: &mut Words) -> Result<Event, LineFault>
    ensures { Gives (λ e. e) result (run (job_event_form (λ m t w. End m t w)) words.old) }
{
    let (origin, statement) = dotted(words)?;
    let (task, worker) = dotted(words)?;
    end(words)?;
    Ok(Event::End {
        name: request(origin, statement),
        task,
        worker,
    })
}

/// The event that begins with this word.
fn event(word: &[u8], words: &mut Words) -> Result<Event, LineFault>
    ensures { Gives (λ e. e) result (run (event_form word.now) words.old) }
{
    if is_text(word, b"issue") {
        issue(words)
    } else if is_text(word, b"refuse") {
        refuse(words)
    } else if is_text(word, b"enter") {
        enter(words)
    } else if is_text(word, b"pass") {
        pass(words)
    } else if is_text(word, b"copy") {
        copy(words)
    } else if is_text(word, b"head") {
        head(words)
    } else if is_text(word, b"land") {
        land(words)
    } else if is_text(word, b"begin") {
        begin(words)
    } else if is_text(word, b"end") {
        end_job(words)
    } else {
        Err(syntax())
    }
}

pub(crate) fn event_line(words: &mut Words) -> Result<Event, LineFault>
    ensures { Gives (λ e. e) result (run event_line_form words.old) }
{
    let first = word(words)?;
    event(first, words)
}
