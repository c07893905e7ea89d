//! What was read so far of an audit's text, and what a line adds to it.
//!
//! ```text
//! Before (each line of the script) -> Events (each event) -> Ended
//! ```

ghost use Rattle.std.specs.Prelude.{◌≡◌};
ghost use Rattle.lapi_base.specs.Input.Lines.{words_of};
ghost use Rattle.lapi_base.specs.Input.Forms.{and_then};
ghost use Rattle.lapi_base.specs.Input.Reading as reading;
ghost use Rattle.lapi_base.specs.Input.AuditReading.{events_of, on_script, on_event, audit_step, audit_after};
ghost use Rattle.lapi_script.specs.Gives.{Gives};
ghost use Rattle.lapi_script.specs.States.{state_of, audit_state_of};

use crate::events::event_line;
use crate::fault::{LineFault, limit, syntax};
use crate::scan::is_clean;
use crate::state::{State, step};
use crate::words::{Words, is_remark};
use lapi_base::{AuditInput, Event, Events, Script, Which};
use std::alloc::Global;
use std::mem;

/// The most events of a journal.
const MOST_EVENTS: usize = 100_000;

/// What was read so far, by which line is awaited.
#[derive(Debug, Drop)]
pub(crate) enum AuditState {
    /// A part of the script.
    Before(State),
    Events { script: Script, journal: Events },
    Ended(AuditInput),
}

/// The script, where an input's schedule would begin.
fn events_of(alloc: Global, state: State) -> Result<AuditState, LineFault>
    ensures { Gives audit_state_of result (events_of (state_of state)) }
{
    match state {
        State::Lines { script, .. } => Ok(AuditState::Events {
            script,
            journal: Events::new(alloc),
        }),
        State::First
        | State::Second { .. }
        | State::Start(_)
        | State::Tasks { .. }
        | State::Finished(_) => Err(syntax()),
    }
}

/// What a line adds to a script: the line `journal` stands where an input has the line `schedule`.
#[tactic(auto, using(crate::proofs::AuditOnward::schedule_words))]
fn on_script(alloc: Global, state: State, words: &mut Words) -> Result<AuditState, LineFault>
    ensures { Gives audit_state_of result (on_script (state_of state) words.old) }
{
    if words.are_only(b"journal") {
        let ended = step(alloc, state, &mut Words::new(b"schedule"))?;
        return events_of(alloc, ended);
    }
    if words.are_only(b"schedule") {
        return Err(syntax());
    }
    Ok(AuditState::Before(step(alloc, state, words)?))
}

fn on_event(script: Script, mut journal: Events, event: Event) -> Result<AuditState, LineFault>
    ensures { Gives audit_state_of result (on_event script journal event) }
{
    if journal.as_slice().len() >= MOST_EVENTS {
        return Err(limit(Which::Events));
    }
    journal.push(event)?;
    Ok(AuditState::Events { script, journal })
}

/// What a line of these words adds.
#[tactic(auto, unfolding(lapi_base::specs::Input::AuditReading::audit_step))]
fn audit_step(alloc: Global, state: AuditState, words: &mut Words) -> Result<AuditState, LineFault>
    ensures { Gives audit_state_of result (audit_step (audit_state_of state) words.old) }
{
    match state {
        AuditState::Before(state) => on_script(alloc, state, words),
        AuditState::Events { script, journal } => {
            if words.are_only(b"done") {
                return Ok(AuditState::Ended(AuditInput { script, journal }));
            }
            on_event(script, journal, event_line(words)?)
        }
        AuditState::Ended(_) => Err(syntax()),
    }
}

/// What a line adds.
#[tactic(auto, unfolding(lapi_base::specs::Input::AuditReading::audit_after), using(crate::proofs::FirstWords::remark_skipped))]
pub(crate) fn audit_after(
    alloc: Global,
    state: &mut AuditState,
    line: &[u8],
) -> Result<(), LineFault>
    ensures { Gives (λ _. audit_state_of state.new) result (audit_after (audit_state_of state.old) line.now) }
{
    if !is_clean(line) {
        return Err(syntax());
    }
    if is_remark(line) {
        return Ok(());
    }
    let mut words = Words::new(line);
    if words.are_skipped() {
        return Ok(());
    }
    let before = mem::replace(state, AuditState::Before(State::First));
    *state = audit_step(alloc, before, &mut words)?;
    Ok(())
}
