//! An audit's text, read line by line.

ghost use Rattle.std.specs.Prelude.{◌≡◌, ◌≤◌, length, Ok, IfOk};
ghost use Rattle.lapi_base.specs.declared.audit_input.AuditInput.{AuditInput};
ghost use Rattle.lapi_base.specs.Input.Lines.{lines_of};
ghost use Rattle.lapi_base.specs.Input.AuditRows.{IsAuditText};
ghost use Rattle.lapi_base.specs.Input.AuditReading as reading;
ghost use Rattle.lapi_base.specs.Input.AuditReading.{audit_of};
ghost use Rattle.lapi_base.specs.Input.Reading.{most_input};
ghost use Rattle.lapi_script.specs.ReaderAnswers.{GivesAudit, AuditFaultIsFirst};
ghost use Rattle.lapi_script.specs.States.{audit_state_of};

use crate::audit_state::{AuditState, audit_after};
use crate::cuts::first_line;
use crate::read::at_line;
use crate::remarks::behind_remark;
use crate::state::State;
use lapi_base::{AuditInput, LONGEST_INPUT, ReadFault, Which};
use lapi_text::audit_text_laws;
use std::alloc::Global;

/// The script and the events, where all lines were read; the next line would be this one.
fn finished(state: AuditState, line: u32) -> Result<AuditInput, ReadFault>
    ensures { GivesAudit result (audit_of line (audit_state_of state)) }
{
    match state {
        AuditState::Ended(input) => Ok(input),
        AuditState::Before(_) | AuditState::Events { .. } => Err(ReadFault::Syntax { line }),
    }
}

/// What reading line after line gives.
#[tactic(auto, using(crate::proofs::AuditOnward::audit_goes_on, crate::proofs::AuditOnward::audit_behind_goes_on, crate::proofs::AuditOnward::audit_ends))]
fn read_lines(alloc: Global, bytes: &[u8]) -> Result<AuditInput, ReadFault>
    ensures { GivesAudit result (reading.read_audit bytes.now) }
{
    if bytes.len() > LONGEST_INPUT {
        return Err(ReadFault::Limit {
            which: Which::Input,
            line: 0,
        });
    }
    let mut state = AuditState::Before(State::First);
    let mut rest = bytes;
    let mut line: u32 = 1;
    while !rest.is_empty() {
        if let Some(behind) = behind_remark(rest) {
            rest = behind;
        } else {
            let (text, following) = first_line(rest);
            match audit_after(alloc, &mut state, text) {
                Err(fault) => return Err(at_line(fault, line)),
                Ok(()) => rest = following,
            }
        }
        line += 1;
    }
    finished(state, line)
}

/// The script and the events that the bytes spell, or the first fault and its line. More bytes than
/// [`LONGEST_INPUT`] are refused before all lines.
pub fn read_audit(alloc: Global, bytes: &[u8]) -> Result<AuditInput, ReadFault>
    // What is read is spelled so, within all limits.
    ensures found { IfOk result (λ x. IsAuditText x bytes.now) }
    // What is spelled so is read, unless memory runs out.
    ensures only { (x : AuditInput) → length bytes.now ≤ most_input → IsAuditText x bytes.now
        → GivesAudit result (Ok x) }
    // The line of a fault is the first up to which the lines begin no audit's text.
    ensures first { length bytes.now ≤ most_input → AuditFaultIsFirst (lines_of bytes.now) result }
    // Which fault it is, and at which line.
    ensures exact { GivesAudit result (reading.read_audit bytes.now) }
{
    audit_text_laws();
    read_lines(alloc, bytes)
}
