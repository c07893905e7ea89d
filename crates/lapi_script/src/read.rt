//! An input, read line by line.

ghost use Rattle.std.specs.Prelude.{◌≡◌, ◌≤◌, length, Ok, IfOk};
ghost use Rattle.lapi_base.specs.declared.input.Input.{Input};
ghost use Rattle.lapi_base.specs.Input.Lines.{lines_of};
ghost use Rattle.lapi_base.specs.Input.Rows.{IsInputText};
ghost use Rattle.lapi_base.specs.Input.Reading.{read, input_of, most_input};
ghost use Rattle.lapi_script.specs.ReaderAnswers.{GivesInput, FaultIsFirst, FailsAt};
ghost use Rattle.lapi_script.specs.States.{state_of};

use crate::cuts::first_line;
use crate::fault::LineFault;
use crate::remarks::behind_remark;
use crate::state::{State, after};
use lapi_base::{Input, LONGEST_INPUT, LineError, ReadFault, Which};
use lapi_text::text_laws;
use std::alloc::Global;

/// A fault at its line.
pub fn at_line(fault: LineFault, line: u32) -> ReadFault
    ensures { FailsAt line fault result }
{
    match fault {
        LineFault::Memory => ReadFault::Memory,
        LineFault::Wrong(LineError::Syntax) => ReadFault::Syntax { line },
        LineFault::Wrong(LineError::Limit(which)) => ReadFault::Limit { which, line },
    }
}

/// The input, where all lines were read; the next line would be this one.
fn finished(state: State, line: u32) -> Result<Input, ReadFault>
    ensures { GivesInput result (input_of line (state_of state)) }
{
    match state {
        State::Finished(input) => Ok(input),
        _ => Err(ReadFault::Syntax { line }),
    }
}

/// What reading line after line gives.
#[tactic(auto, using(crate::proofs::Onward::goes_on, crate::proofs::Onward::behind_goes_on, crate::proofs::Onward::ends))]
fn read_lines(alloc: Global, bytes: &[u8]) -> Result<Input, ReadFault>
    ensures { GivesInput result (read bytes.now) }
{
    if bytes.len() > LONGEST_INPUT {
        return Err(ReadFault::Limit {
            which: Which::Input,
            line: 0,
        });
    }
    let mut state = State::First;
    let mut rest = bytes;
    let mut line: u32 = 1;
    while !rest.is_empty() {
        if let Some(behind) = behind_remark(rest) {
            rest = behind;
        } else {
            let (text, following) = first_line(rest);
            match after(alloc, &mut state, text) {
                Err(fault) => return Err(at_line(fault, line)),
                Ok(()) => rest = following,
            }
        }
        line += 1;
    }
    finished(state, line)
}

/// The input that the bytes spell, or the first fault and its line. More bytes than
/// [`LONGEST_INPUT`] are refused before all lines.
pub fn read_input(alloc: Global, bytes: &[u8]) -> Result<Input, ReadFault>
    // What is read is spelled so, within all limits.
    ensures found { IfOk result (λ x. IsInputText x bytes.now) }
    // What is spelled so is read, unless memory runs out.
    ensures only { (x : Input) → length bytes.now ≤ most_input → IsInputText x bytes.now → GivesInput result (Ok x) }
    // The line of a fault is the first up to which the lines begin no input.
    ensures first { length bytes.now ≤ most_input → FaultIsFirst (lines_of bytes.now) result }
    // Which fault it is, and at which line.
    ensures exact { GivesInput result (read bytes.now) }
{
    text_laws();
    read_lines(alloc, bytes)
}
