ghost use Rattle.std.specs.Prelude.{◌≡◌, IfOk, map};
ghost use Rattle.lapi_base.specs.Output.Commands as spec;

use hex::FromHexError;
use lapi_base::{Bytes, Command, MOST_SHOWN, Memory, View};
use lapi_script::reading::number_of;
use std::alloc::Global;

/// What the words ask for, the arguments after the program's name; None where they are no command.
#[tactic(auto, unfolding(lapi_base::specs::Output::Commands::command_of))]
pub fn command_of(alloc: Global, words: &Vec<String>) -> Result<Option<Command>, Memory>
    ensures { IfOk result (λ command. command ≡ spec.command_of (map (λ word. word.bytes.items) words.now.items)) }
{
    match words.as_slice() {
        [word] => Ok(read_of(word.as_str())),
        [word, argument] => with_argument(alloc, word.as_str(), argument.as_str()),
        _ => Ok(None),
    }
}

fn with_argument(alloc: Global, word: &str, argument: &str) -> Result<Option<Command>, Memory>
    ensures { IfOk result (λ command. command ≡ spec.with_argument word.now argument.now) }
{
    if word == "show" {
        Ok(shown_of(alloc, argument)?.map(Command::Show))
    } else if word == "gen" {
        Ok(number_of(argument.as_bytes()).map(Command::Gen))
    } else if word == "sum" {
        Ok(number_of(argument.as_bytes()).map(Command::Sum))
    } else {
        Ok(None)
    }
}

fn read_of(word: &str) -> Option<Command>
    ensures { result ≡ spec.read_of word.now }
{
    if word == "check" {
        Some(Command::Check)
    } else if word == "audit" {
        Some(Command::Audit)
    } else if word == "landings" {
        Some(Command::Landings)
    } else if word == "array" {
        Some(Command::Array)
    } else {
        view_of(word).map(Command::Read)
    }
}

fn view_of(word: &str) -> Option<View>
    ensures { result ≡ spec.view_of word.now }
{
    if word == "run" {
        Some(View::Report)
    } else if word == "journal" {
        Some(View::Journal)
    } else if word == "wire" {
        Some(View::Wires)
    } else if word == "trace" {
        Some(View::Trace)
    } else if word == "capture" {
        Some(View::Capture)
    } else {
        None
    }
}

#[tactic(auto, unfolding(lapi_base::specs::Input::Tokens::hex_of))]
fn shown_of(alloc: Global, digits: &str) -> Result<Option<Bytes>, Memory>
    ensures { IfOk result (λ bytes. bytes ≡ spec.shown_of digits.now) }
{
    match hex::decode(alloc, digits) {
        Ok(bytes) => {
            if bytes.is_empty() || bytes.len() > MOST_SHOWN {
                Ok(None)
            } else {
                Ok(Some(Bytes::from(bytes)))
            }
        }
        Err(FromHexError::OutOfMemory) => Err(Memory),
        Err(_) => Ok(None),
    }
}
