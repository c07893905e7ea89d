ghost use Rattle.std.specs.Prelude.{◌≡◌, map};
ghost use Rattle.lapi_views.specs.Words as spec;

use crate::asked::Asked;
use crate::part::Part;
use lapi_script::reading::number_of;

/// The most lines on one chart.
const MOST_CHARTED: u32 = 200;

/// What the words ask for, the arguments after the program's name; None where they are no command.
#[tactic(auto, unfolding(crate::specs::Words::asked_for))]
pub fn asked_for(words: &Vec<String>) -> Option<Asked>
    ensures { result ≡ spec.asked_for (map (λ word. word.bytes.items) words.now.items) }
{
    match words.as_slice() {
        [word] => by_one(word.as_str()),
        [word, option, number] => by_three(word.as_str(), option.as_str(), number.as_str()),
        [word, from, first, to, last] => by_five(
            word.as_str(),
            from.as_str(),
            first.as_str(),
            to.as_str(),
            last.as_str(),
        ),
        _ => None,
    }
}

fn by_one(word: &str) -> Option<Asked>
    ensures { result ≡ spec.by_one word.now }
{
    if word == "pcap" {
        Some(Asked::Packets)
    } else if word == "chart" {
        few_lines(0, MOST_CHARTED)
    } else {
        None
    }
}

fn by_three(word: &str, option: &str, number: &str) -> Option<Asked>
    ensures { result ≡ spec.by_three word.now option.now number.now }
{
    if word != "chart" {
        None
    } else if option == "--from" {
        from_on(number)
    } else if option == "--to" {
        up_to(number)
    } else {
        None
    }
}

fn by_five(word: &str, from: &str, first: &str, to: &str, last: &str) -> Option<Asked>
    ensures { result ≡ spec.by_five word.now from.now first.now to.now last.now }
{
    if word == "chart" && from == "--from" && to == "--to" {
        between(first, last)
    } else {
        None
    }
}

fn from_on(word: &str) -> Option<Asked>
    ensures { result ≡ spec.from_on word.now }
{
    let from = number_of(word.as_bytes())?;
    few_lines(from, from.saturating_add(MOST_CHARTED))
}

fn up_to(word: &str) -> Option<Asked>
    ensures { result ≡ spec.up_to word.now }
{
    few_lines(0, number_of(word.as_bytes())?)
}

fn between(first: &str, last: &str) -> Option<Asked>
    ensures { result ≡ spec.between first.now last.now }
{
    few_lines(number_of(first.as_bytes())?, number_of(last.as_bytes())?)
}

fn few_lines(from: u32, until: u32) -> Option<Asked>
    ensures { result ≡ spec.few_lines from until }
{
    if from < until && u64::from(until) <= u64::from(from) + u64::from(MOST_CHARTED) {
        Some(Asked::Chart(Part { from, until }))
    } else {
        None
    }
}
