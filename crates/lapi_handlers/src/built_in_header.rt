//! The header handlers that the program is run with.
ghost use Rattle.std.specs.Prelude.{◌≡◌, ◌<◌, ◌≤◌, length, take};
ghost use Rattle.lapi_base.specs.Record.Handlers as rules;
ghost use Rattle.lapi_base.specs.Record.Handlers.{header_answer};
ghost use Rattle.lapi_handlers.specs.BuiltInHeader.{word_rule, word_and_choice_rule, per_origin_rule, nowhere_rule};

use lapi_base::{Choice, HeaderIn, HeaderOut, HeaderRule, Place, UserHeader};

/// The rule of header handler 0.
pub const WORD: HeaderRule = HeaderRule {
    place: Place::Word,
    choice: Choice::Never,
};

/// The rule of header handler 1.
pub const WORD_AND_CHOICE: HeaderRule = HeaderRule {
    place: Place::Word,
    choice: Choice::Word,
};

/// The rule of header handler 2.
pub const PER_ORIGIN: HeaderRule = HeaderRule {
    place: Place::PerOrigin { base: 0, step: 256 },
    choice: Choice::Always(3),
};

/// The rule of header handler 3.
pub const NOWHERE: HeaderRule = HeaderRule {
    place: Place::Nowhere,
    choice: Choice::Always(1),
};

/// Header handler 0: the message goes to word 0 of the user header, and no completion handler follows.
pub fn word(given: &HeaderIn) -> HeaderOut
    ensures { result ≡ header_answer word_rule given.now }
{
    HeaderOut {
        place: header_word(&given.header, 0).map(u64::from),
        completion: None,
        user: user(&given.header),
    }
}

/// Header handler 1: the message goes to word 0, and word 2 names the completion handler.
pub fn word_and_choice(given: &HeaderIn) -> HeaderOut
    ensures { result ≡ header_answer word_and_choice_rule given.now }
{
    HeaderOut {
        place: header_word(&given.header, 0).map(u64::from),
        completion: header_word(&given.header, 2),
        user: user(&given.header),
    }
}

/// Header handler 2: the message goes to 256 bytes for each origin, and completion handler 3 follows.
pub fn per_origin(given: &HeaderIn) -> HeaderOut
    ensures { result ≡ header_answer per_origin_rule given.now }
{
    HeaderOut {
        place: Some(u64::from(given.origin) * 256),
        completion: Some(3),
        user: user(&given.header),
    }
}

/// Header handler 3: the message is discarded, and completion handler 1 follows.
pub fn nowhere(given: &HeaderIn) -> HeaderOut
    ensures { result ≡ header_answer nowhere_rule given.now }
{
    HeaderOut {
        place: None,
        completion: Some(1),
        user: user(&given.header),
    }
}

fn user(header: &UserHeader) -> u32
    ensures { result ≡ rules.user_by header.now }
{
    header_word(header, 1).unwrap_or(0)
}

// Word `index`, which is absent where the header is shorter.
#[tactic(auto, unfolding(lapi_base::specs::Record::Handlers::header_word))]
fn header_word(header: &UserHeader, index: usize) -> Option<u32>
    requires { index < 3 }
    ensures { result ≡ rules.header_word header.now index }
{
    let bytes = header.as_slice();
    let at = 4 * index;
    if at + 4 > bytes.len() {
        return None;
    }
    let (_, rest) = bytes.split_at(at);
    Some(first_word(rest))
}

// The number that the first four bytes spell.
#[tactic(auto, using(crate::proofs::Words::first_four))]
fn first_word(bytes: &[u8]) -> u32
    requires { 4 ≤ length bytes.now }
    ensures { result ≡ rules.number_of (take 4 bytes.now) }
{
    u32::from_be_bytes([bytes[0], bytes[1], bytes[2], bytes[3]])
}
