//! Long texts, looked at block by block: within a block no byte decides what is done with the next.

ghost use Rattle.std.specs.Prelude.{◌≡◌, ◌==◌, position};
ghost use Rattle.std.specs.List.{list_all, list_any};
ghost use Rattle.lapi_base.specs.Input.Lines.{is_clean, words_of};

/// Where a byte is looked for one by one first, since most words and many lines are short.
const NEAR: usize = 16;

const BLOCK: usize = 32;

fn contains(block: &[u8], byte: u8) -> bool
    ensures { result ≡ list_any (λ b. b == byte) block.now }
{
    let mut found = false;
    for b in block {
        found = found | (*b == byte);
    }
    found
}

fn place_in_block(block: &[u8], byte: u8) -> Option<usize>
    ensures { result ≡ position (λ b. b == byte) block.now }
{
    block.iter().position(|b| *b == byte)
}

/// The place of the first such byte, in a text of which the front is likely to have none.
#[tactic(auto, using(crate::proofs::Blocks::behind_some, crate::proofs::Blocks::behind_none, crate::proofs::Splits::place_within))]
fn place_far(bytes: &[u8], byte: u8) -> Option<usize>
    ensures { result ≡ position (λ b. b == byte) bytes.now }
{
    let mut rest = bytes;
    let mut count = 0;
    while rest.len() >= BLOCK {
        let (block, after) = rest.split_at(BLOCK);
        if contains(block, byte) {
            break;
        }
        rest = after;
        count += BLOCK;
    }
    match place_in_block(rest, byte) {
        None => None,
        Some(place) => Some(count + place),
    }
}

/// The place of the first such byte.
pub(crate) fn place_of(bytes: &[u8], byte: u8) -> Option<usize>
    ensures { result ≡ position (λ b. b == byte) bytes.now }
{
    if bytes.len() < BLOCK {
        return place_in_block(bytes, byte);
    }
    let (front, rest) = bytes.split_at(NEAR);
    match place_in_block(front, byte) {
        Some(place) => Some(place),
        None => match place_far(rest, byte) {
            None => None,
            Some(place) => Some(NEAR + place),
        },
    }
}

/// Whether each byte of a block is a space.
fn is_blank(block: &[u8]) -> bool
    ensures { result ≡ list_all (λ b. b == 32) block.now }
{
    let mut blank = true;
    for b in block {
        blank = blank & (*b == b' ');
    }
    blank
}

/// What follows the whole blocks of spaces that stand first.
#[tactic(auto, using(crate::proofs::FirstWords::blank_skipped))]
#[inline(never)]
pub(crate) fn behind_blank_blocks(bytes: &[u8]) -> &[u8]
    ensures { words_of result.now ≡ words_of bytes.now }
{
    let mut rest = bytes;
    while rest.len() >= BLOCK {
        let (block, after) = rest.split_at(BLOCK);
        if !is_blank(block) {
            return rest;
        }
        rest = after;
    }
    rest
}

/// Whether each byte of a block may stand in a line.
fn is_clean_block(block: &[u8]) -> bool
    ensures { result ≡ is_clean block.now }
{
    let mut clean = true;
    for b in block {
        clean = clean & (*b >= 32 && *b <= 126);
    }
    clean
}

/// Whether each byte may stand in a line.
pub fn is_clean(line: &[u8]) -> bool
    ensures { result ≡ is_clean line.now }
{
    let mut rest = line;
    while rest.len() >= BLOCK {
        let (block, after) = rest.split_at(BLOCK);
        if !is_clean_block(block) {
            return false;
        }
        rest = after;
    }
    is_clean_block(rest)
}
