//! The completion handlers that the program is run with.
ghost use Rattle.std.specs.Prelude.{◌≡◌, ◌%◌, ◌^◌};
ghost use Rattle.std.specs.List as lists;
ghost use Rattle.lapi_base.specs.Record.Handlers.{completion_answer};
ghost use Rattle.lapi_base.specs.declared.rule.CompletionRule.TheVariants.{Nothing, Sum, Same, Reversed, Answer};

use lapi_base::Effect;

/// Completion handler 0: writes nothing.
pub fn nothing(user: u32, buffer: &[u8]) -> Effect
    ensures { result ≡ completion_answer Nothing user buffer.now }
{
    Effect::Nothing
}

/// Completion handler 1: writes the sum of the buffer's bytes modulo 2^32 to the user value as an address.
pub fn sum(user: u32, buffer: &[u8]) -> Effect
    ensures { result ≡ completion_answer Sum user buffer.now }
{
    Effect::Word {
        at: user,
        value: sum_of(buffer),
    }
}

/// Completion handler 2: writes the buffer there.
pub fn same(user: u32, buffer: &[u8]) -> Effect
    ensures { result ≡ completion_answer Same user buffer.now }
{
    Effect::Same { at: user }
}

/// Completion handler 3: writes the buffer there in reverse order.
pub fn reversed(user: u32, buffer: &[u8]) -> Effect
    ensures { result ≡ completion_answer Reversed user buffer.now }
{
    Effect::Reversed { at: user }
}

/// Completion handler 4: answers the origin with the sum, for its user value as an address there.
pub fn sum_back(user: u32, buffer: &[u8]) -> Effect
    ensures { result ≡ completion_answer Answer user buffer.now }
{
    Effect::Answer {
        at: user,
        value: sum_of(buffer),
    }
}

fn sum_of(bytes: &[u8]) -> u32
    ensures { result ≡ lists.sum bytes.now % 2 ^ 32 }
{
    let mut total = 0u32;
    for byte in bytes {
        total = total.wrapping_add(u32::from(*byte));
    }
    total
}
