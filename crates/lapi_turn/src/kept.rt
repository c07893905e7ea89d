//! What a turn keeps, and what it can be asked.
ghost use Rattle.std.specs.Prelude.{◌≡◌, Bool, List};
ghost use Rattle.lapi_turn.specs.Entries.{Entry, list_after};

use std::alloc::Global;

/// A value that stands for a list of entries. An entry says what was done, and which right it
/// needs; a right is a number below 16.
pub trait Kept: Drop {
    /// The part that no ask changes: plain data.
    type Fixed;

    // The entries, the oldest first.
    ghost list: { Self → List Entry };

    ghost fixed: { Self → Self.Fixed };
}

/// A kept value that can be asked a `Q`. The ask's type is a parameter, so that an ask may hold
/// what a kept value may not, as a reference to a boxed closure, and so that a value may have
/// several types of ask.
pub trait Asked<Q>: Kept {
    type Answer;

    // The entry that the ask would append, by the fixed part.
    ghost entry: { Self.Fixed → Q → Entry };

    // Whether an answer tells that the entry was appended.
    ghost appended: { Self.Answer → Bool };

    // The lists at which an ask may be made, by the fixed part.
    ghost lawful: { Self.Fixed → List Entry → Q → Type 0 };

    // The answers that an ask may have at a list, by the fixed part.
    ghost may: { Self.Fixed → List Entry → Q → Self.Answer → Type 0 };

    /// The answer, and whether the entry was appended.
    fn act(&mut self, alloc: Global, ask: Q) -> (Self::Answer, bool)
        requires { lawful (Self.fixed self.old) (Self.list self.old) ask }
        ensures fixed { Self.fixed self.new ≡ Self.fixed self.old }
        ensures list { Self.list self.new ≡ list_after (appended result.0) (Self.list self.old) (entry (Self.fixed self.old) ask) }
        ensures answer { may (Self.fixed self.old) (Self.list self.old) ask result.0 }
        ensures tells { result.1 ≡ appended result.0 };
}
