ghost use Rattle.std.specs.Prelude.{◌≡◌, [], ◌∷◌, ◌++◌, OnOk, OnErr};

use crate::memory::Memory;
use std::alloc::Global;
use std::marker::Model;

/// Where a header handler puts a message.
#[derive(Clone, Copy, Debug, Eq, PartialEq)]
pub enum Place {
    /// At word 0 of the user header; nowhere without that word.
    Word,
    /// At `base + origin * step`.
    PerOrigin { base: u32, step: u32 },
    Fixed(u32),
    Nowhere,
}

/// Which completion handler a header handler names.
#[derive(Clone, Copy, Debug, Eq, PartialEq)]
pub enum Choice {
    Never,
    Always(u32),
    /// Word 2 of the user header; none without that word.
    Word,
}

/// A header handler, as a rule. The user value is always word 1 of the user header, or 0.
#[derive(Clone, Copy, Debug, Eq, PartialEq)]
pub struct HeaderRule {
    pub place: Place,
    pub choice: Choice,
}

/// A completion handler, as a rule. What it writes goes to the user value as an address.
#[derive(Clone, Copy, Debug, Eq, PartialEq)]
pub enum CompletionRule {
    Nothing,
    /// The sum of the buffer's bytes modulo 2^32, as a word.
    Sum,
    Same,
    Reversed,
    /// The sum, for the origin.
    Answer,
}

/// The rules of the header handlers, by their number.
#[derive(Debug, Drop)]
pub struct HeaderRules {
    items: Vec<HeaderRule>,
}

impl Model for HeaderRules {
    ghost use Rattle.std.specs.Prelude.{List};
    ghost use Rattle.lapi_base.specs.declared.rule.HeaderRule.{HeaderRule};

    ghost Value = { List HeaderRule };

    ghost view = { λ list. list.items.items };
}

impl HeaderRules {
    /// The empty list, which takes no memory yet.
    pub fn new(alloc: Global) -> HeaderRules
        ensures { result ≡ [] }
    {
        HeaderRules {
            items: Vec::new(alloc),
        }
    }

    /// Appends a rule.
    pub fn push(&mut self, item: HeaderRule) -> Result<(), Memory>
        ensures ok { OnOk result (self.new ≡ self.old ++ item ∷ []) }
        ensures err { OnErr result (self.new ≡ self.old) }
    {
        self.items.push(item)?;
        Ok(())
    }

    pub fn as_slice(&self) -> &[HeaderRule]
        ensures { result.now ≡ self.now }
    {
        self.items.as_slice()
    }
}

/// The rules of the completion handlers, by their number.
#[derive(Debug, Drop)]
pub struct CompletionRules {
    items: Vec<CompletionRule>,
}

impl Model for CompletionRules {
    ghost use Rattle.std.specs.Prelude.{List};
    ghost use Rattle.lapi_base.specs.declared.rule.CompletionRule.{CompletionRule};

    ghost Value = { List CompletionRule };

    ghost view = { λ list. list.items.items };
}

impl CompletionRules {
    /// The empty list, which takes no memory yet.
    pub fn new(alloc: Global) -> CompletionRules
        ensures { result ≡ [] }
    {
        CompletionRules {
            items: Vec::new(alloc),
        }
    }

    /// Appends a rule.
    pub fn push(&mut self, item: CompletionRule) -> Result<(), Memory>
        ensures ok { OnOk result (self.new ≡ self.old ++ item ∷ []) }
        ensures err { OnErr result (self.new ≡ self.old) }
    {
        self.items.push(item)?;
        Ok(())
    }

    pub fn as_slice(&self) -> &[CompletionRule]
        ensures { result.now ≡ self.now }
    {
        self.items.as_slice()
    }
}

/// What all handlers answer.
#[derive(Debug, Drop)]
pub struct Rules {
    pub headers: HeaderRules,
    pub completions: CompletionRules,
}
