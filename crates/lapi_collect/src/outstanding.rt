ghost use Rattle.std.specs.Prelude.{◌≡◌, ℕ, ◌<◌, ◌↔◌, IsTrue, IfOk, true, false, length, replicate, slice_set};
ghost use Rattle.lapi_collect.specs.Outstanding.{is_open};

use crate::flag_words::least_between;
use lapi_base::Memory;
use std::alloc::Global;
use std::marker::Model;

/// The statements that were begun and are not done.
#[derive(Debug, Drop)]
pub struct Outstanding {
    statements: u32,
    // Bit n % 64 of word n / 64 is set where statement n is open:
    //
    //   word 0: 63 .. 1 0   word 1: 127 .. 65 64   ..
    words: Vec<u64>,
    // How many of the words may have a flag set: none from here on has.
    used: usize,
    // The least statement whose flag is set, so that no question goes through the words. Where statements are
    // begun in order it only rises, and over a whole run it passes each word once.
    least: Option<u32>,
}

impl Model for Outstanding {
    ghost use Rattle.std.specs.Prelude.{List, Bool};
    ghost use Rattle.lapi_collect.specs.Outstanding.{flags_of, IsOutstanding};

    ghost Value = { List Bool };

    ghost view = { λ o. flags_of o.statements o.words.items };

    ghost invariant = { λ o. IsOutstanding o.statements o.words.items o.used o.least };
}

impl Outstanding {
    /// Room for so many statements, none of which was begun.
    pub fn new(alloc: Global, statements: u32) -> Result<Outstanding, Memory>
        ensures { IfOk result (λ made. made ≡ replicate statements false) }
    {
        let words = vec![in alloc; 0; statements.div_ceil(64) as usize]?;
        Ok(Outstanding {
            statements,
            words,
            used: 0,
            least: None,
        })
    }

    /// Notes that a statement was begun.
    pub fn begin(&mut self, statement: u32)
        requires { statement < length self.old }
        ensures { self.new ≡ slice_set self.old statement true }
    {
        let place = (statement / 64) as usize;
        self.words[place] |= 1 << (statement % 64);
        self.used = self.used.max(place + 1);
        self.least = Some(self.least.map_or(statement, |least| least.min(statement)));
    }

    /// Notes that a statement is done, if it was begun.
    pub fn done(&mut self, statement: u32)
        requires { statement < length self.old }
        ensures { self.new ≡ slice_set self.old statement false }
    {
        let place = (statement / 64) as usize;
        self.words[place] &= !(1 << (statement % 64));
        if self.least == Some(statement) {
            self.least = least_between(&self.words, place, self.used);
        }
    }

    /// Whether no statement with a smaller number was begun and is not done.
    pub fn clear_before(&self, statement: u32) -> bool
        ensures { IsTrue result ↔ ((n : ℕ) → n < statement → is_open self.now n ≡ false) }
    {
        match self.least {
            Some(least) => statement <= least,
            None => true,
        }
    }
}
