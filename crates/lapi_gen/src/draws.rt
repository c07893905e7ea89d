ghost use Rattle.std.specs.Prelude.{◌≡◌, ◌+◌, ◌<◌, ◌≤◌, IfOk, OnOk, take, drop, length, slice_index_or};
ghost use Rattle.lapi_gen.specs.declared.form.TheConstants.{TASKS, STORES, STORED, BATCHES};
ghost use Rattle.lapi_gen.specs.Draws.{Stream};
ghost use Rattle.lapi_gen.specs.Batches.{batch_of, batches_of, first_draw, IsBatch};
ghost use Rattle.lapi_gen.specs.Scripts.{stored, stored_bytes};

use crate::batch::Batch;
use crate::form::{BATCHES, BYTE, STORED, STORES, TASKS};
use crate::random::Random;
use lapi_base::{Bytes, Memory};
use std::alloc::Global;
use std::marker::Model;

/// All that is drawn for a number: the bytes of the stores, and the batches.
#[derive(Debug, Drop)]
pub struct Draws {
    number: u32,
    bytes: Vec<u8>,
    batches: Vec<Batch>,
}

impl Model for Draws {
    ghost use Rattle.std.specs.Prelude.{◌≡◌, ℕ};
    ghost use Rattle.lapi_gen.specs.Batches.{batches_of};
    ghost use Rattle.lapi_gen.specs.Scripts.{stored_bytes};

    ghost Value = { ℕ };

    ghost view = { λ draws. draws.number };

    ghost invariant = { λ d. (d.bytes.items ≡ stored_bytes d.number) × (d.batches.items ≡ batches_of d.number) };
}

impl Draws {
    pub fn new(alloc: Global, number: u32) -> Result<Draws, Memory>
        ensures { IfOk result (λ draws. draws ≡ number) }
    {
        let mut random = Random::new(number);
        let bytes = bytes(alloc, &mut random)?;
        let batches = batches(alloc, &mut random)?;
        Ok(Draws {
            number,
            bytes,
            batches,
        })
    }

    /// The bytes of store `i` of task `a`.
    pub fn stored(&self, alloc: Global, a: u32, i: u32) -> Result<Bytes, Memory>
        requires { (a < TASKS) × (i < STORES) }
        ensures { IfOk result (λ bytes. bytes ≡ stored self.now a i) }
    {
        let at = STORED * (STORES * a + i);
        Bytes::from_slice(alloc, part(&self.bytes, at as usize))
    }

    /// Batch `b`.
    pub fn batch(&self, b: u32) -> Batch
        requires { b < BATCHES }
        ensures batch { result ≡ batch_of self.now b }
        ensures bounds { IsBatch result }
    {
        item(&self.batches, b as usize)
    }
}

/// The bytes of all stores.
#[tactic(auto, using(crate::proofs::Numbered::map_first, crate::proofs::Numbered::map_more))]
fn bytes(alloc: Global, random: &mut Random) -> Result<Vec<u8>, Memory>
    requires { random.old.drawn ≡ 0 }
    ensures bytes { IfOk result (λ bytes. bytes.items ≡ stored_bytes random.old.number) }
    ensures drawn { OnOk result (random.new ≡ record { number = random.old.number; drawn = first_draw 0 }) }
{
    let mut bytes = Vec::new(alloc);
    for _i in 0..TASKS as u32 * STORES * STORED {
        bytes.push(random.pick(BYTE) as u8)?;
    }
    Ok(bytes)
}

#[tactic(auto, using(crate::proofs::Numbered::map_first, crate::proofs::Numbered::map_more))]
fn batches(alloc: Global, random: &mut Random) -> Result<Vec<Batch>, Memory>
    requires { random.old.drawn ≡ first_draw 0 }
    ensures { IfOk result (λ batches. batches.items ≡ batches_of random.old.number) }
{
    let mut batches = Vec::new(alloc);
    for b in 0..BATCHES {
        batches.push(Batch::draw(random, b))?;
    }
    Ok(batches)
}

/// The bytes of one store, which begin at `at`.
fn part(bytes: &[u8], at: usize) -> &[u8]
    requires { at + STORED ≤ length bytes.now }
    ensures { result.now ≡ take STORED (drop at bytes.now) }
{
    &bytes[at..at + STORED as usize]
}

fn item(batches: &[Batch], b: usize) -> Batch
    requires { b < length batches.now }
    ensures { result ≡ slice_index_or batches.now b result }
{
    batches[b]
}
