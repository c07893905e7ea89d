ghost use Rattle.std.specs.Prelude.{◌≡◌, ◌≢◌, ◌⊎◌, ℕ, ◌+◌, ◌*◌, ◌<◌, ◌≤◌, true, false, IfOk, IfSome, IfNone, OnOk, OnErr, Some, None, [], length};
ghost use Rattle.slab.specs.Slab.{get, ContainsKey, HasRoomFor, Updates};
ghost use Rattle.lapi_base.specs.declared.message.MsgName.{MsgName as Name};
ghost use Rattle.lapi_base.specs.Record.Fragments.{fragments_in, fragment_length, IsPayload};
ghost use Rattle.lapi_reassembly.specs.Partial.{Gathered, IsUnit, IsMessageOf, nothing_of, with_fragment, is_whole, message};
ghost use Rattle.lapi_reassembly.specs.Partials.{partial, is_there, HasRoom, Agrees, IsMissing, gathered, put_of, whole_of, kept_of};

use crate::partial::Partial;
use crate::put::Put;
use lapi_base::{Head, HeaderOut, Memory, MsgName};
use slab::Slab;
use std::alloc::Global;
use std::marker::Model;

/// The messages of a link of which some fragments have come and some are missing, by their names.
#[derive(Debug, Drop)]
pub struct Partials {
    names: u32,
    unit: u32,
    partials: Slab<Partial>,
}

impl Model for Partials {
    ghost use Rattle.slab.specs.Slab.{values};
    ghost use Rattle.lapi_reassembly.specs.Partials.{Gathering, IsGathering};

    ghost Value = { Gathering };

    ghost view = { λ p. record { names = p.names; unit = p.unit; partials = values p.partials } };

    ghost invariant = { λ p. IsGathering p.names p.unit p.partials };
}

impl Partials {
    /// Room for that many messages, with fragments of that many bytes.
    #[tactic(auto, unfolding(crate::specs::Partials::found))]
    pub fn new(alloc: Global, names: u32, unit: u32) -> Result<Partials, Memory>
        requires names { (1 ≤ names) × (names ≤ 64) }
        requires unit { IsUnit unit }
        ensures sizes { IfOk result (λ made. (made.names ≡ names) × (made.unit ≡ unit)) }
        ensures none { IfOk result (λ made. (name : Name) → partial made name ≡ None) }
    {
        let partials = Slab::with_capacity(alloc, names as usize)?;
        Ok(Partials {
            names,
            unit,
            partials,
        })
    }

    /// Takes a fragment of a message. With the last missing one it gives the whole message, whose name is
    /// then off. A message's length is at most 64 fragments.
    pub fn put(
        &mut self,
        alloc: Global,
        name: MsgName,
        head: &Head,
        length: u32,
        fragment: u32,
        payload: &[u8],
    ) -> Result<Put, Memory>
        requires message { Agrees self.old name head.now length }
        requires fragment { (length ≤ 64 * self.old.unit) × (fragment < fragments_in self.old.unit length) }
        requires missing { IsMissing self.old name fragment }
        requires payload { IsPayload self.old.unit length fragment payload.now }
        requires room { (is_there self.old name ≡ true) ⊎ HasRoom self.old }

        ensures answer { IfOk result (λ put. put ≡ put_of (is_there self.old name) (gathered self.old name head.now length fragment payload.now)) }
        ensures whole { IfOk result (λ put. IfSome (whole_of put) (IsMessageOf name head.now length)) }
        ensures name { OnOk result (partial self.new name ≡ kept_of (gathered self.old name head.now length fragment payload.now)) }
        ensures others { (other : Name) → other ≢ name → partial self.new other ≡ partial self.old other }
        ensures sizes { (self.new.names ≡ self.old.names) × (self.new.unit ≡ self.old.unit) }
        ensures err { OnErr result (self.new ≡ self.old) }
    {
        match key_of(&self.partials, name) {
            Some(key) => Ok(put_more(&mut self.partials, key, fragment, payload)),
            None => {
                let mut partial = Partial::new(alloc, name, head, length, self.unit)?;
                partial.take(fragment, payload);
                Ok(put_first(&mut self.partials, partial))
            }
        }
    }

    /// Keeps what the header handler answered for a message.
    pub fn answer(&mut self, name: MsgName, out: HeaderOut)
        requires { is_there self.old name ≡ true }
        ensures name { IfSome (partial self.old name) (λ g. partial self.new name ≡ Some (record g { out = Some out })) }
        ensures others { (other : Name) → other ≢ name → partial self.new other ≡ partial self.old other }
        ensures sizes { (self.new.names ≡ self.old.names) × (self.new.unit ≡ self.old.unit) }
    {
        let key = key_of(&self.partials, name).unwrap();
        keep(&mut self.partials, key, out);
    }
}

// Where the message of this name is kept.
fn key_of(partials: &Slab<Partial>, name: MsgName) -> Option<usize>
    ensures found { IfSome result (λ key. (g : Gathered) × (get partials.now key ≡ Some g) × (g.name ≡ name)) }
    ensures absent { IfNone result ((key : ℕ) (g : Gathered) → get partials.now key ≡ Some g → g.name ≢ name) }
{
    for (key, partial) in partials.iter() {
        if partial.is_of(name) {
            return Some(key);
        }
    }
    None
}

// A fragment of a message that is kept.
fn put_more(partials: &mut Slab<Partial>, key: usize, fragment: u32, payload: &[u8]) -> Put
    requires there { ContainsKey partials.old key }
    requires fragment { IfSome (get partials.old key) (λ g. fragment < fragments_in g.unit g.length) }
    requires payload { IfSome (get partials.old key) (λ g. length payload.now ≡ fragment_length g.unit g.length fragment) }
    ensures answer { IfSome (get partials.old key) (λ g. result ≡ put_of true (with_fragment g fragment payload.now)) }
    ensures whole { IfSome (get partials.old key) (λ g. IfSome (whole_of result) (IsMessageOf g.name g.head g.length)) }
    ensures updates { IfSome (get partials.old key) (λ g. Updates partials.old partials.new key (kept_of (with_fragment g fragment payload.now))) }
    ensures capacity { partials.new.capacity ≡ partials.old.capacity }
{
    let partial = &mut partials[key];
    partial.take(fragment, payload);
    if !partial.is_whole() {
        return Put::More;
    }
    Put::Whole(partials.remove(key).into_message())
}

// A message with its first fragment.
fn put_first(partials: &mut Slab<Partial>, partial: Partial) -> Put
    requires { HasRoomFor partials.old 1 }
    ensures answer { result ≡ put_of false partial }
    ensures whole { IfSome (whole_of result) (IsMessageOf partial.name partial.head partial.length) }
    ensures updates { (key : ℕ) × (get partials.old key ≡ None) × Updates partials.old partials.new key (kept_of partial) }
    ensures capacity { partials.new.capacity ≡ partials.old.capacity }
{
    if partial.is_whole() {
        return Put::FirstWhole(partial.into_message());
    }
    partials.insert_reserved(partial);
    Put::First
}

// The answer for the header of a message that is kept.
fn keep(partials: &mut Slab<Partial>, key: usize, out: HeaderOut)
    requires { ContainsKey partials.old key }
    ensures updates { IfSome (get partials.old key) (λ g. Updates partials.old partials.new key (Some (record g { out = Some out }))) }
    ensures capacity { partials.new.capacity ≡ partials.old.capacity }
{
    partials[key].keep(out);
}
