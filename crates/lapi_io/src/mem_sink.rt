ghost use Rattle.std.specs.Prelude.{◌≡◌, ◌≤◌, ◌<◌, ◌-◌, ◌⊎◌, ◌↔◌, [], Some, IsErr, IfOk, Contains, length, min, vec_capacity, refl};
ghost use Rattle.std.specs.Io.{WritesAtMost};
ghost use Rattle.std.specs.Io.KnownBytes.{WriteAppends};
ghost use Rattle.lapi_io.specs.Causes.{CountsFault, HasCause};
ghost use Rattle.lapi_io.specs.SureRoom.{sure_room, no_fault_below};

use crate::sink::Sink;
use crate::source::Failed;
use lapi_base::{LONGEST_INPUT, Memory};
use std::alloc::Global;
use std::cmp;

/// Bytes in memory, up to a room that is taken beforehand, with writes that fail by their number.
#[derive(Debug, Drop)]
pub struct MemSink {
    bytes: Vec<u8>,
    room: usize,
    step: usize,
    fails: Vec<u64>,
    calls: u64,
    faults: u64,
    ghost moves: { 1 ≤ step },
    ghost reserved: { room ≤ vec_capacity bytes },
    ghost within: { length bytes.items ≤ room },
    ghost sure: { fails.items ≡ [] → length bytes.items < room → faults ≡ 0 },
}

impl MemSink {
    ghost use Rattle.lapi_io.specs.MemSink.{held_by, room_of, step_of, fails_of, calls_of, faults_of};

    /// A write takes at most `step` bytes. It fails where its number is in `fails`, and where `room` bytes are held and
    /// the piece isn't empty. The first has number 0, and the numbers stand still at 2^64 - 1. The memory for `room`
    /// bytes is taken here, and none later.
    pub fn new(alloc: Global, room: usize, step: usize, fails: Vec<u64>) -> Result<MemSink, Memory>
        requires step { 1 ≤ step }
        requires room { room ≤ LONGEST_INPUT }
        ensures empty { IfOk result (λ sink. held_by sink ≡ []) }
        ensures room { IfOk result (λ sink. room_of sink ≡ room) }
        ensures step { IfOk result (λ sink. step_of sink ≡ step) }
        ensures fails { IfOk result (λ sink. fails_of sink ≡ fails.items) }
        ensures counts { IfOk result (λ sink. (calls_of sink ≡ 0) × (faults_of sink ≡ 0)) }
    {
        let bytes = Vec::with_capacity(alloc, room)?;
        Ok(MemSink {
            bytes,
            room,
            step,
            fails,
            calls: 0,
            faults: 0,
        })
    }

    pub fn held(&self) -> &[u8]
        ensures { result.now ≡ held_by self.now }
    {
        self.bytes.as_slice()
    }
}

impl Sink for MemSink {
    ghost use Rattle.lapi_io.specs.MemSink.{held_by, room_of, step_of, fails_of, calls_of, faults_of, CountsCall, IsFull};

    ghost held = { λ sink. Some (held_by sink) };

    ghost faults = { faults_of };

    ghost room = { λ sink. sure_room (fails_of sink) (room_of sink) };

    ghost sure = { λ sink n e. (held_by sink, refl, no_fault_below (fails_of sink) (room_of sink) n (length (held_by sink)) (faults_of sink) sink.sure e) };

    fn write(&mut self, piece: &[u8]) -> Result<usize, Failed>
        ensures bound { WritesAtMost result piece.now }
        ensures some { IfOk result (λ n. 0 < length piece.now → 0 < n) }
        ensures bytes { WriteAppends (Some (held_by self.old)) (Some (held_by self.new)) result piece.now }
        ensures cause { HasCause (faults_of self.old) (faults_of self.new) result }

        ensures failed { IsErr result ↔ (Contains (fails_of self.old) (calls_of self.old) ⊎ (0 < length piece.now × IsFull self.old)) }
        ensures count { IfOk result (λ n. n ≡ min (step_of self.old) (min (length piece.now) (room_of self.old - length (held_by self.old)))) }

        ensures calls { CountsCall self.old self.new }
        ensures faults { CountsFault (faults_of self.old) (faults_of self.new) result }
    {
        let is_full = self.bytes.len() == self.room;
        let fails = self.fails.contains(&self.calls) || (is_full && !piece.is_empty());
        self.calls = self.calls.saturating_add(1);
        if fails {
            self.faults = self.faults.saturating_add(1);
            return Err(Failed);
        }
        let n = cmp::min(
            self.step,
            cmp::min(piece.len(), self.room - self.bytes.len()),
        );
        let (front, _) = piece.split_at(n);
        self.bytes.extend_from_slice(front).unwrap();
        Ok(n)
    }
}
