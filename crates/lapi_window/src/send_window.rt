ghost use Rattle.std.specs.Prelude.{◌≡◌, ℕ, ◌+◌, ◌-◌, ◌^◌, ◌<◌, ◌≤◌, min, ◌↔◌, ◌⊎◌, IsTrue, IsNone, IsSome, IfSome, IfOk, true, false, ◌||◌, ◌∷◌, [], ◌++◌, length, slice_get, Some, option_map};
ghost use Rattle.lapi_window.specs.NumberSet.{is_covered};
ghost use Rattle.lapi_window.specs.SendWindow.{sent_count, is_acked, base_of, bytes_of, is_unacked, unacked, packet_of, MaySend};

use crate::number_set::NumberSet;
use circular_buffer::HeapCircularBuffer;
use lapi_base::{Bytes, Memory};
use std::alloc::Global;
use std::marker::Model;

/// The numbers of a link: how many there are, how many were sent, and which are acknowledged; and the packets
/// that were sent and may have to be sent again.
#[derive(Debug, Drop)]
pub struct SendWindow {
    window: u32,
    numbers: u32,
    acked: NumberSet,
    // The packets of the numbers from the least that is not acknowledged up to the last that was sent.
    packets: HeapCircularBuffer<Bytes>,
}

impl Model for SendWindow {
    ghost use Rattle.lapi_window.specs.SendWindow.{Sending, IsSending};

    ghost Value = { Sending };

    ghost view = { λ w. record { window = w.window; numbers = w.numbers; acked = w.acked; packets = w.packets.items } };

    ghost invariant = { λ w. IsSending (record { window = w.window; numbers = w.numbers; acked = w.acked; packets = w.packets.items }) w.packets.capacity };
}

impl SendWindow {
    /// A window of that many packets, with no number yet.
    pub fn new(alloc: Global, window: u32) -> Result<SendWindow, Memory>
        requires { (1 ≤ window) × (window ≤ 64) }
        ensures window { IfOk result (λ made. made.window ≡ window) }
        ensures numbers { IfOk result (λ made. (made.numbers ≡ 0) × (sent_count made ≡ 0)) }
        ensures none { IfOk result (λ made. (n : ℕ) → is_acked made n ≡ false) }
    {
        let packets = HeapCircularBuffer::with_capacity(alloc, window as usize)?;
        Ok(SendWindow {
            window,
            numbers: 0,
            acked: NumberSet::new(),
            packets,
        })
    }

    /// Makes so many more numbers.
    pub fn append(&mut self, n: u32)
        requires { self.old.numbers + n < 2 ^ 32 }
        ensures { self.new ≡ record self.old { numbers = self.old.numbers + n } }
    {
        self.numbers += n;
    }

    /// How many numbers there are.
    pub fn numbers(&self) -> u32
        ensures { result ≡ self.now.numbers }
    {
        self.numbers
    }

    /// The least number that is not acknowledged.
    pub fn base(&self) -> u32
        ensures least { result ≡ base_of self.now }
        ensures base { result ≡ self.now.acked.base }
        ensures near { sent_count self.now ≤ result + 64 }
    {
        self.acked.least_absent()
    }

    /// How many more numbers may be sent now.
    pub fn room(&self) -> u32
        ensures { result ≡ min (self.now.numbers - sent_count self.now) (base_of self.now + self.now.window - sent_count self.now) }
    {
        let unsent = self.numbers - self.sent_end();
        unsent.min(self.window - self.packets.len() as u32)
    }

    /// The least number that was not sent, if it may be sent now.
    pub fn next(&self) -> Option<u32>
        ensures none { IsNone result ↔ ((sent_count self.now ≡ self.now.numbers) ⊎ (sent_count self.now ≡ base_of self.now + self.now.window)) }
        ensures some { IsSome result ↔ MaySend self.now }
        ensures number { IfSome result (λ n. n ≡ sent_count self.now) }
    {
        let sent = self.sent_end();
        if sent == self.numbers || self.packets.is_full() {
            None
        } else {
            Some(sent)
        }
    }

    /// Notes that the next number was sent in this packet, and keeps it.
    pub fn sent(&mut self, bytes: Bytes)
        requires { MaySend self.old }
        ensures all { self.new ≡ record self.old { packets = self.old.packets ++ bytes ∷ [] } }
        ensures bytes { bytes_of self.new (sent_count self.old) ≡ Some bytes }
        ensures others { (n : ℕ) → n < sent_count self.old → bytes_of self.new n ≡ bytes_of self.old n }
    {
        self.packets.push_back(bytes);
    }

    /// Notes what an acknowledgement covers.
    pub fn acked(&mut self, base: u32, bits: u64)
        requires { (n : ℕ) → is_covered base bits n ≡ true → n < sent_count self.old }
        ensures acked { (n : ℕ) → is_acked self.new n ≡ (is_acked self.old n || is_covered base bits n) }
        ensures bytes { (n : ℕ) → is_acked self.new n ≡ false → bytes_of self.new n ≡ bytes_of self.old n }
        ensures sent { sent_count self.new ≡ sent_count self.old }
        ensures base { self.old.acked.base ≤ self.new.acked.base }
        ensures same { (self.new.numbers ≡ self.old.numbers) × (self.new.window ≡ self.old.window) }
    {
        let sent = self.sent_end();
        self.acked = self.acked.union(base, bits);
        self.packets
            .truncate_front((sent - self.acked.least_absent()) as usize);
    }

    /// How many numbers were sent and are not acknowledged.
    pub fn unacked_len(&self) -> usize
        ensures count { result ≡ length (unacked self.now) }
        ensures bounded { (result ≤ self.now.window) × (self.now.window ≤ 64) }
    {
        self.acked.absent_count(self.sent_end()) as usize
    }

    /// The number at this place among those that were sent and are not acknowledged, and its packet.
    pub fn unacked(&self, i: usize) -> (u32, &Bytes)
        requires { i < length (unacked self.now) }
        ensures number { slice_get (unacked self.now) i ≡ Some result.0 }
        ensures bytes { bytes_of self.now result.0 ≡ Some result.1.now }
        ensures place { self.now.acked.base ≤ result.0 }
    {
        let number = self.acked.absent_at(i, self.sent_end());
        let place = (number - self.acked.least_absent()) as usize;
        (number, self.packets.get(place).unwrap())
    }

    /// Whether each number from `from` up to but not `to` is acknowledged.
    pub fn all_acked(&self, from: u32, to: u32) -> bool
        ensures { IsTrue result ↔ ((n : ℕ) → from ≤ n → n < to → is_acked self.now n ≡ true) }
    {
        self.acked.contains_all(from, to)
    }

    /// The number after the last one that was sent.
    pub fn sent_end(&self) -> u32
        ensures { result ≡ sent_count self.now }
    {
        self.acked.least_absent() + self.packets.len() as u32
    }

    /// Whether a number was sent and is not acknowledged.
    pub fn is_unacked(&self, number: u32) -> bool
        ensures { result ≡ is_unacked self.now number }
    {
        number < self.sent_end() && !self.acked.contains(number)
    }

    /// The packet of a number that was sent and is not acknowledged; none of any other number.
    pub fn packet(&self, number: u32) -> Option<&Bytes>
        ensures { option_map (λ bytes. bytes.now) result ≡ packet_of self.now number }
    {
        if !self.is_unacked(number) {
            return None;
        }
        self.packets
            .get((number - self.acked.least_absent()) as usize)
    }
}
