ghost use Rattle.std.specs.Prelude.{◌≡◌, ℕ, ◌+◌, ◌<◌, ◌≤◌, ◌==◌, ◌&&◌, true, [], ◌∷◌, ◌++◌, length, take, drop, slice_index_or, None, IfOk, OnOk};
ghost use Rattle.lapi_window.specs.NumberSet.{is_covered};
ghost use Rattle.lapi_window.specs.SendWindow.{MaySend, sent_count, unacked};
ghost use Rattle.lapi_link.specs.Sender.{IsNewSender, appended, sendable, sent, kept, entries_to, IsAcked, newly_covered_tag, newly_acked};

use crate::tags::Tags;
use lapi_base::{Bytes, Entries, FRAME_ROOM, Memory, WireEntry};
use lapi_window::{SendWindow, covers};
use std::alloc::Global;
use std::collections::VecDeque;
use std::marker::Model;

/// The sending end of a link.
#[derive(Debug, Drop)]
pub struct Sender {
    window: SendWindow,
    /// The packets that were not sent yet, in the order of their numbers.
    waiting: VecDeque<Bytes>,
    /// The tags of the numbers from the least that is not acknowledged on.
    tags: VecDeque<Option<u32>>,
}

impl Model for Sender {
    ghost use Rattle.lapi_link.specs.Sender.{SendingEnd, IsSendingEnd};

    ghost Value = { SendingEnd };

    ghost view = { λ s. record { window = s.window; waiting = s.waiting.items; tags = s.tags.items } };

    ghost invariant = { λ s. IsSendingEnd (record { window = s.window; waiting = s.waiting.items; tags = s.tags.items }) };
}

impl Sender {
    /// An end that has sent nothing, with a window of that many packets.
    pub fn new(alloc: Global, window: u32) -> Result<Sender, Memory>
        requires { (1 ≤ window) × (window ≤ 64) }
        ensures { IfOk result (IsNewSender window) }
    {
        let window = SendWindow::new(alloc, window)?;
        Ok(Sender {
            window,
            waiting: VecDeque::new(alloc),
            tags: VecDeque::new(alloc),
        })
    }

    /// Gives the next number to a packet, which waits to be sent; its tag is the statement whose data it carries, if
    /// any. There is no memory for 2^32 packets.
    pub fn append(&mut self, packet: Bytes, tag: Option<u32>) -> Result<(), Memory>
        requires { length packet ≤ FRAME_ROOM }
        ensures { OnOk result (self.new ≡ appended self.old packet tag) }
    {
        if self.window.numbers() == u32::MAX {
            return Err(Memory);
        }
        self.tags.reserve(1)?;
        self.waiting.push_back(packet.into_shared()?)?;
        self.tags.push_back_reserved(tag);
        self.window.append(1);
        Ok(())
    }

    /// Sends what the window allows of the packets that wait.
    pub fn send(&mut self, to: u32, entries: &mut Entries) -> Result<(), Memory>
        ensures sent { OnOk result (self.new ≡ sent self.old (sendable self.old)) }
        ensures entries { OnOk result (entries.new ≡ entries.old ++ entries_to to (take (sendable self.old) self.old.waiting)) }
    {
        for _ in 0..self.window.room() {
            let entry = self.send_next(to)?;
            entries.push(entry)?;
        }
        Ok(())
    }

    // Sends the packet that has waited longest, and keeps it: entry and window share its bytes.
    fn send_next(&mut self, to: u32) -> Result<WireEntry, Memory>
        requires { MaySend self.old.window }
        ensures sent { OnOk result (self.new ≡ sent self.old 1) }
        ensures entry { IfOk result (λ entry. entries_to to (take 1 self.old.waiting) ≡ entry ∷ []) }
    {
        let alloc = *self.waiting.allocator();
        let bytes = self.waiting.front().unwrap().copy(alloc)?;
        let kept = self.waiting.pop_front().unwrap();
        self.window.sent(kept);
        Ok(WireEntry { to, bytes })
    }

    /// Sends again what was sent and is not acknowledged.
    pub fn resend(&self, alloc: Global, to: u32, entries: &mut Entries) -> Result<(), Memory>
        ensures { OnOk result (entries.new ≡ entries.old ++ entries_to to (kept self.now)) }
    {
        for number in self.window.base()..self.window.sent_end() {
            if let Some(packet) = self.window.packet(number) {
                let bytes = packet.copy(alloc)?;
                entries.push(WireEntry { to, bytes })?;
            }
        }
        Ok(())
    }

    /// Notes what an acknowledgement covers, and answers the tags of the numbers that it is the first to cover.
    pub fn acked(&mut self, base: u32, bits: u64) -> Tags
        requires { (n : ℕ) → is_covered base bits n ≡ true → n < sent_count self.old.window }
        ensures acked { IsAcked self.old self.new base bits }
        ensures tags { result ≡ newly_acked self.old base bits }
        ensures once { newly_acked self.new base bits ≡ [] }
    {
        let tags = self.newly_acked(base, bits);
        let first = self.window.base();
        self.window.acked(base, bits);
        drop_front(&mut self.tags, self.window.base() - first);
        tags
    }

    // The tags of the numbers that were not acknowledged before, and that an acknowledgement covers.
    fn newly_acked(&self, base: u32, bits: u64) -> Tags
        ensures { result ≡ newly_acked self.now base bits }
    {
        let mut tags = Tags::new();
        for number in self.window.base()..self.window.sent_end() {
            if let Some(tag) = self.newly_covered_tag(number, base, bits) {
                tags.push(tag);
            }
        }
        tags
    }

    // The tag of a number that is not acknowledged, where an acknowledgement covers it.
    fn newly_covered_tag(&self, number: u32, base: u32, bits: u64) -> Option<u32>
        requires { self.now.window.acked.base ≤ number }
        ensures { result ≡ newly_covered_tag self.now base bits number }
    {
        if !self.window.is_unacked(number) || !covers(base, bits, number) {
            return None;
        }
        let place = (number - self.window.base()) as usize;
        tag_at(&self.tags, place)
    }

    /// Whether all that was sent is acknowledged, and nothing more would be sent now.
    pub fn is_settled(&self) -> bool
        ensures { result ≡ (length (unacked self.now.window) == 0 && sendable self.now == 0) }
    {
        self.window.unacked_len() == 0 && (self.waiting.is_empty() || self.window.next().is_none())
    }

    /// The numbers of the link.
    pub fn window(&self) -> &SendWindow
        ensures { result.now ≡ self.now.window }
    {
        &self.window
    }
}

// The tag at a place, if there is one.
fn tag_at(tags: &VecDeque<Option<u32>>, place: usize) -> Option<u32>
    ensures { result ≡ slice_index_or tags.now.items place None }
{
    match tags.get(place) {
        Some(tag) => *tag,
        None => None,
    }
}

// Lets go of the first tags.
fn drop_front(tags: &mut VecDeque<Option<u32>>, count: u32)
    ensures { tags.new.items ≡ drop count tags.old.items }
{
    for _ in 0..count {
        tags.pop_front();
    }
}
