//! What a script's layout of packets sets, and the constants of packets and inputs.

ghost use Rattle.std.specs.Prelude.{◌≡◌, ◌⊎◌, ◌≤◌};
ghost use Rattle.lapi_base.specs.Packet.Layout.{is_version, layout_of, unit, longest, waits_for_poll, has_echo, most_lines, unit_of, window_of, longest_of, longest_active_of, may_answer};

use crate::script::Script;
use crate::sizes::Sizes;

/// The bytes of each fragment but the last, in the first layout.
pub const FIRST_UNIT: u32 = 256;

const SECOND_UNIT: u32 = 1_024;

const FIRST_LONGEST: u32 = 16_384;

const SECOND_LONGEST: u32 = 65_536;

/// The bytes of the longest active message, in each layout.
pub const LONGEST_ACTIVE: u32 = 16_384;

const FIRST_WINDOW: u32 = 32;

const SECOND_WINDOW: u32 = 64;

/// The packets of the widest window.
pub const WIDEST_WINDOW: usize = 64;

/// The most bytes that a payload has room for.
pub const PAYLOAD_ROOM: usize = 1_024;

/// The most bytes that a frame has room for.
pub const FRAME_ROOM: usize = 1_280;

/// The most bytes that are shown.
pub const MOST_SHOWN: usize = 1_280;

/// The most bytes that a line injects, in each layout.
pub const MOST_INJECTED: usize = 1_280;

/// The most bytes of an input text.
pub const LONGEST_INPUT: usize = 4_194_304;

/// Whether there is a layout of this number.
pub fn is_version(layout: u32) -> bool
    ensures { result ≡ is_version layout }
{
    layout == 1 || layout == 2
}

/// The bytes of each fragment but the last, in a layout.
#[tactic(auto, using(crate::proofs::LayoutLaws::unit_by))]
pub fn unit_in(layout: u32) -> u32
    ensures unit { result ≡ unit (layout_of layout) }
    ensures one { (result ≡ 256) ⊎ (result ≡ 1024) }
{
    if layout == 2 { SECOND_UNIT } else { FIRST_UNIT }
}

/// The bytes of the longest message that isn't an active message, in a layout.
#[tactic(auto, using(crate::proofs::LayoutLaws::longest_by))]
pub fn longest_in(layout: u32) -> u32
    ensures { result ≡ longest (layout_of layout) }
{
    if layout == 2 {
        SECOND_LONGEST
    } else {
        FIRST_LONGEST
    }
}

/// Whether acknowledgements wait for the receiver's next poll, in a layout.
#[tactic(auto, using(crate::proofs::LayoutLaws::waits_for_poll_by))]
pub fn waits_for_poll(layout: u32) -> bool
    ensures { result ≡ waits_for_poll (layout_of layout) }
{
    layout == 2
}

/// Whether a completion handler may answer the origin, in a layout.
#[tactic(auto, using(crate::proofs::LayoutLaws::has_echo_by))]
pub fn has_echo(layout: u32) -> bool
    ensures { result ≡ has_echo (layout_of layout) }
{
    layout == 2
}

impl Sizes {
    /// The bytes of each fragment but the last.
    pub fn unit(self) -> u32
        ensures unit { result ≡ unit (layout_of self.layout) }
        ensures one { (result ≡ 256) ⊎ (result ≡ 1024) }
    {
        unit_in(self.layout)
    }

    /// The bytes of the longest message that isn't an active message.
    pub fn longest(self) -> u32
        ensures { result ≡ longest (layout_of self.layout) }
    {
        longest_in(self.layout)
    }
}

impl Script {
    /// The bytes of each fragment but the last.
    #[tactic(auto, unfolding(crate::specs::Packet::Layout::unit_of), using(crate::proofs::LayoutLaws::unit_by))]
    pub fn unit(&self) -> u32
        ensures unit { result ≡ unit_of self.now }
        ensures one { (result ≡ 256) ⊎ (result ≡ 1024) }
    {
        self.sizes().unit()
    }

    /// How many packets from the least that is not acknowledged on a link sends.
    #[tactic(auto, unfolding(crate::specs::Packet::Layout::window_of), using(crate::proofs::LayoutLaws::window_by))]
    pub fn window(&self) -> u32
        ensures window { result ≡ window_of self.now }
        ensures bounded { (1 ≤ result) × (result ≤ 64) }
    {
        if self.layout == 2 {
            SECOND_WINDOW
        } else {
            FIRST_WINDOW
        }
    }

    /// The bytes of the longest message that isn't an active message.
    #[tactic(auto, unfolding(crate::specs::Packet::Layout::longest_of), using(crate::proofs::LayoutLaws::longest_by))]
    pub fn longest(&self) -> u32
        ensures { result ≡ longest_of self.now }
    {
        self.sizes().longest()
    }

    /// The bytes of the longest active message.
    #[tactic(auto, unfolding(crate::specs::Packet::Layout::longest_active_of), using(crate::proofs::LayoutLaws::longest_active_by))]
    pub fn longest_active(&self) -> u32
        ensures { result ≡ longest_active_of self.now }
    {
        LONGEST_ACTIVE
    }

    /// Whether a completion handler may answer the origin.
    #[tactic(auto, unfolding(crate::specs::Packet::Layout::may_answer))]
    pub fn may_answer(&self) -> bool
        ensures { result ≡ may_answer self.now }
    {
        has_echo(self.layout)
    }

    /// The most lines of a schedule.
    #[tactic(auto, using(crate::proofs::LayoutLaws::most_lines_by))]
    pub fn most_lines(&self) -> usize
        ensures { result ≡ most_lines (layout_of self.now.layout) }
    {
        if self.layout == 2 { 5_000 } else { 20_000 }
    }
}
