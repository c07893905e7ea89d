//! The format of captures:
//!
//! ```text
//! capture   4c 4c 43 01 | frame | frame | .. | ff
//! frame     from | to | size, two bytes, the high one first | as many bytes as size says
//! ```

ghost use Rattle.std.specs.Prelude.{◌≡◌, ◌≤◌, ◌+◌, length};
ghost use Rattle.lapi_capture.specs.Format.{byte_at, size_of};

/// The last task that there may be.
pub(crate) const LAST_TASK: u8 = 7;

/// The most bytes that a frame hands over.
pub(crate) const LONGEST: usize = 1_280;

/// The most frames of a capture.
pub(crate) const MOST_FRAMES: u32 = 20_000;

/// The bytes of a frame before those that it hands over.
pub(crate) const FRONT: usize = 4;

/// The bytes of the longest capture: with as many frames as there may be, each as long as one may be.
pub const LONGEST_CAPTURE: usize = 25_680_005;

/// The most bytes of a frame that its first four can tell.
pub(crate) const MOST_TOLD: usize = 65_539;

/// A byte, and 0 behind the last.
pub(crate) fn byte_at(bytes: &[u8], index: usize) -> u8
    ensures { result ≡ byte_at bytes.now index }
{
    if index < bytes.len() { bytes[index] } else { 0 }
}

/// The size that a frame tells.
pub(crate) fn size_of(frame: &[u8]) -> usize
    requires { FRONT ≤ length frame.now }
    ensures size { result ≡ size_of frame.now }
    ensures small { FRONT + result ≤ MOST_TOLD }
{
    256 * frame[2] as usize + frame[3] as usize
}
