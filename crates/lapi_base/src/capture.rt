//! The constants of captures.

/// The bytes that each capture begins with.
pub const CAPTURE_MAGIC: [u8; 4] = [0x4c, 0x4c, 0x43, 0x01];

/// The byte behind the last frame of a capture.
pub const CAPTURE_END: u8 = 0xff;
