use lapi_base::Status;
use std::str;

/// What came of a command: its status, and the bytes that its sink holds.
#[derive(Drop)]
pub struct Ran {
    status: Status,
    held: Vec<u8>,
}

impl Ran {
    pub fn new(status: Status, held: Vec<u8>) -> Ran {
        Ran { status, held }
    }

    pub fn status(&self) -> u8 {
        self.status as u8
    }

    pub fn held(&self) -> &[u8] {
        self.held.as_slice()
    }

    /// The bytes as text; they are always ASCII, but for a capture.
    pub fn text(&self) -> &str {
        str::from_utf8(self.held.as_slice()).unwrap_or("bytes that are no text")
    }
}
