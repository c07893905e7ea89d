/// What is kept of a message of which a part came.
#[derive(Clone, Copy, Debug)]
pub(crate) struct Seen {
    pub(crate) layout: u32,
    pub(crate) length: u32,
    /// Bit j tells whether fragment j came.
    pub(crate) fragments: u64,
}
