/// An address at another task.
#[derive(Clone, Copy, Debug, Eq, PartialEq)]
pub enum Addr {
    /// A place in its memory.
    Plain(u32),
    /// The place that it gave to an `address_init` round, and an offset from there.
    Table { round: u32, offset: u32 },
}

impl Default for Addr {
    fn default() -> Addr {
        Addr::Plain(0)
    }
}
