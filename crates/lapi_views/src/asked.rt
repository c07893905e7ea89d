use crate::part::Part;

/// What the words ask for.
#[derive(Clone, Copy, Debug)]
pub enum Asked {
    /// The packets that the switch handed over.
    Packets,
    /// The chart of these lines.
    Chart(Part),
}
