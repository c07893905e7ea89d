use crate::bytes::Bytes;

/// What is written of the record of all lines of an input.
#[derive(Clone, Copy, Debug, Eq, PartialEq)]
pub enum View {
    /// How far the lines have come: counts, tasks with counters and memory, and quiet.
    Report,
    /// What happened, in order.
    Journal,
    /// The entries of every wire.
    Wires,
    /// Each line with its reply.
    Trace,
    /// What the switch handed over, as bytes.
    Capture,
}

/// What the words of a command ask for.
#[derive(Debug, Drop)]
pub enum Command {
    /// To read an input, and to write this of it.
    Read(View),
    /// To read an input, and to write how many tasks, statements and lines it has; no line is performed.
    Check,
    /// To read a script and events, and to write whether they are a journal of the atomic message machine.
    Audit,
    /// To read a capture, and to write the landings in it.
    Landings,
    /// To read a plan of operations on a block array, and to write what its tasks hold once it has run.
    Array,
    /// To show the packet that these bytes spell.
    Show(Bytes),
    /// To write the input that this number generates.
    Gen(u32),
    /// To perform every line of the input that this number generates, and to write a summary of its record.
    Sum(u32),
}
