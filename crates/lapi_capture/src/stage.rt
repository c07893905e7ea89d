use crate::feed_fault::FeedFault;

/// How far a reader is.
#[derive(Clone, Copy, Debug)]
pub(crate) enum Stage {
    /// Within the bytes that each capture begins with.
    Opening,
    /// Before a frame, or within one.
    Frames,
    /// Behind the end.
    Over,
    /// A fault was found.
    Faulty(FeedFault),
}
