use lapi_base::{Bytes, Head, HeaderOut, MsgName};

/// A message of which all fragments have come.
#[derive(Debug, Drop)]
pub struct Message {
    pub name: MsgName,
    pub head: Head,
    pub bytes: Bytes,
    /// What the header handler answered, where an answer was kept.
    pub out: Option<HeaderOut>,
}
