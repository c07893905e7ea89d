use lapi_base::MsgName;

/// A message of which the last missing fragment came to task `to` in frame `frame`.
#[derive(Clone, Copy, Debug, Eq, PartialEq)]
pub struct Landing {
    /// The frame's number, from 0.
    pub frame: u32,
    pub name: MsgName,
    pub to: u32,
}
