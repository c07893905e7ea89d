use crate::event::Events;
use crate::script::Script;

/// What an audit's text says: a script, and events that may be a journal of it.
#[derive(Debug, Drop)]
pub struct AuditInput {
    pub script: Script,
    pub journal: Events,
}
