ghost use Rattle.std.specs.Prelude.{◌≡◌, ◌↔◌, IsTrue};
ghost use Rattle.lapi_base.specs.Record.Names.{leg_eq, name_eq};

/// One of the messages of a statement.
#[derive(Clone, Copy, Debug, Eq, PartialEq)]
pub enum Leg {
    /// The data or the request, from the origin.
    Go,
    /// The data or the word that was asked for, to the origin.
    Back,
    /// Tells the origin's completion counter.
    Note,
    /// The word that a completion handler answers, to the origin; it takes the notice's place.
    Echo,
    /// Tells this task that the origin has entered a collective call.
    Join(u32),
}

impl Leg {
    /// Whether the two are one.
    pub fn is_same(self, other: Leg) -> bool
        ensures test { result ≡ leg_eq self other }
        ensures same { IsTrue result ↔ (self ≡ other) }
    {
        self == other
    }
}

/// A message's name: statement `statement` of task `origin`, and the leg.
#[derive(Clone, Copy, Debug, Eq, PartialEq)]
pub struct MsgName {
    pub origin: u32,
    pub statement: u32,
    pub leg: Leg,
}

impl MsgName {
    /// Whether both are names of one message.
    #[tactic(auto, unfolding(crate::specs::Record::Names::name_eq))]
    pub fn is_same(self, other: MsgName) -> bool
        ensures test { result ≡ name_eq self other }
        ensures same { IsTrue result ↔ (self ≡ other) }
    {
        self.origin == other.origin
            && self.statement == other.statement
            && self.leg.is_same(other.leg)
    }
}
