ghost use Rattle.std.specs.Prelude.{◌≡◌};
ghost use Rattle.lapi_picture.specs.Labels.{deed_word};

/// What a line of a schedule does at its task.
#[derive(Clone, Copy, Debug)]
pub enum Deed {
    Step,
    Poll,
    Tick,
    /// The switch hands over entry `place` of the wire from task `from`.
    Deliver { from: u32, place: u32 },
    /// The switch hands over the first `count` bytes of that entry.
    Cut { from: u32, place: u32, count: u32 },
    /// The switch hands over bytes that spell no packet, as from task `from`.
    Inject { from: u32 },
    /// A worker takes a job.
    Begin { worker: u32 },
    End { worker: u32 },
}

impl Deed {
    /// Its word in a schedule.
    #[tactic(auto, unfolding(crate::specs::Labels::deed_word))]
    pub fn word(self) -> &'static str
        ensures { result.now ≡ deed_word self }
    {
        match self {
            Deed::Step => "step",
            Deed::Poll => "poll",
            Deed::Tick => "tick",
            Deed::Deliver { .. } => "deliver",
            Deed::Cut { .. } => "cut",
            Deed::Inject { .. } => "inject",
            Deed::Begin { .. } => "begin",
            Deed::End { .. } => "end",
        }
    }
}
