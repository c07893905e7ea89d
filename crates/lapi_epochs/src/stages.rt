//! Stages: what the memories of a script hold after each epoch.
ghost use Rattle.lapi_base.specs.Laws.Headline.{HoldsOfAtomic, HoldsOfJournals};
ghost use Rattle.lapi_epochs.specs.Stages.{BytesAreStages, EndsAreStages};

/// Where operations read nothing that another of their epoch writes, a byte is that of a stage once it has the writes
/// of so many epochs and no others, and at the end all memories are those of the last stage.
pub fn memories_are_stages()
    ensures bytes { HoldsOfAtomic BytesAreStages }
    ensures ends { HoldsOfAtomic EndsAreStages }
    ensures bytes_of_runs { HoldsOfJournals BytesAreStages }
    ensures ends_of_runs { HoldsOfJournals EndsAreStages }
{}
