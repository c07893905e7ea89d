//! What the audit tells of the journal of any run.
ghost use Rattle.lapi_base.specs.Laws.Headline.{HoldsOfRuns};
ghost use Rattle.lapi_audit.specs.Audited.{HasFewEvents, IsReadBack, IsJudgedAtomic};

use lapi_laws::journal_is_atomic;
use lapi_text::audit_text_laws;

/// The text of a journal, behind the canonical lines of its script, is read as that script and those events, of
/// which an audit takes as many as any run has; and whatever verdict there is on them is `Atomic`. Nothing runs: a
/// caller takes this from the contract.
pub fn journals_are_audited()
    ensures few { HoldsOfRuns HasFewEvents }
    ensures read { HoldsOfRuns IsReadBack }
    ensures atomic { HoldsOfRuns IsJudgedAtomic }
{
    journal_is_atomic();
    audit_text_laws();
}
