//! What the commands `journal` and `audit` tell one after the other.
ghost use Rattle.lapi_base.specs.declared.input.Input.{Input};
ghost use Rattle.lapi_base.specs.declared.rule.Rules.{Rules};
ghost use Rattle.lapi_base.specs.Packet.Spelling.{spells_packet};
ghost use Rattle.lapi_base.specs.Record.Valid.{ValidScript, ValidSchedule};
ghost use Rattle.lapi_tool.specs.AuditedJournals.{IsToldAtomic};

use lapi_audit::journals_are_audited;

/// Whatever a valid input is, the command `audit` tells of its script with what `journal` tells of it that the events
/// are atomic. Nothing runs: a caller takes this from the contract.
pub fn journals_are_told_atomic()
    ensures { (rules : Rules) (x : Input) → ValidScript x.script → ValidSchedule x.script spells_packet x.schedule
        → IsToldAtomic rules x }
{
    journals_are_audited();
}
