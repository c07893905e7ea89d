ghost use Rattle.std.specs.Prelude.{◌≡◌, ℕ, ◌≤◌, ◌<◌, List, length, Ok, Err, true};
ghost use Rattle.std.specs.List.{AllByRecursion, flat_map};
ghost use Rattle.lapi_base.specs.declared.event.Event.{Event};
ghost use Rattle.lapi_base.specs.declared.rule.Rules.{Rules};
ghost use Rattle.lapi_base.specs.declared.script.Script.{Script};
ghost use Rattle.lapi_base.specs.Output.JournalText.{event_line};
ghost use Rattle.lapi_base.specs.Record.Atomic.{is_there};
ghost use Rattle.lapi_base.specs.Record.Valid.{ValidScript};
ghost use Rattle.lapi_base.specs.declared.audit_input.AuditInput.{AuditInput};
ghost use Rattle.lapi_base.specs.declared.input.Which.TheVariants as which;
ghost use Rattle.lapi_base.specs.declared.input.LineError.{LineError};
ghost use Rattle.lapi_base.specs.declared.input.LineError.TheVariants.{Limit};
ghost use Rattle.lapi_base.specs.Input.AuditReading.{read_audit};
ghost use Rattle.lapi_base.specs.Input.AuditRows.{IsAuditText, IsFirstAuditFault, audit_text, most_events};
ghost use Rattle.lapi_base.specs.Input.Lines.{lines_of};
ghost use Rattle.lapi_base.specs.Input.Reading.{most_input};

/// The laws of the text of an audit. Nothing runs: a caller takes them from the contract.
pub fn audit_text_laws()
    // What is read is spelled so, within all limits, and what is spelled so is read.
    ensures found { (bytes : List ℕ) (x : AuditInput) → read_audit bytes ≡ Ok x → IsAuditText x bytes }
    ensures only { (bytes : List ℕ) (x : AuditInput) → length bytes ≤ most_input → IsAuditText x bytes
        → read_audit bytes ≡ Ok x }
    // The line of a fault is the first up to which the lines begin no audit's text.
    ensures first { (bytes : List ℕ) (why : LineError) (l : ℕ) → length bytes ≤ most_input
        → read_audit bytes ≡ Err (why, l) → IsFirstAuditFault (lines_of bytes) l }
    ensures long { (bytes : List ℕ) → most_input < length bytes
        → read_audit bytes ≡ Err (Limit which.Input, 0) }
    // The canonical lines of a script, and the text of few events that are there, are their text.
    ensures written { (script : Script) (rules : Rules) (events : List Event) → ValidScript script
        → length events ≤ most_events
        → AllByRecursion (λ e. is_there script rules e ≡ true) events
        → IsAuditText (record { script = script; journal = events }) (audit_text script (flat_map event_line events)) }
{}
