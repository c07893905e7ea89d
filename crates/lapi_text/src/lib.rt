//! What holds of the texts of an input and of an audit, read and written. The laws are the contract of functions
//! without a body.
#![tactic(auto)]

mod audits;

ghost use Rattle.std.specs.Prelude.{◌≡◌, ℕ, ◌≤◌, ◌<◌, List, length, Ok, Err};
ghost use Rattle.lapi_base.specs.declared.input.Input.{Input};
ghost use Rattle.lapi_base.specs.declared.input.Which.TheVariants as which;
ghost use Rattle.lapi_base.specs.declared.input.LineError.{LineError};
ghost use Rattle.lapi_base.specs.declared.input.LineError.TheVariants.{Limit};
ghost use Rattle.lapi_base.specs.Input.Faults.{IsKind};
ghost use Rattle.lapi_base.specs.Input.Lines.{lines_of};
ghost use Rattle.lapi_base.specs.Input.Reading.{read, most_input};
ghost use Rattle.lapi_base.specs.Input.Rows.{IsInputText, IsFirstFault, canon};
ghost use Rattle.lapi_base.specs.Packet.Spelling.{spells_packet};
ghost use Rattle.lapi_base.specs.Record.Valid.{ValidScript, ValidSchedule};

pub use audits::audit_text_laws;

/// The laws of the text of an input. Nothing runs: a caller takes them from the contract.
pub fn text_laws()
    // What is read is spelled so, within all limits, and what is spelled so is read.
    ensures found { (bytes : List ℕ) (x : Input) → read bytes ≡ Ok x → IsInputText x bytes }
    ensures only { (bytes : List ℕ) (x : Input) → length bytes ≤ most_input → IsInputText x bytes
        → read bytes ≡ Ok x }
    ensures one_input { (bytes : List ℕ) (x y : Input) → IsInputText x bytes → IsInputText y bytes → x ≡ y }

    // The line of a fault is the first up to which the lines begin no input. It is a fault of syntax where they
    // begin nothing of an input's form, and of a limit where they do and all such inputs pass that limit.
    ensures first { (bytes : List ℕ) (why : LineError) (l : ℕ) → length bytes ≤ most_input
        → read bytes ≡ Err (why, l) → IsFirstFault (lines_of bytes) l }
    ensures kind { (bytes : List ℕ) (why : LineError) (l : ℕ) → length bytes ≤ most_input
        → read bytes ≡ Err (why, l) → IsKind (lines_of bytes) why l }
    ensures long { (bytes : List ℕ) → most_input < length bytes → read bytes ≡ Err (Limit which.Input, 0) }

    // The canonical text of a valid input is its own, and reads back to it.
    ensures written { (x : Input) → ValidScript x.script
        → ValidSchedule x.script spells_packet x.schedule → IsInputText x (canon x) }
    ensures round_trip { (x : Input) → ValidScript x.script
        → ValidSchedule x.script spells_packet x.schedule
        → length (canon x) ≤ most_input → read (canon x) ≡ Ok x }
{}
