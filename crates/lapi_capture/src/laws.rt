ghost use Rattle.std.specs.Prelude.{ℕ, List};
ghost use Rattle.lapi_capture.specs.Reading.{Reading, IsReadingOf};
ghost use Rattle.lapi_capture.specs.Reading.{FaultsAreExact, LimitIsExact, FramesAreTold, EndIsTold, IsShort};
ghost use Rattle.lapi_capture.specs.Records.{LandingsAreTold};

use lapi_packet::spelling_laws;

/// What a reader tells of bytes: each fault exactly where they have it, and else their frames and the landings in them.
pub fn captures_are_read()
    ensures fault { (r : Reading) (bytes : List ℕ) → IsReadingOf r bytes → FaultsAreExact r bytes }
    ensures limit { (r : Reading) (bytes : List ℕ) → IsReadingOf r bytes → LimitIsExact r bytes }
    // Behind whole frames, or within a further one.
    ensures frames { (r : Reading) (bytes : List ℕ) → IsReadingOf r bytes → FramesAreTold r bytes }
    ensures end { (r : Reading) (bytes : List ℕ) → IsReadingOf r bytes → EndIsTold r bytes }
    // Without a fault they are no more than a capture may have.
    ensures longest { (r : Reading) (bytes : List ℕ) → IsReadingOf r bytes → IsShort r bytes }
{}

/// The capture of a record has no fault, and the landings in it are the Land events of the journal, in order, each with
/// the task that its message comes to.
pub fn landings_are_told()
    ensures { LandingsAreTold }
{
    spelling_laws();
}
