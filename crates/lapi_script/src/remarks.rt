//! Remarks that are skipped before any line is cut.

ghost use Rattle.std.specs.Prelude.{◌<◌, length, IfSome};
ghost use Rattle.lapi_script.specs.Left.{IsBehindRemark};

/// How far the end of a remark is looked for byte by byte.
const NEAR: usize = 16;

/// What follows a short remark that stands first, where each of its bytes may stand in a line.
pub(crate) fn behind_remark(bytes: &[u8]) -> Option<&[u8]>
    ensures remark { IfSome result (λ behind. IsBehindRemark bytes.now behind.now) }
    ensures shorter { IfSome result (λ behind. length behind.now < length bytes.now) }
{
    if bytes.len() < NEAR || bytes[0] != b'#' {
        return None;
    }
    for place in 1..NEAR {
        let byte = bytes[place];
        if byte == b'\n' {
            let (_, behind) = bytes.split_at(place + 1);
            return Some(behind);
        }
        if byte < 32 || byte > 126 {
            return None;
        }
    }
    None
}
