ghost use Rattle.std.specs.Prelude.{◌≡◌};

use crate::address::Addr;
use crate::piece::PieceList;

/// The pieces of one side of a `putv` or a `getv`.
#[derive(Debug, Drop)]
pub enum Vector {
    List(PieceList),
    /// `count` pieces of `block` bytes, each `stride` bytes after the one before.
    Stride {
        base: Addr,
        block: u32,
        stride: u32,
        count: u32,
    },
}

impl Vector {
    /// A copy of the vector.
    pub fn copy(&self) -> Vector
        ensures { result ≡ self.now }
    {
        match self {
            Vector::List(pieces) => Vector::List(pieces.copy()),
            Vector::Stride {
                base,
                block,
                stride,
                count,
            } => Vector::Stride {
                base: *base,
                block: *block,
                stride: *stride,
                count: *count,
            },
        }
    }
}
