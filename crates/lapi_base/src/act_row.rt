ghost use Rattle.std.specs.Prelude.{◌≡◌, ◌≤◌, length, None};
ghost use Rattle.lapi_base.specs.Input.Rows.{act_row};
ghost use Rattle.lapi_base.specs.Input.ActRows.{row_of};

use crate::schedule::Act;
use arrayvec::ArrayVec;

/// The row of an act: its word, its numbers, and the bytes that are injected, if it injects some.
#[derive(Debug, Drop)]
pub struct ActRow<'a> {
    pub word: &'static str,
    pub numbers: ArrayVec<u32, 4>,
    pub injected: Option<&'a [u8]>,
}

impl Act {
    /// As it stands in a text.
    pub fn row(&self) -> ActRow<'_>
        ensures row { row_of result ≡ act_row self.now }
        ensures short { length result.word.now ≤ 7 }
        ensures few { length result.numbers.items ≤ 4 }
    {
        match self {
            Act::Step(t) => plain("step", &[*t]),
            Act::Poll(t) => plain("poll", &[*t]),
            Act::Tick(t) => plain("tick", &[*t]),
            Act::Deliver { a, b, k } => plain("deliver", &[*a, *b, *k]),
            Act::Cut { a, b, k, n } => plain("cut", &[*a, *b, *k, *n]),
            Act::Inject { a, b, bytes } => {
                let mut row = plain("inject", &[*a, *b]);
                row.injected = Some(bytes.as_slice());
                row
            }
            Act::Begin { task, worker } => plain("begin", &[*task, *worker]),
            Act::End { task, worker } => plain("end", &[*task, *worker]),
        }
    }
}

/// A word and numbers alone.
fn plain<'a>(word: &'static str, numbers: &[u32]) -> ActRow<'a>
    requires { length numbers.now ≤ 4 }
    ensures word { result.word.now ≡ word.now }
    ensures numbers { result.numbers.items ≡ numbers.now }
    ensures injected { result.injected ≡ None }
{
    let mut row = ActRow {
        word,
        numbers: ArrayVec::new(),
        injected: None,
    };
    row.numbers.try_extend_from_slice(numbers).unwrap();
    row
}
