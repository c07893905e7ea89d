ghost use Rattle.std.specs.Prelude.{◌≡◌, ◌<◌, ◌≤◌};
ghost use Rattle.lapi_gen.specs.declared.form.TheConstants.{KINDS, LONGEST};
ghost use Rattle.lapi_gen.specs.Batches.{kind_of, packets, requests_of, answers_of};

use lapi_base::FIRST_UNIT;

/// What each task calls in a batch.
#[derive(Clone, Copy, Debug)]
pub enum Kind {
    Put,
    Get,
    /// A read-modify-write.
    Rmw,
    /// An active message.
    Am,
}

impl Kind {
    /// The kind of a number.
    pub fn of(number: u32) -> Kind
        requires { number < KINDS }
        ensures { result ≡ kind_of number }
    {
        match number {
            0 => Kind::Put,
            1 => Kind::Get,
            2 => Kind::Rmw,
            3 => Kind::Am,
            _ => unreachable!(),
        }
    }

    /// How many packets a request of so many bytes has.
    pub fn requests(self, len: u32) -> u32
        requires { len ≤ LONGEST }
        ensures { result ≡ requests_of self len }
    {
        match self {
            Kind::Put | Kind::Am => packets(len),
            Kind::Get | Kind::Rmw => 1,
        }
    }

    /// How many packets its answer has.
    pub fn answers(self, len: u32) -> u32
        requires { len ≤ LONGEST }
        ensures { result ≡ answers_of self len }
    {
        match self {
            Kind::Get => packets(len),
            Kind::Put | Kind::Rmw | Kind::Am => 1,
        }
    }
}

/// How many packets carry so many bytes.
fn packets(len: u32) -> u32
    requires { len ≤ LONGEST }
    ensures { result ≡ packets len }
{
    len.div_ceil(FIRST_UNIT).max(1)
}
