ghost use Rattle.std.specs.Prelude.{◌≡◌, ◌≤◌, length};
ghost use Rattle.lapi_base.specs.Output.TextParts.{refusal_number, refusal_name};

/// Why a statement was refused, in the order in which the reasons are judged.
#[derive(Clone, Copy, Debug, Eq, PartialEq)]
pub enum Refusal {
    BadTask,
    BadTargetRange,
    BadOriginRange,
    BadCounter,
    TooLong,
    NoTable,
    BadHandler,
    BadUserHeader,
    VecCount,
    VecLength,
    StrideBelowBlock,
    Misaligned,
}

impl Refusal {
    /// Its number among the reasons, from 1 to 12.
    pub fn number(self) -> u32
        ensures { result ≡ refusal_number self }
    {
        match self {
            Refusal::BadTask => 1,
            Refusal::BadTargetRange => 2,
            Refusal::BadOriginRange => 3,
            Refusal::BadCounter => 4,
            Refusal::TooLong => 5,
            Refusal::NoTable => 6,
            Refusal::BadHandler => 7,
            Refusal::BadUserHeader => 8,
            Refusal::VecCount => 9,
            Refusal::VecLength => 10,
            Refusal::StrideBelowBlock => 11,
            Refusal::Misaligned => 12,
        }
    }

    /// Its name, as it is written.
    pub fn name(self) -> &'static str
        ensures name { result.now ≡ refusal_name self }
        ensures short { length result.now ≤ 16 }
    {
        match self {
            Refusal::BadTask => "BadTask",
            Refusal::BadTargetRange => "BadTargetRange",
            Refusal::BadOriginRange => "BadOriginRange",
            Refusal::BadCounter => "BadCounter",
            Refusal::TooLong => "TooLong",
            Refusal::NoTable => "NoTable",
            Refusal::BadHandler => "BadHandler",
            Refusal::BadUserHeader => "BadUserHeader",
            Refusal::VecCount => "VecCount",
            Refusal::VecLength => "VecLength",
            Refusal::StrideBelowBlock => "StrideBelowBlock",
            Refusal::Misaligned => "Misaligned",
        }
    }
}
