// The grounds on which a table, or what is lent beside it, is refused.
ghost use Rattle.std.specs.Prelude.{◌≡◌};
ghost use Rattle.table.specs.Refusal.{refusal_number};

// A refusal, by its ground; docs/FORMAT.md has each in full. The grounds of a run under a schedule, 16 and 17, are no
// refusals of a table: see `Ending` of the runner.
#[derive(Clone, Copy, Debug, PartialEq, Eq)]
pub enum Refusal {
    NoBytes,
    RoutineCount,
    ShortHead,
    ParamCount,
    LongBodies,
    BodiesLength,
    CutBody,
    UnknownCode,
    Misplaced,
    TooDeep,
    TooMany,
    UnknownRoutine,
    UnknownName,
    LeftOver,
    ShortModel,
    OtherTable,
    BadModel,
    ShortOutput,
}

impl From<Refusal> for u32 {
    ghost from_gives = { λ r n. n ≡ refusal_number r };

    // The refusal's number, as docs/FORMAT.md has it.
    fn from(r: Refusal) -> u32 {
        match r {
            Refusal::NoBytes => 1,
            Refusal::RoutineCount => 2,
            Refusal::ShortHead => 3,
            Refusal::ParamCount => 4,
            Refusal::LongBodies => 5,
            Refusal::BodiesLength => 6,
            Refusal::CutBody => 7,
            Refusal::UnknownCode => 8,
            Refusal::Misplaced => 9,
            Refusal::TooDeep => 10,
            Refusal::TooMany => 11,
            Refusal::UnknownRoutine => 12,
            Refusal::UnknownName => 13,
            Refusal::LeftOver => 14,
            Refusal::ShortModel => 15,
            Refusal::OtherTable => 18,
            Refusal::BadModel => 19,
            Refusal::ShortOutput => 20,
        }
    }
}
