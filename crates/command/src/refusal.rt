// Why something is refused, and 01's number for it.
ghost use Rattle.std.specs.Prelude.{◌≡◌};
ghost use Rattle.command.specs.Numbers.{refusal_number, column_at, refusal_column, verdict_number};

// The first wrong place of a text.
#[derive(Clone, Copy)]
pub enum Misread {
    // A letter that is not allowed here, at its place.
    Letter(usize),
    // A wrong operand text: where it begins, and how many of its characters were read.
    Operand { place: usize, read: usize },
}

#[derive(Clone, Copy)]
pub enum Refusal {
    Misread(Misread),
    // No report has this number.
    Report,
    // Loops that are no tree of commands and loops, or deeper than 4.
    Loops,
    // v above V.
    StartAboveTop,
    // A goal outside travel.
    Outside,
    // B with p5 of 1 and p2 of 0.
    NoWayDown,
    // A reading outside -32767 to 32767.
    TooMuchPressure,
    // B has found no liquid.
    NoLiquid,
    NotInitialised,
    // E, and the tip is still there.
    StillThere,
    // E0 without a tip.
    NoTip,
    NothingToRun,
    // Data or text.
    TooLong,
    Busy,
}

// That something is refused, and why; or not.
pub type Verdict = Result<(), Refusal>;

// The column of a place, counted from 1; data have 320 characters at most.
fn column_at(place: usize) -> u32
    ensures { result ≡ column_at place }
{
    place.min(320) as u32 + 1
}

impl Misread {
    fn column(self) -> u32
        ensures { result ≡ refusal_column (Refusal.Misread self) }
    {
        match self {
            Misread::Letter(place) | Misread::Operand { place, .. } => column_at(place),
        }
    }

    pub fn number(self) -> u8
        ensures { result ≡ refusal_number (Refusal.Misread self) }
    {
        match self {
            Misread::Letter(_) => 2,
            Misread::Operand { .. } => 3,
        }
    }
}

impl Refusal {
    // 01's number.
    pub fn number(self) -> u8
        ensures { result ≡ refusal_number self }
    {
        match self {
            Refusal::Misread(m) => m.number(),
            Refusal::Report
            | Refusal::Loops
            | Refusal::StartAboveTop
            | Refusal::Outside
            | Refusal::NoWayDown => 3,
            Refusal::TooMuchPressure => 5,
            Refusal::NoLiquid => 6,
            Refusal::NotInitialised => 7,
            Refusal::StillThere => 8,
            Refusal::NoTip => 10,
            Refusal::NothingToRun => 14,
            Refusal::TooLong | Refusal::Busy => 15,
        }
    }

    // Where a string is wrong, from 1; 0 for every other refusal.
    pub fn column(self) -> u32
        ensures { result ≡ refusal_column self }
    {
        match self {
            Refusal::Misread(m) => m.column(),
            _ => 0,
        }
    }
}

// 0, or 01's number for why.
pub fn number(verdict: Verdict) -> u8
    ensures { result ≡ verdict_number verdict }
{
    match verdict {
        Ok(()) => 0,
        Err(why) => why.number(),
    }
}
