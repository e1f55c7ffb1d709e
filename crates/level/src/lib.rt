// Liquid level detection: what a reading of the pressure is, and a search for the liquid, tick by tick. Nothing here knows a body or a text.
#![tactic(auto)]

ghost use Rattle.std.specs.Prelude.{◌≡◌, ◌≤◌};
ghost use Rattle.level.specs.Level.{pressure_of, apart, begun, later_of, left_of, limit_of, gone_in, plunger_in, far, count_with, counted_as, finding_of, sought_of, SearchOk};

use settings::{Detection, Settings, units};

// A search: where it began, the zero, its ticks, and how many readings in a row were far from the zero.
#[derive(Clone, Copy)]
pub struct Search {
    pub from: u32,
    pub zero: u32,
    pub ticks: u32,
    pub count: u32,
}

// What a tick finds: too much pressure, the liquid, that there is no way left, or nothing yet. Four ends of a tick, which no two of Option and Result would name more plainly.
#[derive(Clone, Copy)]
pub enum Finding {
    TooMuch,
    Found,
    Missed,
    On(Search),
}

// A tick of a search: where the plunger is, and what was found.
#[derive(Clone, Copy)]
pub struct Sought {
    pub plunger: u32,
    pub finding: Finding,
}

// What a reading is: how far it lies above -32767, or none outside -32767 to 32767.
#[tactic(auto, unfolding(crate::specs::Level::pressure_of))]
pub fn felt(reading: i32) -> Option<u32>
    ensures { result ≡ pressure_of reading }
{
    if reading < -32_767 || 32_767 < reading {
        return None;
    }
    Some((reading + 32_767) as u32)
}

// The travel left, up or down.
#[tactic(auto, unfolding(crate::specs::Level::left_of))]
fn left(d: Detection, from: u32) -> u32
    ensures { result ≡ left_of d «from» }
{
    if d.mode == 1 {
        from
    } else {
        Settings::INCREMENTS_MOST.saturating_sub(from)
    }
}

// How far a search may go.
#[tactic(auto, unfolding(crate::specs::Level::limit_of))]
fn limit(d: Detection, from: u32) -> u32
    ensures { result ≡ limit_of d «from» }
{
    d.most.min(left(d, from))
}

// Whether a reading is further than p0 from the zero.
#[tactic(auto, unfolding(crate::specs::Level::far, crate::specs::Level::apart))]
fn is_far(d: Detection, zero: u32, reading: u32) -> bool
    ensures { result ≡ far d zero reading }
{
    d.threshold < reading.abs_diff(zero)
}

impl Search {
    pub fn begin(from: u32, zero: u32) -> Search
        ensures { result ≡ begun «from» zero }
    {
        Search {
            from,
            zero,
            ticks: 0,
            count: 0,
        }
    }

    // A tick on.
    fn later(self) -> Search
        requires { SearchOk self }
        ensures { result ≡ later_of self }
    {
        Search {
            ticks: self.ticks + 1,
            ..self
        }
    }

    #[tactic(auto, unfolding(crate::specs::Level::gone_in))]
    fn gone(self, d: Detection) -> u32
        ensures { result ≡ gone_in d self }
    {
        units::gone(self.ticks, d.speed, limit(d, self.from))
    }

    // Where the plunger is by now.
    #[tactic(auto, using(crate::proofs::Way::gone_down, crate::proofs::Way::gone_up), unfolding(crate::specs::Level::plunger_in))]
    fn plunger(self, d: Detection) -> u32
        requires { self.from ≤ 44000 }
        ensures { result ≡ plunger_in d self }
    {
        if d.mode == 1 {
            self.from - self.gone(d)
        } else {
            self.from + self.gone(d)
        }
    }

    // The count after a reading.
    #[tactic(auto, unfolding(crate::specs::Level::count_with))]
    fn count_with(self, d: Detection, reading: u32) -> u32
        requires { self.count ≤ 44000 }
        ensures { result ≡ count_with d self reading }
    {
        if !is_far(d, self.zero, reading) {
            return 0;
        }
        self.count + 1
    }

    // What a count finds.
    #[tactic(auto, unfolding(crate::specs::Level::counted_as))]
    fn counted(self, d: Detection, n: u32) -> Finding
        requires { n ≤ 44001 }
        ensures { result ≡ counted_as d self n }
    {
        if d.duration <= 10 * n {
            return Finding::Found;
        }
        if self.gone(d) == limit(d, self.from) {
            return Finding::Missed;
        }
        Finding::On(Search { count: n, ..self })
    }

    // What a reading finds.
    #[tactic(auto, unfolding(crate::specs::Level::finding_of, crate::specs::Level::count_with))]
    fn find(self, d: Detection, pressure: Option<u32>) -> Finding
        requires { self.count ≤ 44000 }
        ensures { result ≡ finding_of d self pressure }
    {
        match pressure {
            None => Finding::TooMuch,
            Some(reading) => self.counted(d, self.count_with(d, reading)),
        }
    }

    // A tick of the search.
    #[tactic(auto, unfolding(crate::specs::Level::sought_of))]
    pub fn onward(self, d: Detection, pressure: Option<u32>) -> Sought
        requires { SearchOk self }
        ensures { result ≡ sought_of d self pressure }
    {
        let now = self.later();
        Sought {
            plunger: now.plunger(d),
            finding: now.find(d, pressure),
        }
    }
}
