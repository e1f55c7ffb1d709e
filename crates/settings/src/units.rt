// The arithmetic of 01's units, each rule for every number that its type can hold.
ghost use Rattle.std.specs.Prelude.{◌≡◌, ◌≤◌, ◌<◌, ◌^◌};
ghost use Rattle.settings.specs.Units.{nearest, tenths_of, flow_of, ticks_of, rate_of, millionths_of, goal_of, nanolitres_of, gone_of};

use crate::{Settings, Volume};

// a / b to the nearest, half upwards.
#[tactic(auto, unfolding(crate::specs::Units::nearest))]
fn rounded(a: u64, b: u64) -> u64
    requires { (a < 2 ^ 62) × (0 < b) × (b < 2 ^ 32) }
    ensures { result ≡ nearest a b }
{
    (2 * a + b) / (2 * b)
}

// Tenths of an increment a second, of so many nL a second.
#[tactic(auto, unfolding(crate::specs::Units::tenths_of, crate::specs::Units::nearest))]
pub fn tenths(flow: u32) -> u32
    ensures { result ≡ tenths_of flow }
{
    rounded(2 * u64::from(flow), 5) as u32
}

// nL a second, of so many tenths of an increment a second.
#[tactic(auto, unfolding(crate::specs::Units::flow_of))]
pub fn flow(tenths: u32) -> u64
    ensures { result ≡ flow_of tenths }
{
    rounded(5 * u64::from(tenths), 2)
}

// Ticks of a delay.
#[tactic(auto, unfolding(crate::specs::Units::ticks_of, crate::specs::Units::nearest))]
pub fn ticks(milliseconds: u32) -> u32
    ensures { result ≡ ticks_of milliseconds }
{
    if milliseconds < 10 {
        return 0;
    }
    rounded(u64::from(milliseconds), 10) as u32
}

// C of b, 40000 where b is 0.
#[tactic(auto, unfolding(crate::specs::Units::rate_of))]
pub fn rate(b: u16, down: bool) -> u32
    ensures { result ≡ rate_of b down }
{
    let by = u32::from(b);
    if down {
        Settings::RATE_USUAL.saturating_sub(by)
    } else {
        Settings::RATE_USUAL + by
    }
}

// Where the plunger is to stand for an exact position.
#[tactic(auto, unfolding(crate::specs::Units::goal_of))]
pub fn goal(exact: u64) -> u64
    ensures { result ≡ goal_of exact }
{
    let whole = exact / 1_000_000;
    if exact % 1_000_000 < 500_000 {
        whole
    } else {
        whole + 1
    }
}

// The plunger in nL at C.
#[tactic(auto, unfolding(crate::specs::Units::nanolitres_of))]
pub fn nanolitres(plunger: u32, rate: u32) -> u64
    ensures { result ≡ nanolitres_of plunger rate }
{
    if rate == 0 {
        return 0;
    }
    rounded(u64::from(plunger) * 1_000_000, u64::from(rate))
}

// How far a movement of this distance has gone after so many ticks at this speed.
#[tactic(auto, unfolding(crate::specs::Units::gone_of))]
pub fn gone(ticks: u32, speed: u32, distance: u32) -> u32
    ensures { result ≡ gone_of ticks speed distance }
{
    let way = u64::from(ticks) * u64::from(speed) / 1000;
    way.min(u64::from(distance)) as u32
}

impl Volume {
    // Millionths of an increment at C.
    #[tactic(auto, unfolding(crate::specs::Units::millionths_of))]
    pub fn millionths(self, rate: u32) -> u64
        ensures { result ≡ millionths_of self rate }
    {
        match self {
            Volume::Increments(n) => u64::from(n) * 1_000_000,
            Volume::Nanolitres(n) => u64::from(n) * u64::from(rate),
        }
    }
}
