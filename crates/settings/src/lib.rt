// What the controller is set to, the limits and defaults of 01's command table, and the arithmetic of its units.
#![tactic(auto)]

pub mod units;

ghost use Rattle.std.specs.Prelude.{◌≡◌};
ghost use Rattle.settings.specs.Limits.{◌to◌, within, range_of, usual_of, speeds_of, flows_of, usual_speed, aspects_of, usual_aspect, aspect_set, usual_detection, usual_settings};

// The three speeds: V, v and c.
#[derive(Clone, Copy)]
pub enum Pace {
    Top,
    Start,
    Cutoff,
}

// What p sets, p0 to p6.
#[derive(Clone, Copy)]
pub enum Aspect {
    Threshold,
    Duration,
    Place,
    Speed,
    Most,
    Mode,
    Interval,
}

// What else a number of the command table can be.
#[derive(Clone, Copy)]
pub enum Quantity {
    Home,
    Increments,
    Nanolitres,
    Slope,
    Backlash,
    Compensation,
    Choice,
    Delay,
    Passes,
}

// From least to most, both included.
#[derive(Clone, Copy)]
pub struct Range {
    pub least: u32,
    pub most: u32,
}

#[derive(Clone, Copy)]
pub enum Volume {
    Increments(u32),
    Nanolitres(u32),
}

// What a search for the liquid goes by: p0 to p6, the speed in tenths of an increment a second.
// The mode is a number like the other six: the table gives it a range and reports tell it.
#[derive(Clone, Copy)]
pub struct Detection {
    pub threshold: u32,
    pub duration: u32,
    pub place: u32,
    pub speed: u32,
    pub most: u32,
    pub mode: u32,
    pub interval: u32,
}

// Speeds in tenths of an increment a second; rate is 01's C, millionths of an increment for a nL.
#[derive(Clone, Copy)]
pub struct Settings {
    pub top: u32,
    pub start: u32,
    pub cutoff: u32,
    pub acceleration: u32,
    pub deceleration: u32,
    pub backlash: u32,
    pub rate: u32,
    pub detection: Detection,
}

impl Range {
    // A row of the tables below is a line with it.
    fn between(least: u32, most: u32) -> Range
        ensures { result ≡ least to most }
    {
        Range { least, most }
    }

    #[tactic(auto, unfolding(crate::specs::Limits::within))]
    pub fn has(self, n: u32) -> bool
        ensures { result ≡ within self n }
    {
        self.least <= n && n <= self.most
    }
}

impl Default for Detection {
    fn default() -> Detection
        ensures { result ≡ usual_detection }
    {
        Detection {
            threshold: Settings::THRESHOLD_USUAL,
            duration: Settings::DURATION_USUAL,
            place: Settings::PLACE_USUAL,
            speed: Settings::SEARCH_SPEED_USUAL * 10,
            most: Settings::SEARCH_USUAL,
            mode: Settings::MODE_USUAL,
            interval: Settings::INTERVAL_USUAL,
        }
    }
}

impl Detection {
    // p: one of them set anew.
    pub fn with(self, aspect: Aspect, n: u16) -> Detection
        ensures { result ≡ aspect_set aspect n self }
    {
        let n = u32::from(n);
        let mut next = self;
        match aspect {
            Aspect::Threshold => next.threshold = n,
            Aspect::Duration => next.duration = n,
            Aspect::Place => next.place = n,
            Aspect::Speed => next.speed = n * 10,
            Aspect::Most => next.most = n,
            Aspect::Mode => next.mode = n,
            Aspect::Interval => next.interval = n,
        }
        next
    }
}

impl Default for Settings {
    #[tactic(auto, unfolding(crate::specs::Units::rate_of))]
    fn default() -> Settings
        ensures { result ≡ usual_settings }
    {
        Settings {
            top: Settings::SPEED_USUAL,
            start: Settings::START_SPEED_USUAL,
            cutoff: Settings::SPEED_USUAL,
            acceleration: Settings::SLOPE_USUAL,
            deceleration: Settings::SLOPE_USUAL,
            backlash: Settings::BACKLASH_USUAL,
            rate: Settings::RATE_USUAL,
            detection: Detection::default(),
        }
    }
}

impl Settings {
    // The end of travel, in millionths of an increment.
    pub const TRAVEL: u64 = 44_000_000_000;
    // W: increments a second.
    pub const HOME_LEAST: u32 = 100;

    pub const HOME_MOST: u32 = 20_000;

    pub const HOME_USUAL: u32 = 6_000;
    // A, P and D: increments, and nL.
    pub const INCREMENTS_LEAST: u32 = 0;

    pub const INCREMENTS_MOST: u32 = 44_000;

    pub const INCREMENTS_USUAL: u32 = 0;

    pub const NANOLITRES_LEAST: u32 = 0;

    pub const NANOLITRES_MOST: u32 = 1_100_000;

    pub const NANOLITRES_USUAL: u32 = 0;
    // V and c, then v: tenths of an increment a second, and nL a second.
    pub const SPEED_LEAST: u32 = 1_000;

    pub const SPEED_MOST: u32 = 800_000;

    pub const SPEED_USUAL: u32 = 80_000;

    pub const FLOW_LEAST: u32 = 2_500;

    pub const FLOW_MOST: u32 = 2_000_000;

    pub const START_SPEED_LEAST: u32 = 1_000;

    pub const START_SPEED_MOST: u32 = 120_000;

    pub const START_SPEED_USUAL: u32 = 10_000;

    pub const START_FLOW_LEAST: u32 = 2_500;

    pub const START_FLOW_MOST: u32 = 300_000;
    // L: both numbers.
    pub const SLOPE_LEAST: u32 = 1;

    pub const SLOPE_MOST: u32 = 80;

    pub const SLOPE_USUAL: u32 = 20;
    // K.
    pub const BACKLASH_LEAST: u32 = 0;

    pub const BACKLASH_MOST: u32 = 500;

    pub const BACKLASH_USUAL: u32 = 0;
    // b, and C where b is 0.
    pub const COMPENSATION_LEAST: u32 = 0;

    pub const COMPENSATION_MOST: u32 = 350;

    pub const COMPENSATION_USUAL: u32 = 0;

    pub const RATE_USUAL: u32 = 40_000;
    // The second number of A, P, D, V, v, c and b; E and B.
    pub const CHOICE_LEAST: u32 = 0;

    pub const CHOICE_MOST: u32 = 1;

    pub const CHOICE_USUAL: u32 = 0;
    // M: milliseconds.
    pub const DELAY_LEAST: u32 = 1;

    pub const DELAY_MOST: u32 = 30_000;

    pub const DELAY_USUAL: u32 = 10;
    // G.
    pub const PASSES_LEAST: u32 = 0;

    pub const PASSES_MOST: u32 = 50_000;

    pub const PASSES_USUAL: u32 = 0;
    // p0: how far from the zero a reading must be.
    pub const THRESHOLD_LEAST: u32 = 1;

    pub const THRESHOLD_MOST: u32 = 1_000;

    pub const THRESHOLD_USUAL: u32 = 15;
    // p1: milliseconds.
    pub const DURATION_LEAST: u32 = 1;

    pub const DURATION_MOST: u32 = 100;

    pub const DURATION_USUAL: u32 = 5;
    // p2: where B0 begins.
    pub const PLACE_LEAST: u32 = 0;

    pub const PLACE_MOST: u32 = 44_000;

    pub const PLACE_USUAL: u32 = 0;
    // p3: increments a second.
    pub const SEARCH_SPEED_LEAST: u32 = 100;

    pub const SEARCH_SPEED_MOST: u32 = 1_000;

    pub const SEARCH_SPEED_USUAL: u32 = 150;
    // p4: increments.
    pub const SEARCH_LEAST: u32 = 500;

    pub const SEARCH_MOST: u32 = 44_000;

    pub const SEARCH_USUAL: u32 = 44_000;
    // p5: 0 aspirates, 1 dispenses.
    pub const MODE_LEAST: u32 = 0;

    pub const MODE_MOST: u32 = 1;

    pub const MODE_USUAL: u32 = 0;
    // p6: milliseconds; kept and reported.
    pub const INTERVAL_LEAST: u32 = 1;

    pub const INTERVAL_MOST: u32 = 20;

    pub const INTERVAL_USUAL: u32 = 20;

    // What a number of the table may be.
    pub fn range(of: Quantity) -> Range
        ensures { result ≡ range_of of }
    {
        match of {
            Quantity::Home => Range::between(Self::HOME_LEAST, Self::HOME_MOST),
            Quantity::Increments => Range::between(Self::INCREMENTS_LEAST, Self::INCREMENTS_MOST),
            Quantity::Nanolitres => Range::between(Self::NANOLITRES_LEAST, Self::NANOLITRES_MOST),
            Quantity::Slope => Range::between(Self::SLOPE_LEAST, Self::SLOPE_MOST),
            Quantity::Backlash => Range::between(Self::BACKLASH_LEAST, Self::BACKLASH_MOST),
            Quantity::Compensation => Range::between(
                Self::COMPENSATION_LEAST,
                Self::COMPENSATION_MOST,
            ),
            Quantity::Choice => Range::between(Self::CHOICE_LEAST, Self::CHOICE_MOST),
            Quantity::Delay => Range::between(Self::DELAY_LEAST, Self::DELAY_MOST),
            Quantity::Passes => Range::between(Self::PASSES_LEAST, Self::PASSES_MOST),
        }
    }

    // What an absent number of the table is.
    pub fn usual(of: Quantity) -> u32
        ensures { result ≡ usual_of of }
    {
        match of {
            Quantity::Home => Self::HOME_USUAL,
            Quantity::Increments => Self::INCREMENTS_USUAL,
            Quantity::Nanolitres => Self::NANOLITRES_USUAL,
            Quantity::Slope => Self::SLOPE_USUAL,
            Quantity::Backlash => Self::BACKLASH_USUAL,
            Quantity::Compensation => Self::COMPENSATION_USUAL,
            Quantity::Choice => Self::CHOICE_USUAL,
            Quantity::Delay => Self::DELAY_USUAL,
            Quantity::Passes => Self::PASSES_USUAL,
        }
    }

    // V, v or c in tenths of an increment a second. Beside `flows`: one function for both tables would take a flag for the unit and be as long.
    pub fn speeds(of: Pace) -> Range
        ensures { result ≡ speeds_of of }
    {
        match of {
            Pace::Top | Pace::Cutoff => Range::between(Self::SPEED_LEAST, Self::SPEED_MOST),
            Pace::Start => Range::between(Self::START_SPEED_LEAST, Self::START_SPEED_MOST),
        }
    }

    // V, v or c in nL a second.
    pub fn flows(of: Pace) -> Range
        ensures { result ≡ flows_of of }
    {
        match of {
            Pace::Top | Pace::Cutoff => Range::between(Self::FLOW_LEAST, Self::FLOW_MOST),
            Pace::Start => Range::between(Self::START_FLOW_LEAST, Self::START_FLOW_MOST),
        }
    }

    // An absent V, v or c, in tenths of an increment a second.
    pub fn usual_speed(of: Pace) -> u32
        ensures { result ≡ usual_speed of }
    {
        match of {
            Pace::Top | Pace::Cutoff => Self::SPEED_USUAL,
            Pace::Start => Self::START_SPEED_USUAL,
        }
    }

    // The second number of p, by its first.
    pub fn aspects(of: Aspect) -> Range
        ensures { result ≡ aspects_of of }
    {
        match of {
            Aspect::Threshold => Range::between(Self::THRESHOLD_LEAST, Self::THRESHOLD_MOST),
            Aspect::Duration => Range::between(Self::DURATION_LEAST, Self::DURATION_MOST),
            Aspect::Place => Range::between(Self::PLACE_LEAST, Self::PLACE_MOST),
            Aspect::Speed => Range::between(Self::SEARCH_SPEED_LEAST, Self::SEARCH_SPEED_MOST),
            Aspect::Most => Range::between(Self::SEARCH_LEAST, Self::SEARCH_MOST),
            Aspect::Mode => Range::between(Self::MODE_LEAST, Self::MODE_MOST),
            Aspect::Interval => Range::between(Self::INTERVAL_LEAST, Self::INTERVAL_MOST),
        }
    }

    // And what it is where it is absent.
    pub fn usual_aspect(of: Aspect) -> u32
        ensures { result ≡ usual_aspect of }
    {
        match of {
            Aspect::Threshold => Self::THRESHOLD_USUAL,
            Aspect::Duration => Self::DURATION_USUAL,
            Aspect::Place => Self::PLACE_USUAL,
            Aspect::Speed => Self::SEARCH_SPEED_USUAL,
            Aspect::Most => Self::SEARCH_USUAL,
            Aspect::Mode => Self::MODE_USUAL,
            Aspect::Interval => Self::INTERVAL_USUAL,
        }
    }
}
