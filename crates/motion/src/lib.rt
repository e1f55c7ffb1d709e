// The plunger, its exact position and the settings: what a command does to them, and how a movement goes on. Nothing here knows a place in a text.
#![tactic(auto)]

ghost use Rattle.std.specs.Prelude.{◌≡◌, true, ◌≤◌};
ghost use Rattle.settings.specs.Limits.{travel_most};
ghost use Rattle.settings.specs.Units.{rate_of};
ghost use Rattle.level.specs.Level.{SearchOk};
ghost use Rattle.motion.specs.Bodies.{travel, later_of, plunger_of, body_at, body_for, body_known, at_plunger, sensing, nothing_sensed};
ghost use Rattle.motion.specs.Detect.{felt_in, approach_of, zeroed_of, no_way_down, detect_of, approached_of, found_as, searched_of};
ghost use Rattle.motion.specs.Motion.{home_of, target_of, within, set_out, aimed, move_of, paced_of, sloped_of, backlash_of, rated_of, detecting_of, set_to, delay_of, eject_of, effect_of, carried, waited_of, ejected_of, onward_of, in_motion, between, cut_of, reset_of, fresh_body};
ghost use Rattle.motion.specs.Bounds.{BodyOk, TravelOk, ActivityOk};

use command::refusal::Refusal;
use command::{Command, Way};
use level::{Finding, Search};
use settings::{Aspect, Detection, Pace, Settings, Volume, units};

// The exact position counts millionths of an increment.
// `BodyOk` is a clause of those functions that need it, and no invariant of the type: `reset`, `cut` and others promise something for any body, and a type would ask them too.
#[derive(Clone, Copy)]
pub struct Body {
    pub exact: u64,
    pub plunger: u32,
    pub settings: Settings,
    pub initialised: bool,
}

// A movement from one place to another at a speed in tenths of an increment a second, after so many ticks.
#[derive(Clone, Copy)]
pub struct Travel {
    pub from: u32,
    pub goal: u32,
    pub speed: u32,
    pub ticks: u32,
}

// What a host hands in with a tick: whether it sees a tip, and the pressure it reads.
#[derive(Clone, Copy)]
pub struct Sense {
    pub tip: bool,
    pub reading: i32,
}

// What is in progress. A delay has so many ticks left. B moves to where it begins, with the reading that is the zero, and then searches. `ActivityOk` is a clause where it is needed: `moves` and `between` are asked of any. The host was asked to eject the tip, and the next tick judges it.
#[derive(Clone, Copy)]
pub enum Activity {
    Initialising(Travel),
    Moving(Travel),
    Delaying(u32),
    Approaching(Travel, u32),
    Searching(Search),
    Ejecting,
    Between,
}

// What a command that is taken does, or a tick of what is in progress: it goes on, has ended, or fails, with the body it leaves; or the host is asked to eject; or a loop begins or ends.
// No Result: a run that fails leaves a body too, and the machine takes all six apart in one match.
#[derive(Clone, Copy)]
pub enum Effect {
    Goes(Body, Activity),
    Ends(Body),
    Fails(Refusal, Body),
    Asks,
    Opens,
    Closes(u32),
}

impl Activity {
    // Whether it is a movement.
    pub fn moves(self) -> bool
        ensures { result ≡ in_motion self }
    {
        matches!(
            self,
            Activity::Initialising(_)
                | Activity::Moving(_)
                | Activity::Approaching(_, _)
                | Activity::Searching(_)
        )
    }

    // Whether nothing is in progress.
    pub fn between(self) -> bool
        ensures { result ≡ between self }
    {
        matches!(self, Activity::Between)
    }
}

impl Travel {
    fn new(from: u32, goal: u32, speed: u32) -> Travel
        ensures { result ≡ travel «from» goal speed }
    {
        Travel {
            from,
            goal,
            speed,
            ticks: 0,
        }
    }

    // A tick on.
    fn later(self) -> Travel
        requires { TravelOk self }
        ensures { result ≡ later_of self }
    {
        Travel {
            ticks: self.ticks + 1,
            ..self
        }
    }

    // Where the plunger is by now.
    #[tactic(auto, using(settings::proofs::Motion::distance_gone_is_at_most_the_distance), unfolding(crate::specs::Bodies::plunger_of))]
    fn plunger(self) -> u32
        ensures { result ≡ plunger_of self }
    {
        let gone = units::gone(self.ticks, self.speed, self.from.abs_diff(self.goal));
        if self.from <= self.goal {
            self.from + gone
        } else {
            self.from - gone
        }
    }
}

// An exact position within travel.
#[tactic(auto, unfolding(crate::specs::Motion::within))]
fn in_travel(exact: u64) -> Option<u64>
    ensures { result ≡ within exact }
{
    (exact <= Settings::TRAVEL).then_some(exact)
}

// The exact position that A, P or D asks for.
#[tactic(auto, unfolding(crate::specs::Motion::target_of, crate::specs::Motion::within))]
fn asked_for(way: Way, by: u64, exact: u64) -> Option<u64>
    ensures { result ≡ target_of way by exact }
{
    match way {
        Way::To => in_travel(by),
        Way::Up => in_travel(exact.checked_add(by)?),
        Way::Down => in_travel(exact.checked_sub(by)?),
    }
}

// V, v or c.
fn paced(pace: Pace, tenths: u32, s: Settings) -> Settings
    ensures { result ≡ paced_of pace tenths s }
{
    match pace {
        Pace::Top => Settings { top: tenths, ..s },
        Pace::Start => Settings { start: tenths, ..s },
        Pace::Cutoff => Settings {
            cutoff: tenths,
            ..s
        },
    }
}

#[tactic(auto, unfolding(crate::specs::Detect::no_way_down))]
fn no_way_down(d: Detection) -> bool
    ensures { result ≡ no_way_down d }
{
    d.mode == 1 && d.place == 0
}

impl Sense {
    // Nothing there: no tip, and a reading of 0.
    pub fn nothing() -> Sense
        ensures { result ≡ nothing_sensed }
    {
        Sense {
            tip: false,
            reading: 0,
        }
    }

    // Another tip.
    pub fn with_tip(self, tip: bool) -> Sense
        ensures { result ≡ sensing tip self.reading }
    {
        Sense { tip, ..self }
    }

    // Another reading.
    pub fn with_reading(self, reading: i32) -> Sense
        ensures { result ≡ sensing self.tip reading }
    {
        Sense { reading, ..self }
    }

    fn felt(self) -> Option<u32>
        ensures { result ≡ felt_in self }
    {
        level::felt(self.reading)
    }
}

impl Body {
    #[tactic(auto, unfolding(crate::specs::Motion::fresh_body))]
    pub fn fresh() -> Body
        ensures { result ≡ fresh_body.next }
    {
        Body {
            plunger: 0,
            exact: 0,
            initialised: false,
            settings: Settings::default(),
        }
    }

    // W.
    #[tactic(auto, unfolding(crate::specs::Motion::home_of))]
    fn home(self, speed: u16) -> Effect
        ensures { result ≡ (home_of speed self).next }
    {
        // Until it arrives: a cut W leaves us uninitialised.
        let home = Body {
            exact: 0,
            initialised: self.plunger == 0,
            ..self
        };
        if self.plunger == 0 {
            return Effect::Ends(home);
        }
        let tenths = u32::from(speed) * 10;
        Effect::Goes(
            home,
            Activity::Initialising(Travel::new(self.plunger, 0, tenths)),
        )
    }

    // Towards an exact position within travel.
    #[tactic(auto, using(settings::proofs::Rounding::goal_is_within_travel), unfolding(crate::specs::Motion::set_out))]
    fn set_out(self, exact: u64) -> Effect
        requires { exact ≤ travel_most }
        ensures { result ≡ set_out exact self }
    {
        let goal = units::goal(exact) as u32;
        let body = Body { exact, ..self };
        if self.plunger == goal {
            return Effect::Ends(body);
        }
        Effect::Goes(
            body,
            Activity::Moving(Travel::new(self.plunger, goal, self.settings.top)),
        )
    }

    // A, P and D.
    #[tactic(auto, using(crate::proofs::Within::target_within), unfolding(crate::specs::Motion::move_of, crate::specs::Motion::aimed))]
    fn shift(self, way: Way, volume: Volume) -> Effect
        ensures { result ≡ (move_of way volume self).next }
    {
        if !self.initialised {
            return Effect::Fails(Refusal::NotInitialised, self);
        }
        if self.settings.top < self.settings.start {
            return Effect::Fails(Refusal::StartAboveTop, self);
        }
        let by = volume.millionths(self.settings.rate);
        match asked_for(way, by, self.exact) {
            Some(exact) => self.set_out(exact),
            None => Effect::Fails(Refusal::Outside, self),
        }
    }

    // A setting.
    fn set_to(self, settings: Settings) -> Effect
        ensures { result ≡ set_to settings self }
    {
        Effect::Ends(Body { settings, ..self })
    }

    // M.
    #[tactic(auto, unfolding(crate::specs::Motion::delay_of))]
    fn delay(self, ms: u32) -> Effect
        ensures { result ≡ delay_of ms self }
    {
        match units::ticks(ms) {
            0 => Effect::Ends(self),
            k => Effect::Goes(self, Activity::Delaying(k)),
        }
    }

    // E, with a tip or, where it does without one, initialised.
    #[tactic(auto, unfolding(crate::specs::Motion::eject_of))]
    fn eject(self, bare: bool, sense: Sense) -> Effect
        ensures { result ≡ eject_of bare sense self }
    {
        if bare && !self.initialised {
            return Effect::Fails(Refusal::NotInitialised, self);
        }
        if !bare && !sense.tip {
            return Effect::Fails(Refusal::NoTip, self);
        }
        Effect::Asks
    }

    // B0: to p2, and from there.
    #[tactic(auto, unfolding(crate::specs::Detect::approach_of))]
    fn approach(self, zero: u32) -> Effect
        ensures { result ≡ approach_of zero self }
    {
        let place = self.settings.detection.place;
        let body = Body {
            exact: u64::from(place) * 1_000_000,
            ..self
        };
        if self.plunger == place {
            return Effect::Goes(body, Activity::Searching(Search::begin(place, zero)));
        }
        let travel = Travel::new(self.plunger, place, self.settings.top);
        Effect::Goes(body, Activity::Approaching(travel, zero))
    }

    // B, where nothing but the reading can be wrong.
    #[tactic(auto, unfolding(crate::specs::Detect::zeroed_of))]
    fn zeroed(self, here: bool, pressure: Option<u32>) -> Effect
        ensures { result ≡ (zeroed_of here pressure self).next }
    {
        match pressure {
            None => Effect::Fails(Refusal::TooMuchPressure, self),
            Some(zero) if here => {
                Effect::Goes(self, Activity::Searching(Search::begin(self.plunger, zero)))
            }
            Some(zero) => self.approach(zero),
        }
    }

    // B.
    #[tactic(auto, unfolding(crate::specs::Detect::detect_of))]
    fn detect(self, here: bool, sense: Sense) -> Effect
        ensures { result ≡ (detect_of here sense self).next }
    {
        if !self.initialised {
            return Effect::Fails(Refusal::NotInitialised, self);
        }
        if no_way_down(self.settings.detection) {
            return Effect::Fails(Refusal::NoWayDown, self);
        }
        self.zeroed(here, sense.felt())
    }

    // What a command does: one match, since a closure for each command would have to be named here too.
    #[tactic(auto, unfolding(crate::specs::Motion::effect_of))]
    pub fn effect(self, c: Command, sense: Sense) -> Effect
        requires { BodyOk self }
        ensures { result ≡ (effect_of sense c self).next }
    {
        let settings = self.settings;
        match c {
            Command::Initialise(speed) => self.home(speed),
            Command::Move(way, volume) => self.shift(way, volume),
            Command::Speed(pace, tenths) => self.set_to(paced(pace, tenths, settings)),
            Command::Slopes(up, down) => self.set_to(Settings {
                acceleration: up,
                deceleration: down,
                ..settings
            }),
            Command::Backlash(n) => self.set_to(Settings {
                backlash: n,
                ..settings
            }),
            Command::Compensate(b, down) => self.set_to(Settings {
                rate: units::rate(b, down),
                ..settings
            }),
            Command::Delay(ms) => self.delay(ms),
            Command::Set(aspect, n) => self.set_to(Settings {
                detection: settings.detection.with(aspect, n),
                ..settings
            }),
            Command::Detect(here) => self.detect(here, sense),
            Command::Eject(bare) => self.eject(bare, sense),
            Command::Open => Effect::Opens,
            Command::Close(n) => Effect::Closes(n),
        }
    }

    // A tick of a movement, which goes on as it was or ends with this known of the plunger.
    #[tactic(auto, unfolding(crate::specs::Motion::carried))]
    fn carried(self, t: Travel, on: Activity, initialised: bool) -> Effect
        ensures { result ≡ carried (λ _. on) initialised t self }
    {
        let here = Body {
            plunger: t.plunger(),
            ..self
        };
        if here.plunger == t.goal {
            return Effect::Ends(Body {
                initialised,
                ..here
            });
        }
        Effect::Goes(here, on)
    }

    // A tick of a delay.
    #[tactic(auto, unfolding(crate::specs::Motion::waited_of))]
    fn waited(self, k: u32) -> Effect
        ensures { result ≡ waited_of k self }
    {
        if k <= 1 {
            return Effect::Ends(self);
        }
        Effect::Goes(self, Activity::Delaying(k - 1))
    }

    // The tick after the one that took E.
    #[tactic(auto, unfolding(crate::specs::Motion::ejected_of))]
    fn ejected(self, sense: Sense) -> Effect
        ensures { result ≡ ejected_of sense self }
    {
        if sense.tip {
            return Effect::Fails(Refusal::StillThere, self);
        }
        Effect::Ends(self)
    }

    // A tick of B's move to p2.
    #[tactic(auto, unfolding(crate::specs::Detect::approached_of))]
    fn approached(self, pressure: Option<u32>, t: Travel, zero: u32) -> Effect
        ensures { result ≡ (approached_of pressure t zero (body_at (plunger_of t) self)).next }
    {
        let here = Body {
            plunger: t.plunger(),
            ..self
        };
        if pressure.is_none() {
            return Effect::Fails(Refusal::TooMuchPressure, here.at_plunger());
        }
        if here.plunger == t.goal {
            return Effect::Goes(here, Activity::Searching(Search::begin(here.plunger, zero)));
        }
        Effect::Goes(here, Activity::Approaching(t, zero))
    }

    // What a tick of the search has found, the plunger moved.
    #[tactic(auto, unfolding(crate::specs::Detect::found_as))]
    fn found(self, finding: Finding) -> Effect
        ensures { result ≡ (found_as finding self).next }
    {
        let here = self.at_plunger();
        match finding {
            Finding::TooMuch => Effect::Fails(Refusal::TooMuchPressure, here),
            Finding::Found => Effect::Ends(here),
            Finding::Missed => Effect::Fails(Refusal::NoLiquid, here),
            Finding::On(s) => Effect::Goes(self, Activity::Searching(s)),
        }
    }

    // A tick of the search.
    #[tactic(auto, unfolding(crate::specs::Detect::searched_of))]
    fn searched(self, pressure: Option<u32>, s: Search) -> Effect
        requires { SearchOk s }
        ensures { result ≡ (searched_of pressure s self).next }
    {
        let sought = s.onward(self.settings.detection, pressure);
        let here = Body {
            plunger: sought.plunger,
            ..self
        };
        here.found(sought.finding)
    }

    // A tick of what is in progress: one match, as for a command.
    #[tactic(auto, unfolding(crate::specs::Motion::onward_of, crate::specs::Motion::carried))]
    pub fn onward(self, activity: Activity, sense: Sense) -> Effect
        requires { ActivityOk activity }
        ensures { result ≡ (onward_of sense activity self).next }
    {
        match activity {
            Activity::Initialising(t) => {
                let t = t.later();
                self.carried(t, Activity::Initialising(t), true)
            }
            Activity::Moving(t) => {
                let t = t.later();
                self.carried(t, Activity::Moving(t), self.initialised)
            }
            Activity::Delaying(k) => self.waited(k),
            Activity::Approaching(t, zero) => self.approached(sense.felt(), t.later(), zero),
            Activity::Searching(s) => self.searched(sense.felt(), s),
            Activity::Ejecting => self.ejected(sense),
            Activity::Between => Effect::Ends(self),
        }
    }

    // The exact position at the plunger.
    fn at_plunger(self) -> Body
        ensures { result ≡ body_for (at_plunger self) self }
    {
        Body {
            exact: u64::from(self.plunger) * 1_000_000,
            ..self
        }
    }

    // T.
    #[tactic(auto, unfolding(crate::specs::Motion::cut_of))]
    pub fn cut(self, activity: Activity) -> Body
        ensures { result ≡ (cut_of activity self).next }
    {
        if activity.moves() {
            return self.at_plunger();
        }
        self
    }

    // !R.
    #[tactic(auto, unfolding(crate::specs::Motion::reset_of))]
    pub fn reset(self) -> Body
        ensures { result ≡ (reset_of self).next }
    {
        Body {
            initialised: false,
            settings: Settings::default(),
            ..self.at_plunger()
        }
    }
}
