// Whether numbers are a core's from making and earlier calls.
ghost use Rattle.std.specs.Prelude.{◌≡◌};
ghost use Rattle.image.specs.Sound.{placed, detection_sound, settings_sound, travel_sound, search_sound, activity_sound, state_sound, body_sound, sound_of};

use buffer::course::State;
use level::Search;
use machine::step::Core;
use motion::{Activity, Body, Travel};
use settings::{Aspect, Detection, Pace, Quantity, Range, Settings};

fn placed(n: u32) -> bool
    ensures { result ≡ placed n }
{
    Settings::range(Quantity::Increments).has(n)
}

#[tactic(auto, unfolding(crate::specs::Sound::detection_sound))]
fn detection_sound(d: Detection) -> bool
    ensures { result ≡ detection_sound d }
{
    let speeds = Range {
        least: 1_000,
        most: 10_000,
    };
    Settings::aspects(Aspect::Threshold).has(d.threshold)
        && Settings::aspects(Aspect::Duration).has(d.duration)
        && Settings::aspects(Aspect::Place).has(d.place)
        && speeds.has(d.speed)
        && Settings::aspects(Aspect::Most).has(d.most)
        && Settings::aspects(Aspect::Mode).has(d.mode)
        && Settings::aspects(Aspect::Interval).has(d.interval)
}

#[tactic(auto, unfolding(crate::specs::Sound::settings_sound, settings::specs::Units::rate_of))]
fn settings_sound(s: Settings) -> bool
    ensures { result ≡ settings_sound s }
{
    let rates = Range {
        least: 39_650,
        most: 40_350,
    };
    Settings::speeds(Pace::Top).has(s.top)
        && Settings::speeds(Pace::Start).has(s.start)
        && Settings::speeds(Pace::Cutoff).has(s.cutoff)
        && Settings::range(Quantity::Slope).has(s.acceleration)
        && Settings::range(Quantity::Slope).has(s.deceleration)
        && Settings::range(Quantity::Backlash).has(s.backlash)
        && rates.has(s.rate)
        && detection_sound(s.detection)
}

#[tactic(auto, unfolding(crate::specs::Sound::travel_sound))]
fn travel_sound(t: Travel) -> bool
    ensures { result ≡ travel_sound t }
{
    placed(t.from) && placed(t.goal) && 1_000 <= t.speed && placed(t.ticks)
}

#[tactic(auto, unfolding(crate::specs::Sound::search_sound))]
fn search_sound(s: Search) -> bool
    ensures { result ≡ search_sound s }
{
    placed(s.from) && placed(s.ticks) && s.count <= s.ticks
}

fn activity_sound(activity: Activity) -> bool
    ensures { result ≡ activity_sound activity }
{
    match activity {
        Activity::Initialising(t) | Activity::Moving(t) | Activity::Approaching(t, _) => {
            travel_sound(t)
        }
        Activity::Searching(s) => search_sound(s),
        Activity::Delaying(_) | Activity::Ejecting | Activity::Between => true,
    }
}

fn state_sound(state: State) -> bool
    ensures { result ≡ state_sound state }
{
    match state {
        State::Running(activity) => activity_sound(activity),
        _ => true,
    }
}

#[tactic(auto, unfolding(crate::specs::Sound::body_sound))]
fn body_sound(b: Body) -> bool
    ensures { result ≡ body_sound b }
{
    placed(b.plunger) && b.exact <= Settings::TRAVEL && settings_sound(b.settings)
}

#[tactic(auto, unfolding(crate::specs::Sound::sound_of))]
pub fn sound(c: Core) -> bool
    ensures { result ≡ sound_of c }
{
    c.course.len <= 256 && c.course.error <= 15 && state_sound(c.course.state) && body_sound(c.body)
}
