// Reports: what Q, ? and f say.
#![tactic(auto)]

ghost use Rattle.std.specs.Prelude.{◌≡◌, ◌≤◌};
ghost use Rattle.settings.specs.Units.{flow_of, nanolitres_of};
ghost use Rattle.settings.specs.Limits.{Kept};
ghost use Rattle.motion.specs.Bounds.{BodyOk};
ghost use Rattle.reports.specs.Reports.{Tellable, goal_in, busy_in, text_in, setting_of, aspect_in, value_of, query_of, tell_of};

use buffer::course::{Course, State};
use line::Report;
use motion::{Activity, Body};
use settings::{Detection, Settings, units};
use text::Question;

#[tactic(auto, unfolding(crate::specs::Reports::goal_in))]
fn goal_in(state: State, plunger: u32) -> u32
    ensures { result ≡ goal_in state plunger }
{
    match state {
        State::Running(
            Activity::Initialising(t) | Activity::Moving(t) | Activity::Approaching(t, _),
        ) => t.goal,
        _ => plunger,
    }
}

fn busy_in(state: State) -> u32
    ensures { result ≡ busy_in state }
{
    match state {
        State::Running(_) => 1,
        _ => 0,
    }
}

fn text_in(state: State) -> u32
    ensures { result ≡ text_in state }
{
    match state {
        State::Empty | State::Done => 0,
        State::Stored | State::Running(_) | State::Stopped => 1,
    }
}

// A speed in nL a second.
#[tactic(auto, using(crate::proofs::Telling::flow_fits))]
fn flow(tenths: u32) -> Report
    requires { tenths ≤ 800000 }
    ensures { result ≡ Report.Thousandths (flow_of tenths) }
{
    Report::Thousandths(units::flow(tenths) as u32)
}

// The plunger in nL.
#[tactic(auto, using(crate::proofs::Telling::volume_fits))]
fn volume(plunger: u32, rate: u32) -> Report
    requires { (plunger ≤ 44000) × (39650 ≤ rate) }
    ensures { result ≡ Report.Thousandths (nanolitres_of plunger rate) }
{
    Report::Thousandths(units::nanolitres(plunger, rate) as u32)
}

// Settings, and the lengths of travel.
#[tactic(auto, unfolding(crate::specs::Reports::setting_of))]
fn setting(n: u32, s: Settings) -> Option<Report>
    requires { Kept s }
    ensures { result ≡ setting_of n s }
{
    Some(match n {
        4 => Report::Whole(s.backlash),
        6 => Report::Tenths(s.start),
        7 => Report::Tenths(s.top),
        8 => Report::Tenths(s.cutoff),
        9 => Report::Whole(s.acceleration),
        10 => Report::Whole(s.deceleration),
        16 => Report::Whole(Settings::INCREMENTS_MOST),
        17 => Report::Whole(Settings::NANOLITRES_MOST / 1000),
        18 => flow(s.start),
        19 => flow(s.top),
        20 => flow(s.cutoff),
        _ => return None,
    })
}

// p0 to p6.
#[tactic(auto, unfolding(crate::specs::Reports::aspect_in))]
fn aspect(n: u32, d: Detection) -> Option<Report>
    ensures { result ≡ aspect_in n d }
{
    Some(match n {
        32 => Report::Whole(d.threshold),
        33 => Report::Whole(d.duration),
        34 => Report::Whole(d.place),
        35 => Report::Tenths(d.speed),
        36 => Report::Whole(d.most),
        37 => Report::Whole(d.mode),
        38 => Report::Whole(d.interval),
        _ => return None,
    })
}

// ? with a number.
#[tactic(auto, unfolding(crate::specs::Reports::value_of))]
fn value(n: u32, tip: bool, b: Body, state: State) -> Option<Report>
    requires { BodyOk b }
    ensures { result ≡ value_of n tip b state }
{
    Some(match n {
        0 => Report::Whole(goal_in(state, b.plunger)),
        1 => Report::Whole(b.plunger),
        3 => volume(b.plunger, b.settings.rate),
        4..=20 => return setting(n, b.settings),
        29 => Report::Whole(busy_in(state)),
        31 => Report::Whole(u32::from(tip)),
        32..=38 => return aspect(n, b.settings.detection),
        67 => Report::Whole(text_in(state)),
        _ => return None,
    })
}

// Q with a number.
#[tactic(auto, unfolding(crate::specs::Reports::query_of))]
fn query(n: u32, error: u8, column: u32) -> Option<Report>
    requires { error ≤ 15 }
    ensures { result ≡ query_of n error column }
{
    Some(match n {
        0 => Report::Nothing,
        1 => Report::Character(64 + error),
        2 => Report::Whole(column),
        _ => return None,
    })
}

// What a report says, if there is one of this number: of our address's character, the tip, the plunger and the settings, and the buffer.
#[tactic(auto, unfolding(crate::specs::Reports::tell_of))]
pub fn tell(q: Question, ours: u8, tip: bool, body: Body, course: Course) -> Option<Report>
    requires { Tellable body course }
    ensures { result ≡ tell_of q ours tip body course }
{
    match q {
        Question::Query(n) => query(n, course.error, course.misread),
        Question::Value(n) => value(n, tip, body, course.state),
        Question::Address => Some(Report::Character(ours)),
    }
}
