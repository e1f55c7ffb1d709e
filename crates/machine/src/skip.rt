// A movement's ticks before the one in which it arrives, passed over at once: where the plunger is follows from their count.
ghost use Rattle.std.specs.Prelude.{◌≡◌, ◌+◌, ◌≤◌};
ghost use Rattle.motion.specs.Bounds.{TravelOk};
ghost use Rattle.machine.specs.Valid.{Valid};
ghost use Rattle.machine.specs.Movement.{time_of, since};
ghost use Rattle.machine.specs.Skip.{Spare, passed_by, skipped_of};

use crate::step::Core;
use buffer::course::State;
use motion::{Activity, Travel};

// A core, and how many ticks were passed over to come there.
#[derive(Clone, Copy)]
pub struct Skipped {
    pub core: Core,
    pub used: u32,
}

// The ticks that a movement takes.
fn time(t: Travel) -> u64
    requires { TravelOk t }
    ensures { result ≡ time_of t }
{
    let way = u64::from(t.goal.abs_diff(t.from));
    let speed = u64::from(t.speed);
    (way * 1000 + (speed - 1)) / speed
}

// Of so many ticks, those before the one in which a movement arrives.
fn spare(t: Travel, most: u32) -> u32
    requires { TravelOk t }
    ensures { Spare t most result }
{
    let left = time(t).saturating_sub(u64::from(t.ticks) + 1);
    left.min(u64::from(most)) as u32
}

// A movement so many ticks on.
fn later(t: Travel, n: u32) -> Travel
    requires { t.ticks + n ≤ 44000 }
    ensures { result ≡ since t (t.ticks + n) }
{
    Travel {
        ticks: t.ticks + n,
        ..t
    }
}

impl Core {
    // With so many ticks of what is in progress passed over.
    fn pass(self, activity: Activity, n: u32) -> Skipped
        ensures { result ≡ passed_by activity n self }
    {
        Skipped {
            core: Core {
                course: self.course.in_state(State::Running(activity)),
                ..self
            },
            used: n,
        }
    }

    #[tactic(auto, unfolding(crate::specs::Skip::skipped_of, crate::specs::Skip::skipped_in))]
    pub fn skip(self, most: u32) -> Skipped
        requires { Valid self }
        ensures { result ≡ skipped_of most self }
    {
        match self.course.state {
            State::Running(Activity::Initialising(t)) => {
                let n = spare(t, most);
                self.pass(Activity::Initialising(later(t, n)), n)
            }
            State::Running(Activity::Moving(t)) => {
                let n = spare(t, most);
                self.pass(Activity::Moving(later(t, n)), n)
            }
            _ => Skipped {
                core: self,
                used: 0,
            },
        }
    }
}
