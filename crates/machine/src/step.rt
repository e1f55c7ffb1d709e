// One tick, and many.
ghost use Rattle.std.specs.Prelude.{◌≡◌, ◌≤◌, length, take};
ghost use Rattle.command.specs.Command.{command_at};
ghost use Rattle.machine.specs.Step.{around, both_of, no_news, fine, asking, fails, went_of, applied_of, taken_of, carried_on, running_of, step_of, next_of};
ghost use Rattle.machine.specs.Run.{ready_of, run_of};
ghost use Rattle.machine.specs.Skip.{leapt_of};
ghost use Rattle.machine.specs.Valid.{Ticking, Ready};
ghost use Rattle.motion.specs.Bounds.{BodyOk, ActivityOk};

use buffer::course::{Course, State};
use command::Found;
use command::refusal::{Refusal, Verdict};
use motion::{Activity, Body, Effect, Sense};

// `Valid` is a clause and no invariant of the type: `stop` and others promise something for any core.
#[derive(Clone, Copy)]
pub struct Core {
    pub body: Body,
    pub course: Course,
}

// What ticks tell the host: why the run fails if it does, and whether a tip is to be ejected.
#[derive(Clone, Copy)]
pub struct News {
    pub failed: Verdict,
    pub eject: bool,
}

// What a tick hands back: the core, and what it tells.
#[derive(Clone, Copy)]
pub struct Stepped {
    pub core: Core,
    pub news: News,
}

// What ticks hand back, and how many they were.
#[derive(Clone, Copy)]
pub struct Ticked {
    pub stepped: Stepped,
    pub used: u32,
}

// The command at a place of a text of so many characters.
fn command_in(text: &[u8], len: usize, at: usize) -> Found
    requires { len ≤ length text.now }
    ensures { result ≡ command_at (take len text.now) at }
{
    command::command_at(&text[..len], at)
}

// The run fails: all ways in which one does pass here.
fn fail(why: Refusal, body: Body, course: Course) -> Stepped
    ensures { result ≡ fails why body course }
{
    Stepped {
        core: Core {
            body,
            course: course.failed(why),
        },
        news: News {
            failed: Err(why),
            eject: false,
        },
    }
}

// The run goes on, or fails, by its loops.
fn went(went: Result<Course, Refusal>, body: Body, course: Course) -> Stepped
    ensures { result ≡ went_of went body course }
{
    match went {
        Ok(on) => Core { body, course: on }.fine(),
        Err(why) => fail(why, body, course),
    }
}

impl News {
    pub fn none() -> News
        ensures { result ≡ no_news }
    {
        News {
            failed: Ok(()),
            eject: false,
        }
    }

    // Of two ticks, one after the other: the first failure counts, and either may ask.
    fn and(self, later: News) -> News
        ensures { result ≡ both_of self later }
    {
        News {
            failed: self.failed.and(later.failed),
            eject: self.eject || later.eject,
        }
    }
}

impl Core {
    #[tactic(auto, unfolding(crate::specs::Run::ready_of))]
    pub fn ready(self) -> bool
        ensures { result ≡ ready_of self }
    {
        match self.course.state {
            State::Running(_) => false,
            _ => true,
        }
    }

    fn fine(self) -> Stepped
        ensures { result ≡ fine self }
    {
        Stepped {
            core: self,
            news: News::none(),
        }
    }

    // The host is asked to eject.
    fn asking(self) -> Stepped
        ensures { result ≡ asking self }
    {
        Stepped {
            core: self,
            news: News {
                eject: true,
                ..News::none()
            },
        }
    }

    // What a command does, or a tick of what is in progress, the next command standing at `next`.
    #[tactic(auto, unfolding(crate::specs::Step::applied_of))]
    fn apply(self, effect: Effect, next: usize) -> Stepped
        ensures { result ≡ applied_of effect next self }
    {
        let Core { body, course } = self;
        match effect {
            Effect::Goes(after, activity) => Core {
                body: after,
                course: course.go_on(activity, next),
            }
            .fine(),
            Effect::Ends(after) => Core {
                body: after,
                course: course.reach(next, course.loops),
            }
            .fine(),
            Effect::Fails(why, after) => fail(why, after, course),
            Effect::Asks => Core {
                body,
                course: course.go_on(Activity::Ejecting, next),
            }
            .asking(),
            Effect::Opens => went(course.open(next), body, course),
            Effect::Closes(n) => went(course.close(n, next), body, course),
        }
    }

    // The next command is taken.
    #[tactic(auto, unfolding(crate::specs::Step::taken_of))]
    fn take(self, found: Found, sense: Sense) -> Stepped
        requires { BodyOk self.body }
        ensures { result ≡ (taken_of sense found self).next }
    {
        let Core { body, course } = self;
        match found {
            Ok(Some((c, next))) => self.apply(body.effect(c, sense), next),
            Ok(None) => Core {
                body,
                course: course.reach(course.at, course.loops),
            }
            .fine(),
            Err(m) => fail(Refusal::Misread(m), body, course),
        }
    }

    // What is in progress goes on.
    #[tactic(auto, unfolding(crate::specs::Step::carried_on))]
    fn carry_on(self, activity: Activity, sense: Sense) -> Stepped
        requires { ActivityOk activity }
        ensures { result ≡ (carried_on sense activity self).next }
    {
        self.apply(self.body.onward(activity, sense), self.course.at)
    }

    // The command at the place that the course has reached.
    fn next(self, text: &[u8], sense: Sense) -> Stepped
        requires { BodyOk self.body × (self.course.len ≤ length text.now) }
        ensures { result ≡ (taken_of sense (command_at (take self.course.len text.now) self.course.at) self).next }
    {
        self.take(command_in(text, self.course.len, self.course.at), sense)
    }

    // A tick of a run.
    #[tactic(auto, unfolding(crate::specs::Step::running_of))]
    fn active(self, activity: Activity, text: &[u8], sense: Sense) -> Stepped
        requires { Ticking self activity text.now }
        ensures { result ≡ (running_of activity (around text.now sense) self).next }
    {
        if activity.between() {
            self.next(text, sense)
        } else {
            self.carry_on(activity, sense)
        }
    }

    // A tick.
    #[tactic(auto, unfolding(crate::specs::Step::step_of, crate::specs::Step::active_of))]
    fn step(self, text: &[u8], sense: Sense) -> Stepped
        requires { Ready self text.now }
        ensures { result ≡ (step_of (around text.now sense) self).next }
    {
        match self.course.state {
            State::Running(activity) => self.active(activity, text, sense),
            _ => self.fine(),
        }
    }
}

impl Stepped {
    // A tick more.
    #[tactic(auto, unfolding(crate::specs::Step::next_of))]
    fn next(self, text: &[u8], sense: Sense) -> Stepped
        requires { Ready self.core text.now }
        ensures { result ≡ next_of (around text.now sense) self }
    {
        let stepped = self.core.step(text, sense);
        Stepped {
            core: stepped.core,
            news: self.news.and(stepped.news),
        }
    }

    // The ticks passed over, of so many, and the next tick.
    #[tactic(auto, unfolding(crate::specs::Skip::leapt_of))]
    fn leap(self, text: &[u8], sense: Sense, most: u32) -> Ticked
        requires { Ready self.core text.now }
        ensures { result ≡ leapt_of most (around text.now sense) self }
    {
        let skipped = self.core.skip(most);
        let before = Stepped {
            core: skipped.core,
            ..self
        };
        Ticked {
            stepped: before.next(text, sense),
            used: skipped.used + 1,
        }
    }
}

// Up to n ticks, until ready.
pub fn run(start: Core, text: &[u8], n: u32, sense: Sense) -> Ticked
    requires { Ready start text.now }
    ensures { result ≡ run_of n (around text.now sense) start }
{
    let mut s = start.fine();
    let mut used = 0;
    while used < n && !s.core.ready() {
        let leapt = s.leap(text, sense, n - used - 1);
        s = leapt.stepped;
        used += leapt.used;
    }
    Ticked { stepped: s, used }
}
