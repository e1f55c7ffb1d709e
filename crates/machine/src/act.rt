// What strings and controls do to the plunger and the buffer.
ghost use Rattle.std.specs.Prelude.{◌≡◌, ◌≤◌, length, if◌then◌else◌};
ghost use Rattle.buffer.specs.Course.{waiting, begun};
ghost use Rattle.buffer.specs.Order.{length_by};
ghost use Rattle.machine.specs.Valid.{Valid};
ghost use Rattle.machine.specs.Step.{core};
ghost use Rattle.machine.specs.Act.{halt_of, stop_of, changed_of, done_of, core_error, acted_of, Fitting, Judged};
ghost use Rattle.machine.specs.Acts.{Acts};

use crate::step::Core;
use buffer::course::{Course, State};
use buffer::order;
use buffer::order::{Action, Change, Order};
use command::refusal::Verdict;
use motion::Activity;

// What a string or a control leaves of a core, and whether it was refused.
#[derive(Clone, Copy)]
pub struct Done {
    pub core: Core,
    pub verdict: Verdict,
}

// Whether an order is refused, over a text of so many characters.
fn judge(order: Order, text: &[u8], len: usize, added: &[u8]) -> Verdict
    requires { len ≤ length text.now }
    ensures { Judged order text.now added.now len result }
{
    order.verdict(&text[..len], added)
}

impl Core {
    // T.
    #[tactic(auto, unfolding(crate::specs::Act::stop_of, crate::specs::Act::halt_of))]
    pub fn stop(self) -> Core
        ensures { result ≡ (stop_of self).next }
    {
        match self.course.state {
            // What is in progress is cut or dropped.
            State::Running(activity) => Core {
                body: self.body.cut(activity),
                course: self.course.halt(),
            },
            _ => self,
        }
    }

    // The same plunger, the buffer as it is now.
    fn on(self, course: Course) -> Core
        ensures { result ≡ core self.body course }
    {
        Core { course, ..self }
    }

    // A text of so many characters runs, or waits.
    fn load(self, run: bool, len: usize) -> Core
        ensures { result ≡ core self.body (if run then begun len self.course else waiting len self.course) }
    {
        self.on(if run {
            self.course.begin(len)
        } else {
            self.course.wait(len)
        })
    }

    #[tactic(auto, unfolding(crate::specs::Act::changed_of))]
    fn change(self, change: Change) -> Core
        ensures { result ≡ (changed_of change self).next }
    {
        let course = self.course;
        match change {
            // The text runs from its start.
            Change::Begin | Change::Repeat => self.on(course.begin(course.len)),
            Change::Resume => self.on(course.in_state(State::Running(Activity::Between))),
            Change::EndDelay => self.on(course.reach(course.at, course.loops)),
            Change::Erase => self.on(course.erase()),
            Change::Halt => self.stop(),
            Change::Reset => Core {
                body: self.body.reset(),
                course: course.erase(),
            },
        }
    }

    // An accepted order, with n characters.
    #[tactic(auto, unfolding(crate::specs::Act::done_of))]
    fn done(self, order: Order, n: usize) -> Core
        requires { length_by order self.course.len n ≤ 256 }
        ensures { result ≡ (done_of order n self).next }
    {
        match order {
            Order::Refuse(_) => self,
            Order::Load(loading, run) => self.load(run, loading.kept(self.course.len) + n),
            Order::Change(change) => self.change(change),
        }
    }

    pub fn with_error(self, code: u8, column: u32) -> Core
        ensures { result ≡ core_error code column self }
    {
        self.on(self.course.with_error(code, column))
    }

    // An order that was accepted or refused, with n characters.
    #[tactic(auto, unfolding(crate::specs::Act::acted_of))]
    fn acted(self, order: Order, verdict: Verdict, n: usize) -> Core
        requires { Fitting order verdict self.course.len n }
        ensures { result ≡ (acted_of order verdict n self).next }
    {
        match verdict {
            Ok(()) => self.done(order, n).with_error(0, 0),
            Err(why) => self.with_error(why.number(), 0),
        }
    }

    // A string or a control with the characters that come with it, over the text's array.
    pub fn act(self, action: Action, added: &[u8], text: &mut [u8; 256]) -> Done
        requires { Valid self }
        ensures { Acts action added.now text.old self text.new result }
    {
        let len = self.course.len;
        let order = action.order(self.course.state);
        let verdict = judge(order, text, len, added);
        order::store(order, verdict, len, added, text);
        Done {
            core: self.acted(order, verdict, added.len()),
            verdict,
        }
    }
}
