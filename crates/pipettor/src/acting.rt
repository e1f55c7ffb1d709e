// From a frame's data to what the buffer does and what is answered.
ghost use Rattle.std.specs.Prelude.{◌≡◌, length};
ghost use Rattle.machine.specs.Valid.{Valid};
ghost use Rattle.reports.specs.Reports.{Tellable};
ghost use Rattle.pipettor.specs.Returns.{Performs};
ghost use Rattle.pipettor.specs.Byte.{action_of, string_action, task_of, size_of, outcome_of, Fetched, Gotten, Spoken};

use crate::address::Address;
use crate::{S1, Said};
use buffer::order::Action;
use command::refusal;
use command::refusal::{Refusal, Verdict};
use line::{Deed, Framing, Report};
use machine::act::Done;
use machine::step::Core;
use text::{Control, Data};

// What the device is asked: to be left alone, to take note of a refusal, or a string or a control.
#[derive(Clone, Copy)]
pub enum Task {
    Leave,
    Refuse(Refusal),
    Act(Action),
}

// The data of a whole frame to us, its spaces dropped in place.
fn fetch(frame: &mut [u8], n: usize) -> Data
    requires { length frame.old ≡ 320 }
    ensures { Fetched n frame.old (Some result) frame.new }
{
    if 320 < n {
        return Data::TooLong;
    }
    let kept = text::squeeze(&mut frame[..n]);
    text::read(&frame[..kept])
}

// What a byte has brought: no frame to us, or its data. A test inside the case: with a guard a frame that isn't to us would need a case of its own.
pub fn get(frame: &mut [u8], deed: Deed, ours: u8) -> Option<Data>
    requires { length frame.old ≡ 320 }
    ensures { Gotten ours deed frame.old result frame.new }
{
    match deed {
        Deed::Nothing | Deed::Keep(_) => None,
        Deed::Frame(a, n) => {
            if a == ours {
                Some(fetch(frame, n))
            } else {
                None
            }
        }
    }
}

// A function, since neither of the two enums is this crate's to give a `From`.
fn action(c: Control) -> Action
    ensures { result ≡ action_of c }
{
    match c {
        Control::Run => Action::Run,
        Control::Stop => Action::Stop,
        Control::Again => Action::Again,
        Control::Clear => Action::Clear,
        Control::Reset => Action::Reset,
    }
}

fn string_action(run: bool) -> Action
    ensures { result ≡ string_action run }
{
    if run { Action::Launch } else { Action::Store }
}

// What is asked of the device.
#[tactic(auto, unfolding(crate::specs::Byte::task_of))]
pub fn asked(got: Option<Data>) -> Task
    ensures { result ≡ task_of got }
{
    match got {
        None | Some(Data::Report(_) | Data::WrongReport) => Task::Leave,
        Some(Data::Control(c)) => Task::Act(action(c)),
        Some(Data::Text { run, .. }) => Task::Act(string_action(run)),
        Some(Data::Wrong(m)) => Task::Refuse(Refusal::Misread(m)),
        Some(Data::TooLong) => Task::Refuse(Refusal::TooLong),
    }
}

// How many characters come with it.
pub fn size(got: Option<Data>) -> usize
    ensures { result ≡ size_of got }
{
    match got {
        Some(Data::Text { size, .. }) => size,
        _ => 0,
    }
}

impl Task {
    // Done to a core and its text's array, with the characters that come with it.
    pub fn perform(self, c: Core, added: &[u8], text: &mut [u8; 256]) -> Done
        requires { Valid c }
        ensures { Performs self added.now text.old c text.new result }
    {
        match self {
            Task::Leave => Done {
                core: c,
                verdict: Ok(()),
            },
            Task::Refuse(why) => Done {
                core: c.with_error(why.number(), why.column()),
                verdict: Err(why),
            },
            Task::Act(action) => c.act(action, added, text),
        }
    }
}

// What is answered to data that were accepted or refused, the core being what it was before them: a report with a code in the status byte.
#[tactic(auto, unfolding(crate::specs::Byte::outcome_of))]
fn answer_to(data: Data, address: Address, verdict: Verdict, tip: bool, c: Core) -> (Report, u8)
    requires { Tellable c.body c.course }
    ensures { Some result ≡ outcome_of (Some «data») address verdict tip c }
{
    match data {
        Data::Report(q) => match reports::tell(q, address.letter(), tip, c.body, c.course) {
            Some(report) => (report, c.course.error),
            None => (Report::Nothing, Refusal::Report.number()),
        },
        Data::WrongReport => (Report::Nothing, Refusal::Report.number()),
        Data::Control(_) | Data::Text { .. } | Data::Wrong(_) | Data::TooLong => {
            (Report::Nothing, refusal::number(verdict))
        }
    }
}

// What is answered, if anything.
#[tactic(auto, unfolding(crate::specs::Byte::outcome_of))]
pub fn outcome(
    got: Option<Data>,
    address: Address,
    verdict: Verdict,
    tip: bool,
    c: Core,
) -> Option<(Report, u8)>
    requires { Tellable c.body c.course }
    ensures { result ≡ outcome_of got address verdict tip c }
{
    Some(answer_to(got?, address, verdict, tip, c))
}

// Into the lent buffer. Both cases are named: `.map(Some).ok_or(S1)` would say less plainly which is which.
pub fn say(outcome: Option<(Report, u8)>, framing: Framing, ready: bool, buf: &mut [u8]) -> Said
    ensures { Spoken framing outcome ready buf.old result buf.new }
{
    let Some((report, code)) = outcome else {
        return Ok(None);
    };
    let status = line::status(ready, code);
    match line::answer(framing, status, report, buf) {
        Some(n) => Ok(Some(n)),
        None => Err(S1),
    }
}
