// The buffer's state and the way of a run through the text. Nothing here knows a plunger.
ghost use Rattle.std.specs.Prelude.{◌≡◌, ◌<◌};
ghost use Rattle.buffer.specs.Course.{mark, no_loops, pushed, popped, repeated, pass_of, reached, gone_on, failed_of, opened_of, closed_of, in_state, with_error, anew, erased_of, waiting, begun, halted, column_of};

use command::refusal::Refusal;
use motion::Activity;

#[derive(Clone, Copy)]
pub enum State {
    Empty,
    Stored,
    Running(Activity),
    Stopped,
    Done,
}

// The columns of docs/BUFFER.md.
#[derive(Clone, Copy)]
pub enum Column {
    Empty,
    Stored,
    Busy,
    Delaying,
    Stopped,
    Done,
}

impl State {
    pub fn column(self) -> Column
        ensures { result ≡ column_of self }
    {
        match self {
            State::Empty => Column::Empty,
            State::Stored => Column::Stored,
            State::Running(Activity::Delaying(_)) => Column::Delaying,
            State::Running(_) => Column::Busy,
            State::Stopped => Column::Stopped,
            State::Done => Column::Done,
        }
    }
}

// An open loop: where it starts, and how often it has been gone back to.
#[derive(Clone, Copy, Default)]
pub struct Mark {
    pub start: usize,
    pub passes: u32,
}

// Open loops, the innermost first. Four fields and no array: the definitions of a run and of a host's image, above this, name each.
#[derive(Clone, Copy, Default)]
pub struct Loops {
    pub depth: usize,
    pub first: Mark,
    pub second: Mark,
    pub third: Mark,
    pub fourth: Mark,
}

// The next command's place, the text's length, the last error, and the column of what was misread, 0 if nothing was.
// Both are 01's numbers and no enum: reports tell them, and a host in C keeps them so.
#[derive(Clone, Copy)]
pub struct Course {
    pub at: usize,
    pub len: usize,
    pub loops: Loops,
    pub state: State,
    pub error: u8,
    pub misread: u32,
}

// How often a loop has been gone back to when it goes round again, G with n passes and gone back to p times; none if it is over.
#[tactic(auto, unfolding(crate::specs::Course::pass_of))]
fn next_pass(n: u32, p: u32) -> Option<u32>
    ensures { result ≡ pass_of n p }
{
    if n == 0 {
        Some(p)
    } else if p < n - 1 {
        Some(p + 1)
    } else {
        None
    }
}

impl Loops {
    pub fn none() -> Loops
        ensures { result ≡ no_loops }
    {
        Loops::default()
    }

    // A loop that starts here is entered.
    fn push(self, start: usize) -> Loops
        requires { self.depth < 4 }
        ensures { result ≡ pushed (mark start 0) self }
    {
        Loops {
            depth: self.depth + 1,
            first: Mark { start, passes: 0 },
            second: self.first,
            third: self.second,
            fourth: self.third,
        }
    }

    // The innermost loop is left.
    fn pop(self) -> Loops
        requires { 0 < self.depth }
        ensures { result ≡ popped self }
    {
        Loops {
            depth: self.depth - 1,
            first: self.second,
            second: self.third,
            third: self.fourth,
            fourth: Mark::default(),
        }
    }

    fn repeat(self, passes: u32) -> Loops
        ensures { result ≡ repeated passes self }
    {
        Loops {
            first: Mark {
                passes,
                ..self.first
            },
            ..self
        }
    }
}

impl Course {
    // A command has ended: all ways in which one does pass here.
    #[tactic(auto, unfolding(crate::specs::Course::reached))]
    pub fn reach(self, at: usize, loops: Loops) -> Course
        ensures { result ≡ reached at loops self }
    {
        let state = if at < self.len {
            State::Running(Activity::Between)
        } else {
            State::Done
        };
        Course {
            at,
            loops,
            state,
            ..self
        }
    }

    // A command goes on.
    pub fn go_on(self, activity: Activity, at: usize) -> Course
        ensures { result ≡ gone_on activity at self }
    {
        Course {
            at,
            state: State::Running(activity),
            ..self
        }
    }

    // The run has failed: all ways in which one does pass here.
    pub fn failed(self, why: Refusal) -> Course
        ensures { result ≡ failed_of why self }
    {
        self.erase().with_error(why.number(), 0)
    }

    // g, with the next command's place.
    #[tactic(auto, unfolding(crate::specs::Course::opened_of))]
    pub fn open(self, next: usize) -> Result<Course, Refusal>
        ensures { result ≡ opened_of next self }
    {
        if self.loops.depth < 4 {
            return Ok(self.reach(next, self.loops.push(next)));
        }
        Err(Refusal::Loops)
    }

    // G, with the next command's place.
    #[tactic(auto, unfolding(crate::specs::Course::closed_of, crate::specs::Course::closed_by))]
    pub fn close(self, n: u32, next: usize) -> Result<Course, Refusal>
        ensures { result ≡ closed_of n next self }
    {
        if self.loops.depth == 0 {
            return Err(Refusal::Loops);
        }
        match next_pass(n, self.loops.first.passes) {
            Some(p) => Ok(self.reach(self.loops.first.start, self.loops.repeat(p))),
            None => Ok(self.reach(next, self.loops.pop())),
        }
    }

    pub fn in_state(self, state: State) -> Course
        ensures { result ≡ in_state state self }
    {
        Course { state, ..self }
    }

    pub fn with_error(self, error: u8, column: u32) -> Course
        ensures { result ≡ with_error error column self }
    {
        Course {
            error,
            misread: column,
            ..self
        }
    }

    // A text of so many characters, before its first command.
    fn anew(self, len: usize, state: State) -> Course
        ensures { result ≡ anew len state self }
    {
        Course {
            at: 0,
            len,
            loops: Loops::none(),
            state,
            ..self
        }
    }

    pub fn wait(self, len: usize) -> Course
        ensures { result ≡ waiting len self }
    {
        self.anew(len, State::Stored)
    }

    pub fn begin(self, len: usize) -> Course
        ensures { result ≡ begun len self }
    {
        self.anew(len, State::Running(Activity::Between))
    }

    pub fn erase(self) -> Course
        ensures { result ≡ erased_of self }
    {
        self.anew(0, State::Empty)
    }

    // T.
    #[tactic(auto, unfolding(crate::specs::Course::halted))]
    pub fn halt(self) -> Course
        ensures { result ≡ halted self }
    {
        if self.at < self.len {
            return self.in_state(State::Stopped);
        }
        self.erase()
    }
}
