// The buffer's state in numbers, with what is in progress.
ghost use Rattle.std.specs.Prelude.{◌≡◌};
ghost use Rattle.image.specs.Progress.{travelling, progress_in, progress_of, travel_by, search_by, state_by};

use buffer::course::State;
use level::Search;
use motion::{Activity, Travel};

// Which state it is, and what goes with it; what doesn't is 0. The tag is a number, since it stands in the memory of a host in C.
#[derive(Clone, Copy, Default, PartialEq, Eq)]
pub struct Progress {
    pub tag: u8,
    pub from: u32,
    pub goal: u32,
    pub speed: u32,
    pub ticks: u32,
    pub zero: u32,
    pub count: u32,
}

fn travelling(tag: u8, t: Travel, zero: u32) -> Progress
    ensures { result ≡ travelling tag t zero }
{
    Progress {
        tag,
        from: t.from,
        goal: t.goal,
        speed: t.speed,
        ticks: t.ticks,
        zero,
        count: 0,
    }
}

impl From<Activity> for Progress {
    ghost from_gives = { λ a p. p ≡ progress_in a };

    fn from(activity: Activity) -> Progress
        ensures { result ≡ progress_in activity }
    {
        let rest = Progress::default();
        match activity {
            Activity::Between => Progress { tag: 4, ..rest },
            Activity::Delaying(ticks) => Progress {
                tag: 5,
                ticks,
                ..rest
            },
            Activity::Initialising(t) => travelling(6, t, 0),
            Activity::Moving(t) => travelling(7, t, 0),
            Activity::Approaching(t, zero) => travelling(8, t, zero),
            Activity::Searching(s) => Progress {
                tag: 9,
                from: s.from,
                ticks: s.ticks,
                zero: s.zero,
                count: s.count,
                ..rest
            },
            Activity::Ejecting => Progress { tag: 10, ..rest },
        }
    }
}

impl From<State> for Progress {
    ghost from_gives = { λ s p. p ≡ progress_of s };

    fn from(state: State) -> Progress
        ensures { result ≡ progress_of state }
    {
        let rest = Progress::default();
        match state {
            State::Empty => Progress { tag: 0, ..rest },
            State::Stored => Progress { tag: 1, ..rest },
            State::Stopped => Progress { tag: 2, ..rest },
            State::Done => Progress { tag: 3, ..rest },
            State::Running(activity) => Progress::from(activity),
        }
    }
}

impl Progress {
    // `travel` and `search` give two types: one function that gives either would be no plainer.
    fn travel(self) -> Travel
        ensures { result ≡ travel_by self }
    {
        Travel {
            from: self.from,
            goal: self.goal,
            speed: self.speed,
            ticks: self.ticks,
        }
    }

    fn search(self) -> Search
        ensures { result ≡ search_by self }
    {
        Search {
            from: self.from,
            zero: self.zero,
            ticks: self.ticks,
            count: self.count,
        }
    }
}

// The state that the tag tells; one that is none of the eleven tells the first.
impl From<Progress> for State {
    ghost from_gives = { λ p s. s ≡ state_by p };

    #[tactic(auto, unfolding(crate::specs::Progress::state_at))]
    fn from(p: Progress) -> State
        ensures { result ≡ state_by p }
    {
        match p.tag {
            1 => State::Stored,
            2 => State::Stopped,
            3 => State::Done,
            4 => State::Running(Activity::Between),
            5 => State::Running(Activity::Delaying(p.ticks)),
            6 => State::Running(Activity::Initialising(p.travel())),
            7 => State::Running(Activity::Moving(p.travel())),
            8 => State::Running(Activity::Approaching(p.travel(), p.zero)),
            9 => State::Running(Activity::Searching(p.search())),
            10 => State::Running(Activity::Ejecting),
            _ => State::Empty,
        }
    }
}
