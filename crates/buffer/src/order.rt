// Strings and controls in every state: what is asked, and whether it is refused.
ghost use Rattle.std.specs.Prelude.{◌≡◌};
ghost use Rattle.buffer.specs.Order.{cell_of, order_of, kept_of, verdict_of, stored_by};

use crate::course::{Column, State};
use command::refusal::{Refusal, Verdict};
use text::loops;

// A string without R, a string with R, R, X, C, T and !R.
#[derive(Clone, Copy)]
pub enum Action {
    Store,
    Launch,
    Run,
    Again,
    Clear,
    Stop,
    Reset,
}

// A string behind the stored text, or instead of it.
#[derive(Clone, Copy)]
pub enum Loading {
    Joined,
    Replacing,
}

// What else is done to the text that is there, and its run.
#[derive(Clone, Copy)]
pub enum Change {
    Begin,
    Resume,
    EndDelay,
    Repeat,
    Erase,
    Halt,
    Reset,
}

// What an action asks in a state: a refusal, a string to be loaded that runs or waits, or something else.
#[derive(Clone, Copy)]
pub enum Order {
    Refuse(Refusal),
    Load(Loading, bool),
    Change(Change),
}

impl Action {
    // The table of docs/BUFFER.md.
    #[tactic(auto, unfolding(crate::specs::Order::cell_of))]
    fn cell(self, column: Column) -> Order
        ensures { result ≡ cell_of self column }
    {
        match (self, column) {
            (Action::Store, Column::Stored) => Order::Load(Loading::Joined, false),
            (Action::Store, Column::Busy | Column::Delaying) => Order::Refuse(Refusal::Busy),
            (Action::Store, _) => Order::Load(Loading::Replacing, false),
            (Action::Launch, Column::Stored) => Order::Load(Loading::Joined, true),
            (Action::Launch, Column::Busy) => Order::Refuse(Refusal::Busy),
            (Action::Launch, _) => Order::Load(Loading::Replacing, true),
            (Action::Run, Column::Stored) => Order::Change(Change::Begin),
            (Action::Run, Column::Stopped) => Order::Change(Change::Resume),
            (Action::Run, Column::Delaying) => Order::Change(Change::EndDelay),
            (Action::Run, Column::Busy) => Order::Refuse(Refusal::Busy),
            (Action::Run, Column::Empty | Column::Done) => Order::Refuse(Refusal::NothingToRun),
            (Action::Again, Column::Done) => Order::Change(Change::Repeat),
            (Action::Again, Column::Busy) => Order::Refuse(Refusal::Busy),
            (Action::Again, _) => Order::Refuse(Refusal::NothingToRun),
            (Action::Clear, Column::Busy | Column::Delaying) => Order::Refuse(Refusal::Busy),
            (Action::Clear, _) => Order::Change(Change::Erase),
            (Action::Stop, _) => Order::Change(Change::Halt),
            (Action::Reset, _) => Order::Change(Change::Reset),
        }
    }

    pub fn order(self, state: State) -> Order
        ensures { result ≡ order_of self state }
    {
        self.cell(state.column())
    }
}

impl Loading {
    // How much of the stored text stays in front.
    pub fn kept(self, len: usize) -> usize
        ensures { result ≡ kept_of self len }
    {
        match self {
            Loading::Joined => len,
            Loading::Replacing => 0,
        }
    }
}

impl Order {
    // Whether it is refused, and why. The lengths come first: `loops_ok` is called at one place, since two calls keep it out of line, with a stack frame of its own.
    #[tactic(auto, unfolding(crate::specs::Order::verdict_of, crate::specs::Order::sized, crate::specs::Order::loops_by))]
    pub fn verdict(self, stored: &[u8], added: &[u8]) -> Verdict
        ensures { result ≡ verdict_of self stored.now added.now }
    {
        let (kept, n) = match self {
            Order::Refuse(why) => return Err(why),
            Order::Load(loading, run) => {
                let kept = loading.kept(stored.len());
                if 256 < kept.saturating_add(added.len()) {
                    return Err(Refusal::TooLong);
                }
                if !run {
                    return Ok(());
                }
                (kept, added.len())
            }
            Order::Change(Change::Begin) => (stored.len(), 0),
            Order::Change(_) => return Ok(()),
        };
        if loops::loops_ok(&stored[..kept], &added[..n]) {
            return Ok(());
        }
        Err(Refusal::Loops)
    }
}

// The text after an order that was accepted or refused.
#[tactic(auto, unfolding(crate::specs::Order::stored_by, crate::specs::Order::laid_by))]
pub fn store(order: Order, verdict: Verdict, len: usize, added: &[u8], text: &mut [u8])
    ensures { text.new ≡ stored_by order verdict len added.now text.old }
{
    if let (Ok(()), Order::Load(loading, _)) = (verdict, order) {
        basics::lay(added, text, loading.kept(len));
    }
}
