// The receiver of DT frames.
ghost use Rattle.std.specs.Prelude.{◌≡◌};
ghost use Rattle.line.specs.Dt.{end_of, take_of, hear_of};

use crate::{Deed, Heard, printable};

// Outside a frame; after `/`; in a frame to an address, with so many data bytes, 321 for more than 320.
#[derive(Clone, Copy)]
pub enum Dt {
    Outside,
    Started,
    Collecting(u8, u32),
}

impl Dt {
    // CR, which ends a frame.
    #[tactic(auto, unfolding(crate::specs::Dt::end_of))]
    fn end(self) -> Heard<Dt>
        ensures { result ≡ end_of self }
    {
        match self {
            Dt::Outside | Dt::Started => Heard::waits(Dt::Outside),
            Dt::Collecting(address, count) => Heard {
                line: Dt::Outside,
                deed: Deed::Frame(address, count as usize),
            },
        }
    }

    // A byte of 20h to 7Eh that is no `/`.
    #[tactic(auto, unfolding(crate::specs::Dt::take_of))]
    fn take(self, b: u8) -> Heard<Dt>
        ensures { result ≡ take_of self b }
    {
        match self {
            Dt::Outside => Heard::waits(Dt::Outside),
            Dt::Started => Heard::waits(Dt::Collecting(b, 0)),
            Dt::Collecting(address, count) if count < 320 => Heard {
                line: Dt::Collecting(address, count + 1),
                deed: Deed::Keep(count as usize),
            },
            Dt::Collecting(address, _) => Heard::waits(Dt::Collecting(address, 321)),
        }
    }

    // One byte from the wire.
    #[tactic(auto, unfolding(crate::specs::Dt::hear_of))]
    pub fn hear(self, b: u8) -> Heard<Dt>
        ensures { result ≡ hear_of self b }
    {
        match b {
            b'/' => Heard::waits(Dt::Started),
            13 => self.end(),
            _ if printable(b) => self.take(b),
            _ => Heard::waits(Dt::Outside),
        }
    }
}
