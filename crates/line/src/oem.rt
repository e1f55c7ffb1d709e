// The receiver of OEM frames.
ghost use Rattle.std.specs.Prelude.{◌≡◌};
ghost use Rattle.line.specs.Oem.{sequenced, head_of, with_byte, header_of, take_of, collect_of, judged_of, hear_of};

use crate::{Deed, Heard, printable};

// Of a frame in hand: to whom it goes, its sequence byte, and the exclusive-or of all its bytes so far.
#[derive(Clone, Copy)]
pub struct Head {
    pub address: u8,
    pub sequence: u8,
    pub sum: u8,
}

// Outside a frame; after 02h; after the address; in a frame, with so many data bytes, 321 for more than 320; after its 03h, with the sum to come.
#[derive(Clone, Copy)]
pub enum Oem {
    Outside,
    Started,
    Addressed(u8),
    Collecting(Head, u32),
    Ended(Head, u32),
}

// Outside a frame.
#[tactic(auto, unfolding(crate::specs::Oem::hear_of))]
fn outside(b: u8) -> Heard<Oem>
    ensures { result ≡ hear_of Oem.Outside b }
{
    Heard::waits(if b == 2 { Oem::Started } else { Oem::Outside })
}

// Where the address or the sequence stands: what comes next is given by the byte.
#[tactic(auto, unfolding(crate::specs::Oem::header_of))]
fn header(b: u8, next: Oem) -> Heard<Oem>
    ensures { result ≡ header_of b next }
{
    match b {
        2 => Heard::waits(Oem::Started),
        _ if printable(b) => Heard::waits(next),
        _ => Heard::waits(Oem::Outside),
    }
}

// Whether a sequence byte is one of 30h to 37h.
#[tactic(auto, unfolding(crate::specs::Oem::sequenced))]
fn sequenced(b: u8) -> bool
    ensures { result ≡ sequenced b }
{
    48 <= b && b <= 55
}

impl Head {
    fn new(address: u8, sequence: u8) -> Head
        ensures { result ≡ head_of address sequence }
    {
        Head {
            address,
            sequence,
            sum: 2 ^ address ^ sequence,
        }
    }

    // One byte more.
    fn with(self, b: u8) -> Head
        ensures { result ≡ with_byte self b }
    {
        Head {
            sum: self.sum ^ b,
            ..self
        }
    }

    // A data byte.
    #[tactic(auto, unfolding(crate::specs::Oem::take_of))]
    fn take(self, count: u32, b: u8) -> Heard<Oem>
        ensures { result ≡ take_of self count b }
    {
        let next = self.with(b);
        if count < 320 {
            return Heard {
                line: Oem::Collecting(next, count + 1),
                deed: Deed::Keep(count as usize),
            };
        }
        Heard::waits(Oem::Collecting(next, 321))
    }

    // Inside the frame.
    #[tactic(auto, unfolding(crate::specs::Oem::collect_of))]
    fn collect(self, count: u32, b: u8) -> Heard<Oem>
        ensures { result ≡ collect_of self count b }
    {
        match b {
            2 => Heard::waits(Oem::Started),
            3 => Heard::waits(Oem::Ended(self.with(3), count)),
            _ if printable(b) => self.take(count, b),
            _ => Heard::waits(Oem::Outside),
        }
    }

    // The sum.
    #[tactic(auto, unfolding(crate::specs::Oem::judged_of))]
    fn judge(self, count: u32, b: u8) -> Heard<Oem>
        ensures { result ≡ judged_of self count b }
    {
        if b == self.sum && sequenced(self.sequence) {
            return Heard {
                line: Oem::Outside,
                deed: Deed::Frame(self.address, count as usize),
            };
        }
        Heard::waits(Oem::Outside)
    }
}

impl Oem {
    // One byte from the wire: one match, since a closure for each state would have to be named here too.
    #[tactic(auto, unfolding(crate::specs::Oem::hear_of))]
    pub fn hear(self, b: u8) -> Heard<Oem>
        ensures { result ≡ hear_of self b }
    {
        match self {
            Oem::Outside => outside(b),
            Oem::Started => header(b, Oem::Addressed(b)),
            Oem::Addressed(address) => header(b, Oem::Collecting(Head::new(address, b), 0)),
            Oem::Collecting(head, count) => head.collect(count, b),
            Oem::Ended(head, count) => head.judge(count, b),
        }
    }
}
