// The receiver's numbers: a line as the host's memory holds it.
ghost use Rattle.std.specs.Prelude.{◌≡◌};
ghost use Rattle.image.specs.Receiver.{headed, held_of, head_in, line_by};

use line::Line;
use line::dt::Dt;
use line::oem::{Head, Oem};

// Which line it is, and what goes with it; what doesn't is 0. The tag is a number, since it stands in the memory of a host in C.
#[derive(Clone, Copy, Default, PartialEq, Eq)]
pub struct Held {
    pub tag: u8,
    pub owner: u8,
    pub sequence: u8,
    pub sum: u8,
    pub count: u32,
}

fn headed(tag: u8, head: Head, count: u32) -> Held
    ensures { result ≡ headed tag head count }
{
    Held {
        tag,
        owner: head.address,
        sequence: head.sequence,
        sum: head.sum,
        count,
    }
}

impl From<Line> for Held {
    ghost from_gives = { λ l h. h ≡ held_of l };

    fn from(line: Line) -> Held
        ensures { result ≡ held_of line }
    {
        let rest = Held::default();
        match line {
            Line::Dt(Dt::Outside) => Held { tag: 0, ..rest },
            Line::Dt(Dt::Started) => Held { tag: 1, ..rest },
            Line::Dt(Dt::Collecting(owner, count)) => Held {
                tag: 2,
                owner,
                count,
                ..rest
            },
            Line::Oem(Oem::Outside) => Held { tag: 3, ..rest },
            Line::Oem(Oem::Started) => Held { tag: 4, ..rest },
            Line::Oem(Oem::Addressed(owner)) => Held {
                tag: 5,
                owner,
                ..rest
            },
            Line::Oem(Oem::Collecting(head, count)) => headed(6, head, count),
            Line::Oem(Oem::Ended(head, count)) => headed(7, head, count),
        }
    }
}

impl Held {
    fn head(self) -> Head
        ensures { result ≡ head_in self }
    {
        Head {
            address: self.owner,
            sequence: self.sequence,
            sum: self.sum,
        }
    }
}

// The line that the tag tells; one that is none of the eight tells the first.
impl From<Held> for Line {
    ghost from_gives = { λ h l. l ≡ line_by h };

    #[tactic(auto, unfolding(crate::specs::Receiver::line_at))]
    fn from(held: Held) -> Line
        ensures { result ≡ line_by held }
    {
        match held.tag {
            1 => Line::Dt(Dt::Started),
            2 => Line::Dt(Dt::Collecting(held.owner, held.count)),
            3 => Line::Oem(Oem::Outside),
            4 => Line::Oem(Oem::Started),
            5 => Line::Oem(Oem::Addressed(held.owner)),
            6 => Line::Oem(Oem::Collecting(held.head(), held.count)),
            7 => Line::Oem(Oem::Ended(held.head(), held.count)),
            _ => Line::Dt(Dt::Outside),
        }
    }
}
