// Frames from the wire and answers back to it. What they carry is not known here.
#![tactic(auto)]

pub mod dt;
pub mod oem;

ghost use Rattle.std.specs.Prelude.{◌≡◌, ◌+◌, ◌≤◌, length};
ghost use Rattle.basics.specs.Lay.{Laid};
ghost use Rattle.line.specs.Bytes.{printable, sum_of};
ghost use Rattle.line.specs.Heard.{waits};
ghost use Rattle.line.specs.Wire.{fresh_line, framing_of, hear_of, keep_of, is_whole};
ghost use Rattle.line.specs.Answer.{status_of, report_of, start_of, Closed, Answered};

use decimal::Decimals;
use dt::Dt;
use oem::Oem;

// How frames are wrapped on the line, chosen when a controller is made.
#[derive(Clone, Copy)]
pub enum Framing {
    Dt,
    Oem,
}

// What a byte asks for: nothing; to be kept at a place of the frame; that a frame to an address, with so many
// data bytes, 321 for more than 320, is acted on.
#[derive(Clone, Copy)]
pub enum Deed {
    Nothing,
    Keep(usize),
    Frame(u8, usize),
}

impl Deed {
    // Whether a frame is complete.
    pub fn is_whole(self) -> bool
        ensures { result ≡ is_whole self }
    {
        match self {
            Deed::Nothing | Deed::Keep(_) => false,
            Deed::Frame(_, _) => true,
        }
    }
}

// What a byte leaves: the receiver, of one framing or of either, and what is asked for.
#[derive(Clone, Copy)]
pub struct Heard<R> {
    pub line: R,
    pub deed: Deed,
}

impl<R> Heard<R> {
    // The byte changes the receiver and nothing else.
    fn waits(line: R) -> Heard<R>
        ensures { result ≡ waits line }
    {
        Heard {
            line,
            deed: Deed::Nothing,
        }
    }
}

// A receiver of either framing.
#[derive(Clone, Copy)]
pub enum Line {
    Dt(Dt),
    Oem(Oem),
}

// Whether a byte is one of 20h to 7Eh.
#[tactic(auto, unfolding(crate::specs::Bytes::printable))]
pub fn printable(b: u8) -> bool
    ensures { result ≡ printable b }
{
    32 <= b && b <= 126
}

impl Line {
    // The line before any byte: no conversion, each framing has lines of its own.
    pub fn fresh(framing: Framing) -> Line
        ensures { result ≡ fresh_line framing }
    {
        match framing {
            Framing::Dt => Line::Dt(Dt::Outside),
            Framing::Oem => Line::Oem(Oem::Outside),
        }
    }

    pub fn framing(self) -> Framing
        ensures { result ≡ framing_of self }
    {
        match self {
            Line::Dt(_) => Framing::Dt,
            Line::Oem(_) => Framing::Oem,
        }
    }

    // One byte from the wire. Two cases of one form, each with a receiver of its own type.
    #[tactic(auto, unfolding(crate::specs::Wire::hear_of))]
    pub fn hear(self, b: u8) -> Heard<Line>
        ensures { result ≡ hear_of self b }
    {
        match self {
            Line::Dt(dt) => {
                let Heard { line, deed } = dt.hear(b);
                Heard {
                    line: Line::Dt(line),
                    deed,
                }
            }
            Line::Oem(oem) => {
                let Heard { line, deed } = oem.hear(b);
                Heard {
                    line: Line::Oem(line),
                    deed,
                }
            }
        }
    }
}

// The frame's data after a byte that asked for this deed.
#[tactic(auto, unfolding(crate::specs::Wire::keep_of))]
pub fn keep(frame: &mut [u8; 320], deed: Deed, b: u8)
    ensures { frame.new ≡ keep_of frame.old deed b }
{
    // Of what `get_mut` lends a proof knows only the length afterwards.
    match deed {
        Deed::Keep(at) if at < frame.len() => frame[at] = b,
        _ => {}
    }
}

// What a report says, apart from how it is written.
#[derive(Clone, Copy)]
pub enum Report {
    Nothing,
    Character(u8),
    Whole(u32),
    Tenths(u32),
    Thousandths(u32),
}

// The status byte.
#[tactic(auto, unfolding(crate::specs::Answer::status_of))]
pub fn status(ready: bool, code: u8) -> u8
    ensures { result ≡ status_of ready code }
{
    let state = if ready { 96 } else { 64 };
    state + code % 16
}

// The report's bytes from the fourth place on.
#[tactic(auto, unfolding(crate::specs::Answer::report_of))]
fn put_report(report: Report, buf: &mut [u8]) -> Option<usize>
    ensures { Laid (report_of report) 3 buf.old result buf.new }
{
    match report {
        Report::Nothing => basics::lay(&[], buf, 3),
        Report::Character(c) => basics::lay(&[c], buf, 3),
        Report::Whole(n) => decimal::put(u64::from(n), Decimals::Zero, buf, 3),
        Report::Tenths(n) => decimal::put(u64::from(n), Decimals::One, buf, 3),
        Report::Thousandths(n) => decimal::put(u64::from(n), Decimals::Three, buf, 3),
    }
}

// The exclusive-or of bytes.
pub fn sum(bytes: &[u8]) -> u8
    ensures { result ≡ sum_of bytes.now }
{
    bytes.iter().fold(0, |sum, b| sum ^ b)
}

impl Framing {
    // What an answer begins with.
    #[tactic(auto, unfolding(crate::specs::Answer::start_of))]
    fn start(self) -> u8
        ensures { result ≡ start_of self }
    {
        match self {
            Framing::Dt => b'/',
            Framing::Oem => 2,
        }
    }

    // What ends an answer, from a place on; and where it ends. The buffer is lent, as for `basics::lay`.
    fn close(self, buf: &mut [u8], at: usize) -> usize
        requires { at + 3 ≤ length buf.old }
        ensures { Closed self at buf.old result buf.new }
    {
        match self {
            Framing::Dt => {
                basics::lay(&[3, 13, 10], buf, at);
                at + 3
            }
            Framing::Oem => {
                let before = sum(&buf[..at]);
                basics::lay(&[3, before ^ 3], buf, at);
                at + 2
            }
        }
    }
}

// The whole answer at the start of the buffer; its other bytes stay as they were.
pub fn answer(framing: Framing, status: u8, report: Report, buf: &mut [u8]) -> Option<usize>
    ensures { Answered framing status report buf.old result buf.new }
{
    if buf.len() < 32 {
        return None;
    }
    basics::lay(&[framing.start(), b'0', status], buf, 0);
    let size = put_report(report, buf)?;
    Some(framing.close(buf, 3 + size))
}
