// A host's part: what a line of the bench program or of the training rig does to a controller, and what it prints.
// The output is memory that a caller lends, of any length and from any place on; an array of its own here would ask more of callers. So both stay arguments, and each function asks for the room that its text may take.
#![tactic(auto)]

ghost use Rattle.std.specs.Prelude.{◌≡◌, ◌+◌, ◌*◌, ◌≤◌, length, eqb, pos, neg_ℤ};
ghost use Rattle.desk.specs.Desk.{most_of};
ghost use Rattle.desk.specs.Hex.{bytes_in};
ghost use Rattle.pipettor.specs.Valid.{Valid};
ghost use Rattle.pipettor.specs.Address.{address_of};
ghost use Rattle.printing.specs.Print.{ended};
ghost use Rattle.station.specs.Serve.{at_start, on, served, gone_on, ended_of, sent_of, Wrappable, Wraps, framed_by, framed_of, placed_of, shows_ask, waited_of, ran_of, halted_of, lent_of, tipped_of, pressed_of, made_by, numbered_of, said_to, raw_of, served_of, Tells, Replies};

use desk::{Asked, Desk, Quantity, hex};
use line::Framing;
use motion::Sense;
use pipettor::address::Address;
use pipettor::{Controller, S1, Said};
use std::marker::Model;

// Whose lines are taken, how many bytes the answer buffers have, what the host senses, and the controller.
#[derive(Clone, Copy)]
pub struct Station {
    pub desk: Desk,
    pub lend: usize,
    pub sense: Sense,
    pub controller: Controller,
}

// A contract reads the four; every station came from making and earlier lines.
impl Model for Station {
    ghost use Rattle.station.specs.Held.{Held};

    ghost Value = { Held };

    ghost use Rattle.station.specs.Serve.{station, Manned};

    ghost view = { λ a. station a.desk a.lend a.sense a.controller };

    ghost invariant = { λ a. Manned (station a.desk a.lend a.sense a.controller) };

    ghost inverse = { λ s. record { desk = s.desk; lend = s.lend; sense = s.sense; controller = s.controller } };
}

// A station after a line, and where what the line prints ends.
#[derive(Clone, Copy)]
pub struct Replied {
    pub station: Station,
    pub end: usize,
}

// A station after a byte, and what was said to it.
#[derive(Clone, Copy)]
struct Told {
    station: Station,
    said: Said,
}

// The rig shows that a tick asked, the bench program doesn't.
fn shows(desk: Desk, asked: bool) -> bool
    ensures { result ≡ shows_ask desk asked }
{
    match desk {
        Desk::Bench => false,
        Desk::Rig => asked,
    }
}

// An OEM frame but for its sum: 02h, the text's first character as address, 30h, the rest as data, 03h. How many bytes it has.
#[tactic(auto, using(crate::proofs::Wrapping::first_there, crate::proofs::Wrapping::one_behind))]
fn wrap(text: &[u8], wire: &mut [u8]) -> usize
    requires { Wrappable text.now wire.old }
    ensures { Wraps text.now wire.old result wire.new }
{
    basics::lay(&[2, text[0], b'0'], wire, 0);
    basics::lay(&text[1..], wire, 3);
    basics::lay(&[3], wire, text.len() + 2);
    text.len() + 3
}

impl Station {
    // "Address 1."
    #[tactic(auto, using(crate::proofs::Serving::starts))]
    pub fn new(desk: Desk) -> Station
        ensures { result ≡ at_start desk }
    {
        Station {
            desk,
            lend: 32,
            sense: Sense::nothing(),
            controller: Controller::fresh(Framing::Dt, Address::One),
        }
    }

    fn on(self, controller: Controller) -> Station
        requires valid { Valid controller }
        ensures { result ≡ on controller self }
    {
        Station { controller, ..self }
    }

    // A line that says no more than this.
    #[tactic(auto, using(crate::proofs::Serving::says))]
    fn says(self, text: &[u8], out: &mut [u8], at: usize) -> Replied
        requires at_in_bounds { at + length text.now + 1 ≤ length out.old }
        ensures { Replies (length text.now + 1) (served self (ended text.now)) at out.old result out.new }
    {
        Replied {
            station: self,
            end: printing::line(text, out, at),
        }
    }

    // A byte, with a buffer lent.
    fn tell(self, b: u8, buf: &mut [u8]) -> Told
        ensures { Tells b self buf.old result buf.new }
    {
        let reply = self.controller.byte(b, buf);
        Told {
            station: self.on(reply.controller),
            said: reply.said,
        }
    }

    // The last byte of a frame, and what is answered.
    #[tactic(auto, using(crate::proofs::Serving::buffer_counted, crate::proofs::Serving::buffer_short))]
    fn finish(self, last: u8, out: &mut [u8], at: usize) -> Replied
        requires at_in_bounds { at + 65 ≤ length out.old }
        ensures { Replies 65 (ended_of last self) at out.old result out.new }
    {
        let mut buf = [0u8; 64];
        let lend = self.lend; // A variable: of a value with a model, a field can't bound a part yet.
        let lent = &mut buf[..lend];
        let told = self.tell(last, lent);
        Replied {
            station: told.station,
            end: printing::show(self.controller.framing(), told.said, lent, out, at),
        }
    }

    // What follows a frame's first byte, and its last: no frame ends before that.
    fn go_on(self, rest: &[u8], last: u8, out: &mut [u8], at: usize) -> Replied
        requires at_in_bounds { at + 65 ≤ length out.old }
        ensures { Replies 65 (gone_on rest.now last self) at out.old result out.new }
    {
        self.on(self.controller.listen(rest).controller)
            .finish(last, out, at)
    }

    // A frame: its first byte tells that a buffer is too short.
    #[tactic(auto, using(crate::proofs::Serving::buffer_counted))]
    fn send(self, first: u8, rest: &[u8], last: u8, out: &mut [u8], at: usize) -> Replied
        requires at_in_bounds { at + 65 ≤ length out.old }
        ensures { Replies 65 (sent_of first rest.now last self) at out.old result out.new }
    {
        let mut buf = [0u8; 64];
        let lend = self.lend; // A variable: of a value with a model, a field can't bound a part yet.
        let told = self.tell(first, &mut buf[..lend]);
        match told.said {
            Ok(_) => told.station.go_on(rest, last, out, at),
            Err(S1) => told.station.says(b"S1", out, at),
        }
    }

    // An OEM frame, as `wrap` lays it, and the sum; a text without an address can't be sent.
    #[tactic(auto, using(crate::proofs::Wrapping::all_there, crate::proofs::Wrapping::one_before, crate::proofs::Wrapping::counted))]
    fn send_oem(self, text: &[u8], out: &mut [u8], at: usize) -> Replied
        requires text_len_bound { length text.now ≤ 400 }
        requires at_in_bounds { at + 65 ≤ length out.old }
        ensures { Replies 65 (framed_by Framing.Oem text.now self) at out.old result out.new }
    {
        if text.is_empty() {
            return self.says(b"?", out, at);
        }
        let mut wire = [0u8; 403];
        let n = wrap(text, &mut wire);
        self.send(2, &wire[1..n], line::sum(&wire[..n]), out, at)
    }

    // "sends `/`, the text, CR", or an OEM frame, as the controller was made.
    fn frame(self, text: &[u8], out: &mut [u8], at: usize) -> Replied
        requires text_len_bound { length text.now ≤ 400 }
        requires at_in_bounds { at + 65 ≤ length out.old }
        ensures { Replies 65 (framed_of text.now self) at out.old result out.new }
    {
        match self.controller.framing() {
            Framing::Dt => self.send(b'/', text, 13, out, at),
            Framing::Oem => self.send_oem(text, out, at),
        }
    }

    // Where the plunger is left, and whether a tick asked.
    fn place(self, controller: Controller, asked: bool, out: &mut [u8], at: usize) -> Replied
        requires valid { Valid controller }
        requires at_in_bounds { at + 38 ≤ length out.old }
        ensures { Replies 38 (placed_of controller asked self) at out.old result out.new }
    {
        let body = controller.device.core.body;
        Replied {
            station: self.on(controller),
            end: printing::place(body.plunger, body.exact, asked, out, at),
        }
    }

    #[tactic(auto, using(crate::proofs::Serving::waits))]
    fn wait(self, n: u32, out: &mut [u8], at: usize) -> Replied
        requires at_in_bounds { at + 38 ≤ length out.old }
        ensures { Replies 38 (waited_of n self) at out.old result out.new }
    {
        let ticked = self.controller.advance(n, self.sense);
        self.place(
            ticked.controller,
            shows(self.desk, ticked.news.eject),
            out,
            at,
        )
    }

    // What a run used, and where it left the plunger.
    fn run(self, n: u32, out: &mut [u8], at: usize) -> Replied
        requires at_in_bounds { at + 49 ≤ length out.old }
        ensures { Replies 49 (ran_of n self) at out.old result out.new }
    {
        let ran = self.controller.run(n, self.sense);
        let ticked = ran.ticked;
        let body = ticked.controller.device.core.body;
        let asked = shows(self.desk, ticked.news.eject);
        Replied {
            station: self.on(ticked.controller),
            end: printing::used(ran.used, body.plunger, body.exact, asked, out, at),
        }
    }

    #[tactic(auto, using(crate::proofs::Serving::halts))]
    fn stop(self, out: &mut [u8], at: usize) -> Replied
        requires at_in_bounds { at + 38 ≤ length out.old }
        ensures { Replies 38 (halted_of self) at out.old result out.new }
    {
        self.place(self.controller.stop(), false, out, at)
    }

    // Answer buffers of n bytes from now on.
    fn buffers(self, n: u32, out: &mut [u8], at: usize) -> Replied
        requires n_bound { n ≤ 64 }
        requires at_in_bounds { at + 3 ≤ length out.old }
        ensures { Replies 3 (lent_of n self) at out.old result out.new }
    {
        let station = Station {
            lend: n as usize,
            ..self
        };
        station.says(b"ok", out, at)
    }

    // A tip from now on, or none.
    fn tip(self, n: u32, out: &mut [u8], at: usize) -> Replied
        requires at_in_bounds { at + 3 ≤ length out.old }
        ensures { Replies 3 (tipped_of (eqb n 1) self) at out.old result out.new }
    {
        let station = Station {
            sense: self.sense.with_tip(n == 1),
            ..self
        };
        station.says(b"ok", out, at)
    }

    // A reading from now on.
    fn press(self, reading: i32, out: &mut [u8], at: usize) -> Replied
        requires at_in_bounds { at + 3 ≤ length out.old }
        ensures { Replies 3 (pressed_of reading self) at out.old result out.new }
    {
        let station = Station {
            sense: self.sense.with_reading(reading),
            ..self
        };
        station.says(b"ok", out, at)
    }

    // A fresh controller, or S2 and the old one.
    fn make(self, framing: Framing, n: u32, out: &mut [u8], at: usize) -> Replied
        requires at_in_bounds { at + 3 ≤ length out.old }
        ensures { Replies 3 (made_by framing (address_of n) self) at out.old result out.new }
    {
        let Ok(address) = Address::try_from(n) else {
            return self.says(b"S2", out, at);
        };
        let fresh = Controller::fresh(framing, address);
        self.on(fresh).says(b"ok", out, at)
    }

    #[tactic(auto, using(crate::proofs::Serving::press_within, crate::proofs::Serving::minus_within, crate::proofs::Serving::lend_within))]
    // One match, as for a line.
    fn number(self, q: Quantity, n: u32, out: &mut [u8], at: usize) -> Replied
        requires n_bound { n ≤ most_of q }
        requires at_in_bounds { at + 65 ≤ length out.old }
        ensures { Replies 65 (numbered_of q n self) at out.old result out.new }
    {
        match q {
            Quantity::Ticks => self.wait(n, out, at),
            Quantity::Run => self.run(n, out, at),
            Quantity::Lend => self.buffers(n, out, at),
            Quantity::New => self.make(Framing::Dt, n, out, at),
            Quantity::Oem => self.make(Framing::Oem, n, out, at),
            Quantity::Tip => self.tip(n, out, at),
            Quantity::Press => self.press(n as i32, out, at),
            Quantity::Minus => self.press(-(n as i32), out, at),
        }
    }

    // A raw byte, and what is said to it.
    #[tactic(auto, using(crate::proofs::Serving::buffer_counted, crate::proofs::Serving::buffer_short))]
    fn hear(self, b: u8, first: bool, out: &mut [u8], at: usize) -> Replied
        requires at_in_bounds { at + 195 ≤ length out.old }
        ensures { Replies 195 (said_to b first self) at out.old result out.new }
    {
        let mut buf = [0u8; 64];
        let lend = self.lend; // A variable: of a value with a model, a field can't bound a part yet.
        let lent = &mut buf[..lend];
        let told = self.tell(b, lent);
        Replied {
            station: told.station,
            end: printing::raw(first, told.said, lent, out, at),
        }
    }

    // Bytes as two hex digits each, a space between two.
    #[tactic(auto, using(crate::proofs::Raw::byte_room, crate::proofs::Raw::close_room))]
    fn raw(self, t: &[u8], out: &mut [u8], start: usize) -> Replied
        requires t_len_bound { length t.now ≤ 400 }
        requires t_in_bounds { start + 80 * (length t.now + 3) ≤ length out.old }
        ensures { Replies (80 * (length t.now + 3)) (raw_of (bytes_in t.now) self) start out.old result out.new }
    {
        let mut station = self;
        let mut at = start;
        let mut rest = t;
        while let [a, b, ..] = rest {
            let heard = station.hear(hex::byte(*a, *b), start == at, out, at);
            station = heard.station;
            at = heard.end;
            rest = &rest[rest.len().min(3)..];
        }
        Replied {
            station,
            end: printing::close(start == at, out, at),
        }
    }

    // A complete line: one match, each case with an argument of its own.
    #[tactic(auto, using(crate::proofs::Serving::frame_starts, crate::proofs::Serving::frame_few, crate::proofs::Serving::bytes_start, crate::proofs::Serving::bytes_few, crate::proofs::Serving::bytes_fit, crate::proofs::Serving::number_within))]
    pub fn answer(self, line: &[u8], out: &mut [u8], at: usize) -> Replied
        requires line_in_bounds { at + 80 * (length line.now + 1) ≤ length out.old }
        ensures { Replies (80 * (length line.now + 1)) (served_of line.now self) at out.old result out.new }
    {
        match desk::read(self.desk, line) {
            Asked::Send => self.frame(&line[2..], out, at),
            Asked::Number(q, n) => self.number(q, n, out, at),
            Asked::Stop => self.stop(out, at),
            Asked::Raw => self.raw(&line[2..], out, at),
            Asked::Wrong => self.says(b"?", out, at),
        }
    }
}
