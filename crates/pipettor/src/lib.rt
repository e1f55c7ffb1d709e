// The controller of one pipettor: bytes in, answers out, ticks between them.
#![tactic(auto)]

mod acting;
pub mod address;
pub mod lent;

ghost use Rattle.std.specs.Prelude.{◌≡◌};
ghost use Rattle.pipettor.specs.Valid.{Valid};
ghost use Rattle.pipettor.specs.Returns.{Returns, Keeps};
ghost use Rattle.pipettor.specs.Byte.{after, byte_of};
ghost use Rattle.pipettor.specs.Controller.{on, made_of, ticked, ticked_of, stopped_of, advanced_of, run_of, framing_is, ready_is};
ghost use Rattle.pipettor.specs.Listening.{UpToFrame, listened_of};

use address::Address;
use lent::{Parts, Spoke};
use line::{Framing, Line};
use machine::step::News;
use machine::{Device, S3, Turned};
use motion::Sense;

// The receiver's line and the frame in hand; the buffer, its text and the plunger.
// `Valid` is a clause of `byte`, `tick`, `advance` and `run`, and no invariant of the type: `listen`, `framing`, `ready` and `stop` take any controller, and a type would ask it of them too.
#[derive(Clone, Copy)]
pub struct Controller {
    pub address: Address,
    pub line: Line,
    pub frame: [u8; 320],
    pub device: Device,
}

// The buffer lent is shorter than 32 bytes.
#[derive(Clone, Copy)]
pub struct S1;

// Nothing, or an answer of so many bytes; or S1.
pub type Said = Result<Option<usize>, S1>;

#[derive(Clone, Copy)]
pub struct Reply {
    pub controller: Controller,
    pub said: Said,
}

// A controller that has taken so many bytes.
#[derive(Clone, Copy)]
pub struct Listened {
    pub controller: Controller,
    pub n: usize,
}

// A controller after ticks, and what they tell.
#[derive(Clone, Copy)]
pub struct Ticked {
    pub controller: Controller,
    pub news: News,
}

#[derive(Clone, Copy)]
pub struct Ran {
    pub ticked: Ticked,
    pub used: Result<u32, S3>,
}

// A line that has taken so many bytes.
#[derive(Clone, Copy)]
pub struct Taken {
    pub line: Line,
    pub n: usize,
}

// The line and the frame in hand after the bytes before one that completes a frame.
pub fn receive(start: Line, frame: &mut [u8; 320], bytes: &[u8]) -> Taken
    ensures { UpToFrame start frame.old bytes.now result frame.new }
{
    let mut line = start;
    for (n, b) in bytes.iter().enumerate() {
        let heard = line.hear(*b);
        if heard.deed.is_whole() {
            return Taken { line, n };
        }
        line::keep(frame, heard.deed, *b);
        line = heard.line;
    }
    Taken {
        line,
        n: bytes.len(),
    }
}

impl Controller {
    pub fn fresh(framing: Framing, address: Address) -> Controller
        ensures { Returns result (made_of framing address).next result }
    {
        Controller {
            address,
            line: Line::fresh(framing),
            frame: [0; 320],
            device: Device::fresh(),
        }
    }

    // One byte received, with a buffer lent for the answer.
    pub fn byte(self, b: u8, buf: &mut [u8]) -> Reply
        requires { Valid self }
        ensures { Returns (after result buf.new) (byte_of self b buf.old).next result.controller }
    {
        let mut frame = self.frame;
        let mut text = self.device.text;
        let parts = Parts {
            address: self.address,
            line: self.line,
            tip: self.device.tip,
            core: self.device.core,
        };
        let Spoke { parts, said } = parts.byte(b, &mut frame, &mut text, buf);
        Reply {
            controller: Controller {
                address: parts.address,
                line: parts.line,
                frame,
                device: Device {
                    text,
                    tip: parts.tip,
                    core: parts.core,
                },
            },
            said,
        }
    }

    // Bytes up to one that completes a frame, which is left: none of those taken does, and nothing is answered.
    pub fn listen(self, bytes: &[u8]) -> Listened
        ensures { Keeps result (listened_of self bytes.now) self result.controller }
    {
        let mut frame = self.frame;
        let Taken { line, n } = receive(self.line, &mut frame, bytes);
        Listened {
            controller: Controller {
                line,
                frame,
                ..self
            },
            n,
        }
    }

    fn on(self, device: Device) -> Controller
        ensures { result ≡ on device self }
    {
        Controller { device, ..self }
    }

    fn ticked(self, turned: Turned) -> Ticked
        ensures { result ≡ ticked turned self }
    {
        Ticked {
            controller: self.on(turned.device),
            news: turned.news,
        }
    }

    // A tick of 10 ms, with what the host senses.
    pub fn tick(self, sense: Sense) -> Ticked
        requires { Valid self }
        ensures { Returns result (ticked_of sense self).next result.controller }
    {
        self.ticked(self.device.tick(sense))
    }

    // Exactly n ticks, ready or not.
    pub fn advance(self, n: u32, sense: Sense) -> Ticked
        requires { Valid self }
        ensures { Returns result (advanced_of n sense self) result.controller }
    {
        self.ticked(self.device.advance(n, sense))
    }

    // Up to n ticks, until ready.
    pub fn run(self, n: u32, sense: Sense) -> Ran
        requires { Valid self }
        ensures { Returns result (run_of n sense self) result.ticked.controller }
    {
        let ran = self.device.run(n, sense);
        Ran {
            ticked: self.ticked(ran.turned),
            used: ran.used,
        }
    }

    // The framing it was made with.
    pub fn framing(self) -> Framing
        ensures { result ≡ framing_is self }
    {
        self.line.framing()
    }

    pub fn ready(self) -> bool
        ensures { result ≡ ready_is self }
    {
        self.device.core.ready()
    }

    // T, from the host.
    pub fn stop(self) -> Controller
        ensures { Keeps result (stopped_of self).next self result }
    {
        self.on(self.device.stop())
    }
}
