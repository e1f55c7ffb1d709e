// The controller over lent memory: the frame in hand and the text stay where they lie.
ghost use Rattle.std.specs.Prelude.{◌≡◌, ◌≤◌, length, take};
ghost use Rattle.machine.specs.Valid.{Valid};
ghost use Rattle.pipettor.specs.Byte.{after, reply, byte_of};
ghost use Rattle.pipettor.specs.Lent.{whole};
ghost use Rattle.pipettor.specs.Returns.{Returns, Performs};

use crate::acting::Task;
use crate::address::Address;
use crate::{S1, Said, acting};
use line::Line;
use machine::act::Done;
use machine::step::Core;

// A controller without its arrays. `Valid` is a clause here too, as for a controller.
#[derive(Clone, Copy)]
pub struct Parts {
    pub address: Address,
    pub line: Line,
    pub tip: bool,
    pub core: Core,
}

#[derive(Clone, Copy)]
pub struct Spoke {
    pub parts: Parts,
    pub said: Said,
}

// A task with the frame's first n bytes.
fn perform(task: Task, c: Core, frame: &[u8], n: usize, text: &mut [u8; 256]) -> Done
    requires valid { Valid c }
    requires n_in_bounds { n ≤ length frame.now }
    ensures { Performs task (take n frame.now) text.old c text.new result }
{
    task.perform(c, &frame[..n], text)
}

impl Parts {
    // One byte received, with a buffer that has room for any answer.
    fn hear(self, b: u8, frame: &mut [u8; 320], text: &mut [u8; 256], buf: &mut [u8]) -> Spoke
        requires valid { Valid self.core }
        requires room { 32 ≤ length buf.old }
        ensures { Returns (after (reply (whole result.parts frame.new text.new) result.said) buf.new) (byte_of (whole self frame.old text.old) b buf.old).next (whole result.parts frame.new text.new) }
    {
        let heard = self.line.hear(b);
        line::keep(frame, heard.deed, b);
        let got = acting::get(frame, heard.deed, self.address.letter());
        let task = acting::asked(got);
        let n = acting::size(got);
        let done = perform(task, self.core, frame, n, text);
        let outcome = acting::outcome(got, self.address, done.verdict, self.tip, self.core);
        let said = acting::say(outcome, self.line.framing(), done.core.ready(), buf);
        Spoke {
            parts: Parts {
                line: heard.line,
                core: done.core,
                ..self
            },
            said,
        }
    }

    // One byte received, with a buffer lent for the answer.
    pub fn byte(self, b: u8, frame: &mut [u8; 320], text: &mut [u8; 256], buf: &mut [u8]) -> Spoke
        requires { Valid self.core }
        ensures { Returns (after (reply (whole result.parts frame.new text.new) result.said) buf.new) (byte_of (whole self frame.old text.old) b buf.old).next (whole result.parts frame.new text.new) }
    {
        if buf.len() < 32 {
            return Spoke {
                parts: self,
                said: Err(S1),
            };
        }
        self.hear(b, frame, text, buf)
    }
}
