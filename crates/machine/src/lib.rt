// The step machine: what a tick, a string and a control do to the plunger and the buffer.
#![tactic(auto)]

pub mod act;
pub mod skip;
pub mod step;

ghost use Rattle.std.specs.Prelude.{◌≡◌};
ghost use Rattle.machine.specs.Valid.{Valid};
ghost use Rattle.machine.specs.Device.{turned, tip_after, fresh_of, tick_of, halted_of, advance_of, ran_of};

use buffer::course::{Course, Loops, State};
use motion::{Body, Sense};
use step::{Core, News, Stepped};

// The text's array stands beside the state, since a host lends it; and whether the last tick saw a tip. `Valid` is a clause, as for a core: `stop` and `ready` promise something for any device.
#[derive(Clone, Copy)]
pub struct Device {
    pub text: [u8; 256],
    pub tip: bool,
    pub core: Core,
}

// A run asked for more than 60000 ticks.
#[derive(Clone, Copy)]
pub struct S3;

// A device after ticks, and what they tell.
#[derive(Clone, Copy)]
pub struct Turned {
    pub device: Device,
    pub news: News,
}

#[derive(Clone, Copy)]
pub struct Ran {
    pub turned: Turned,
    pub used: Result<u32, S3>,
}

// The tip of the last tick, after n more.
pub fn tip_after(n: u32, sense: Sense, before: bool) -> bool
    ensures { result ≡ tip_after n sense before }
{
    if n == 0 { before } else { sense.tip }
}

impl Device {
    #[tactic(auto, unfolding(crate::specs::Device::fresh_of))]
    pub fn fresh() -> Device
        ensures { result ≡ fresh_of.next }
    {
        Device {
            text: [0; 256],
            tip: false,
            core: Core {
                body: Body::fresh(),
                course: Course {
                    at: 0,
                    len: 0,
                    loops: Loops::none(),
                    state: State::Empty,
                    error: 0,
                    misread: 0,
                },
            },
        }
    }

    // A tick of 10 ms.
    #[tactic(auto, using(crate::proofs::Devices::is_ticked))]
    pub fn tick(self, sense: Sense) -> Turned
        requires { Valid self.core }
        ensures { result ≡ (tick_of sense self).next }
    {
        self.advance(1, sense)
    }

    // After so many ticks, which left this.
    fn turned(self, ticks: u32, sense: Sense, stepped: Stepped) -> Turned
        ensures { result ≡ turned ticks sense self stepped }
    {
        Turned {
            device: Device {
                tip: tip_after(ticks, sense, self.tip),
                core: stepped.core,
                ..self
            },
            news: stepped.news,
        }
    }

    // Exactly n ticks, ready or not, the host sensing the same in each.
    #[tactic(auto, using(crate::proofs::Devices::is_advanced))]
    pub fn advance(self, n: u32, sense: Sense) -> Turned
        requires { Valid self.core }
        ensures { result ≡ advance_of n sense self }
    {
        self.turned(n, sense, step::run(self.core, &self.text, n, sense).stepped)
    }

    // Up to n ticks, until ready.
    #[tactic(auto, using(crate::proofs::Devices::is_refused, crate::proofs::Devices::is_run))]
    pub fn run(self, n: u32, sense: Sense) -> Ran
        requires { Valid self.core }
        ensures { result ≡ ran_of n sense self }
    {
        if 60_000 < n {
            return Ran {
                turned: Turned {
                    device: self,
                    news: News::none(),
                },
                used: Err(S3),
            };
        }
        let ran = step::run(self.core, &self.text, n, sense);
        Ran {
            turned: self.turned(ran.used, sense, ran.stepped),
            used: Ok(ran.used),
        }
    }

    // T.
    #[tactic(auto, unfolding(crate::specs::Device::halted_of))]
    pub fn stop(self) -> Device
        ensures { result ≡ (halted_of self).next }
    {
        Device {
            core: self.core.stop(),
            ..self
        }
    }
}
