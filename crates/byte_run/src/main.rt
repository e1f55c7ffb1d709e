// Standard input's first 250 bytes, 4000 times over: of the controller nothing but `byte` is called. For counting instructions and stack.
#![tactic(auto)]

ghost use Rattle.pipettor.specs.Valid.{Valid};

use line::dt::Dt;
use line::oem::Oem;
use line::{Framing, Line};
use pipettor::Controller;
use pipettor::address::Address;
use std::io::{self, Read};

// The buffer is lent by `main`, which prints it: what nobody reads the compiler leaves out.
fn hear(start: Controller, bytes: &[u8], buf: &mut [u8]) -> Controller
    requires { Valid start }
    ensures { Valid result }
{
    let mut c = start;
    for _ in 0..4000 {
        for b in bytes {
            c = c.byte(*b, buf).controller;
        }
    }
    c
}

// How many data bytes are in hand.
fn in_hand(line: Line) -> u32 {
    match line {
        Line::Dt(Dt::Collecting(_, n)) | Line::Oem(Oem::Collecting(_, n) | Oem::Ended(_, n)) => n,
        _ => 0,
    }
}

// DT where the input begins with `/`, so that no compiler knows which it is.
fn framing_by(first: u8) -> Framing {
    match first {
        b'/' => Framing::Dt,
        _ => Framing::Oem,
    }
}

fn main(rt: HostRuntime) -> io::Result<()> {
    let mut bytes = [0u8; 250];
    rt.stdin().read(&mut bytes)?;
    let mut buf = [b'-'; 32];
    let framing = framing_by(bytes[0]);
    let c = hear(Controller::fresh(framing, Address::One), &bytes, &mut buf);
    let out = rt.stdout();
    println!(out; "{}", in_hand(c.line))?;
    out.write_all(&buf)?;
    println!(out)
}
