// Movement ticks by the million, for counting instructions: `t` on standard input is a million through `tick`, `r` a million through `run`.
#![tactic(auto)]

ghost use Rattle.pipettor.specs.Valid.{Valid};

use line::Framing;
use motion::Sense;
use pipettor::Controller;
use pipettor::address::Address;
use std::io::{self, Read, Stdout};

fn end_frame(c: Controller) -> Controller
    requires { Valid c }
    ensures { Valid result }
{
    let mut buf = [0u8; 32];
    c.byte(13, &mut buf).controller
}

// A method that moves from end to end at the slowest speed, and never ends.
fn method() -> Controller
    ensures { Valid result }
{
    let fresh = Controller::fresh(Framing::Dt, Address::One);
    end_frame(fresh.listen(b"/1Wv100V100gA44000A0G0R").controller)
}

// Two loops of a line each: a function that takes the call as a closure would have to ask `Valid` of it, and be longer than both.
fn ticks(start: Controller) -> Controller
    requires { Valid start }
    ensures { Valid result }
{
    let mut c = start;
    for _ in 0..1_000_000 {
        c = c.tick(Sense::nothing()).controller;
    }
    c
}

fn runs(start: Controller) -> Controller
    requires { Valid start }
    ensures { Valid result }
{
    let mut c = start;
    for _ in 0..20 {
        c = c.run(50_000, Sense::nothing()).ticked.controller;
    }
    c
}

fn show(out: Stdout, c: Controller) -> io::Result<()> {
    let body = c.device.core.body;
    println!(out; "{} {}", body.plunger, body.exact)
}

fn measure(out: Stdout, letter: u8) -> io::Result<()> {
    match letter {
        b't' => show(out, ticks(method())),
        b'r' => show(out, runs(method())),
        _ => Ok(()),
    }
}

fn main(rt: HostRuntime) -> io::Result<()> {
    for letter in rt.stdin().bytes().take(2) {
        measure(rt.stdout(), letter?)?;
    }
    Ok(())
}
