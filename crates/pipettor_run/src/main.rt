// The controller called as a host calls it: every address, bytes by themselves with marked and with short buffers, ticks between them, noise, stop in every state, runs that are too long and runs that are counted. Prints what came back.
#![tactic(auto)]

ghost use Rattle.std.specs.Prelude.{◌≤◌};

use line::Framing;
use machine::S3;
use motion::Sense;
use pipettor::address::{Address, S2};
use pipettor::{Controller, Said};
use std::io::{self, Stdout};
use std::marker::Model;

// A controller that came from making and earlier calls.
#[derive(Clone, Copy)]
struct Pipettor {
    controller: Controller,
}

impl Model for Pipettor {
    ghost use Rattle.pipettor.specs.declared.Controller.{Controller};
    ghost use Rattle.pipettor.specs.Valid.{Valid};

    ghost Value = { Controller };

    ghost view = { λ p. p.controller };

    ghost inverse = { λ c. record { controller = c } };

    ghost invariant = { λ p. Valid p.controller };
}

// A byte as it is written here: what is no character by its name. LF, which a controller drops, is a new line.
fn name(out: Stdout, b: u8) -> io::Result<()> {
    match b {
        0 => print!(out; "<00h>"),
        10 => println!(out),
        13 => print!(out; "<CR>"),
        127 => print!(out; "<7Fh>"),
        128 => print!(out; "<80h>"),
        _ => out.write_all(&[b]),
    }
}

fn word(out: Stdout, said: Said) -> io::Result<()> {
    match said {
        Ok(None) => print!(out; "  silent    "),
        Ok(Some(n)) => print!(out; "  answer {n}  "),
        Err(S1) => print!(out; "  S1        "),
    }
}

// A byte, what was said to it, and every byte of the buffer as it is: an answer ends with 03h, CR and LF.
fn told(out: Stdout, b: u8, said: Said, buf: &[u8]) -> io::Result<()> {
    print!(out; "  ")?;
    name(out, b)?;
    word(out, said)?;
    out.write_all(buf)?;
    println!(out)
}

// An answer's status byte and data.
fn heart(out: Stdout, buf: &[u8], n: usize) -> io::Result<()> {
    if 6 <= n && n <= buf.len() {
        out.write_all(&buf[2..n - 3])?;
    }
    Ok(())
}

// A byte in a line of them, and what was said to it: silence is worth a word at a CR.
fn noted(out: Stdout, b: u8, said: Said, buf: &[u8]) -> io::Result<()> {
    match said {
        Ok(None) if b == 13 => print!(out; " (silent)"),
        Ok(None) => {
            if b == b'/' {
                print!(out; "  ")?;
            }
            name(out, b)
        }
        Ok(Some(n)) => {
            print!(out; " ")?;
            heart(out, buf, n)
        }
        Err(S1) => print!(out; " S1"),
    }
}

// Where the plunger stands, and the exact position.
fn place(out: Stdout, c: &Pipettor) -> io::Result<()> {
    let body = c.controller.device.core.body;
    println!(out; ": plunger {}, exact {}", body.plunger, body.exact)
}

// A byte, with the buffer lent.
fn lend(out: Stdout, c: &mut Pipettor, b: u8, buf: &mut [u8]) -> io::Result<()> {
    let reply = c.controller.byte(b, buf);
    c.controller = reply.controller;
    told(out, b, reply.said, buf)
}

// A byte, with a buffer of n dots.
fn give(out: Stdout, c: &mut Pipettor, b: u8, n: usize) -> io::Result<()>
    requires { n ≤ 40 }
{
    let mut dots = [b'.'; 40];
    lend(out, c, b, &mut dots[..n])
}

// A byte in a line of them.
fn note(out: Stdout, c: &mut Pipettor, b: u8) -> io::Result<()> {
    let mut buf = [b'.'; 32];
    let reply = c.controller.byte(b, &mut buf);
    c.controller = reply.controller;
    noted(out, b, reply.said, &buf)
}

fn tick(out: Stdout, c: &mut Pipettor) -> io::Result<()> {
    c.controller = c.controller.tick(Sense::nothing()).controller;
    print!(out; "  tick")?;
    place(out, c)
}

// How bytes are given: in a line; each with a buffer of 32 dots, or of 40; or of 32, with a tick after each. A name for each, since all are asked for more than once.
#[derive(Clone, Copy)]
enum Way {
    Line,
    Marked,
    Longer,
    Ticking,
}

fn one(out: Stdout, c: &mut Pipettor, b: u8, way: Way) -> io::Result<()> {
    match way {
        Way::Line => note(out, c, b),
        Way::Marked => give(out, c, b, 32),
        Way::Longer => give(out, c, b, 40),
        Way::Ticking => {
            give(out, c, b, 32)?;
            tick(out, c)
        }
    }
}

fn each(out: Stdout, c: &mut Pipettor, bytes: &[u8], way: Way) -> io::Result<()> {
    for b in bytes {
        one(out, c, *b, way)?;
    }
    Ok(())
}

// Frames in a line, each with its answer's status byte and data.
fn talk(out: Stdout, c: &mut Pipettor, bytes: &[u8]) -> io::Result<()> {
    each(out, c, bytes, Way::Line)
}

fn made(a: Address) -> Pipettor {
    Pipettor {
        controller: Controller::fresh(Framing::Dt, a),
    }
}

// A frame but for its CR, by `listen`.
fn begin(c: Pipettor, text: &[u8]) -> Pipettor {
    Pipettor {
        controller: c.controller.listen(b"/").controller.listen(text).controller,
    }
}

// What a controller made with an address answers to f, at each digit.
fn address(out: Stdout, n: u32) -> io::Result<()> {
    print!(out; "{n}:")?;
    match Address::try_from(n) {
        Ok(a) => talk(
            out,
            &mut made(a),
            b"/0f\r/1f\r/2f\r/3f\r/4f\r/5f\r/6f\r/7f\r/8f\r/9f\r\n",
        ),
        Err(S2) => println!(out; " S2"),
    }
}

fn addresses(out: Stdout) -> io::Result<()> {
    println!(out; "Addresses")?;
    for n in 0..11 {
        address(out, n)?;
    }
    Ok(())
}

// Frames by `byte` alone: 14, 2, 3, a string, a control, 15, a report; a buffer of 40 keeps its end.
fn marked_buffers(out: Stdout) -> io::Result<()> {
    println!(out; "Every byte with 32 dots")?;
    let mut c = made(Address::One);
    each(out, &mut c, b"/1X\r/1Z\r/1A44001\r/1A100\r", Way::Marked)?;
    each(out, &mut c, b"/1R\r/1C\r/1?67\r", Way::Marked)?;
    println!(out; "Every byte with 40 dots")?;
    each(out, &mut c, b"/1?16\r/1T\r/1Z\r", Way::Longer)
}

// A byte that comes with 31 dots, between others that come with 32.
fn short(out: Stdout, before: &[u8], b: u8, behind: &[u8]) -> io::Result<()> {
    println!(out; "One with 31 dots")?;
    let mut c = made(Address::One);
    each(out, &mut c, before, Way::Marked)?;
    give(out, &mut c, b, 31)?;
    each(out, &mut c, behind, Way::Marked)
}

// S1: it is not received, whether it would be kept, start a frame, be the address, drop the frame or start another.
fn short_buffers(out: Stdout) -> io::Result<()> {
    short(out, b"/1?1", b'6', b"\r")?;
    short(out, b"/1?1", b'6', b"6\r")?;
    short(out, b"", b'/', b"1Q\r/1Q\r")?;
    short(out, b"/", b'1', b"1Q\r")?;
    short(out, b"/1?1", 0, b"6\r")?;
    short(out, b"/1?1", b'/', b"6\r")
}

fn noise(out: Stdout) -> io::Result<()> {
    println!(out; "Noise")?;
    let mut c = made(Address::One);
    talk(
        out,
        &mut c,
        b"/1?\x001\r/1?1\r\n/1?\x7f1\r/1?1\r\n/1?\x801\r/1?1\r\n/\x801Q\r1Q\r/1Q\r\n",
    )?;
    talk(
        out,
        &mut c,
        b"/1Q\r\x80Q\r/1Q\r\n/1?1/1f\r//1Q\r/1/1Q\r\n/\r1Q\r\r/1Q\r\n/1?\n1\r/1f\r\n",
    )
}

fn wait(out: Stdout, c: &mut Pipettor, n: u32) -> io::Result<()> {
    c.controller = c.controller.advance(n, Sense::nothing()).controller;
    print!(out; "  ticks {n}")?;
    place(out, c)
}

fn used(out: Stdout, n: u32, u: Result<u32, S3>) -> io::Result<()> {
    match u {
        Ok(k) => println!(out; "  run of {n}: {k}"),
        Err(S3) => println!(out; "  run of {n}: S3"),
    }
}

fn run(out: Stdout, c: &mut Pipettor, n: u32) -> io::Result<()> {
    let ran = c.controller.run(n, Sense::nothing());
    c.controller = ran.ticked.controller;
    used(out, n, ran.used)
}

// As long as it runs, and where it then is.
fn finish(out: Stdout, c: &mut Pipettor) -> io::Result<()> {
    run(out, c, 60_000)?;
    talk(out, c, b"/1?1\r/1Q\r\n")
}

fn stop(out: Stdout, c: &mut Pipettor) -> io::Result<()> {
    c.controller = c.controller.stop();
    print!(out; "  stop")?;
    place(out, c)
}

// A string, and ticks.
fn method(out: Stdout, c: &mut Pipettor, frame: &[u8], ticks: u32) -> io::Result<()> {
    talk(out, c, frame)?;
    wait(out, c, ticks)
}

// Frames with a tick after each of their bytes, while the plunger moves.
fn ticking(
    out: Stdout,
    c: &mut Pipettor,
    string: &[u8],
    ticks: u32,
    frames: &[u8],
) -> io::Result<()> {
    method(out, c, string, ticks)?;
    each(out, c, frames, Way::Ticking)?;
    finish(out, c)
}

fn ticks_inside(out: Stdout) -> io::Result<()> {
    println!(out; "A tick after every byte")?;
    let mut c = made(Address::One);
    ticking(out, &mut c, b"/1WV1000A1000R\r\n", 3, b"/1?1\r/1A5R\r")?;
    ticking(out, &mut c, b"/1A1060R\r\n", 1, b"/1P95R\r/1T\r")
}

// A report whose CR comes with buffers that are too short, and at last with one that is not.
fn short_ends(out: Stdout, c: &mut Pipettor) -> io::Result<()> {
    println!(out; "  /1Q with buffers of 1, 31 and 32")?;
    *c = begin(*c, b"1Q");
    give(out, c, 13, 1)?;
    give(out, c, 13, 31)?;
    give(out, c, 13, 32)
}

// What a controller answers in the state it is in, and that runs which are refused leave it there.
fn ask(out: Stdout, mut c: Pipettor) -> io::Result<()> {
    short_ends(out, &mut c)?;
    run(out, &mut c, 60_001)?;
    talk(out, &mut c, b"/1?29\r/1?67\r\n")?;
    finish(out, &mut c)
}

// What is left after a stop, and what R then does.
fn stopped(out: Stdout, c: &mut Pipettor) -> io::Result<()> {
    talk(out, c, b"/1?29\r/1?67\r/1?0\r/1?1\r/1Q\r/1R\r\n")?;
    finish(out, c)
}

// After a refused frame: stop leaves the last error, T clears it.
fn stops(out: Stdout, mut c: Pipettor) -> io::Result<()> {
    talk(out, &mut c, b"/1Z\r\n")?;
    let mut by_host = c;
    stop(out, &mut by_host)?;
    stopped(out, &mut by_host)?;
    talk(out, &mut c, b"/1T\r\n")?;
    stopped(out, &mut c)
}

// A frame and ticks; and then what the controller answers. Before the frame stands its name: outside a frame bytes are dropped.
fn state(out: Stdout, ready: Pipettor, frame: &[u8], ticks: u32) -> io::Result<()> {
    let mut c = ready;
    method(out, &mut c, frame, ticks)?;
    ask(out, c)?;
    stops(out, c)
}

fn ready_states(out: Stdout, c: Pipettor) -> io::Result<()> {
    state(out, c, b"Empty\n/1C\r\n", 1)?;
    state(out, c, b"Stored\n/1A200\r\n", 1)?;
    state(out, c, b"Stopped\n/1A0A200R\r/1T\r\n", 1)?;
    state(out, c, b"Done\n/1K5R\r\n", 1)
}

// Where a command is left, a stop makes Stopped; the loop counts are kept.
fn running_states(out: Stdout, c: Pipettor) -> io::Result<()> {
    state(out, c, b"Running, initialising\n/1WR\r\n", 2)?;
    state(out, c, b"Running, initialising, P left\n/1WP5R\r\n", 2)?;
    state(out, c, b"Running, moving\n/1A44000R\r\n", 5)?;
    state(out, c, b"Running, moving, P left\n/1A44000P20R\r\n", 5)?;
    state(out, c, b"Running, delaying\n/1M1000R\r\n", 3)?;
    state(
        out,
        c,
        b"Running, delaying, P left\n/1P0.01,1M1000P0.01,1R\r\n",
        4,
    )?;
    state(out, c, b"Running, delaying, G left\n/1gP5M50G3R\r\n", 15)?;
    state(out, c, b"Running, between commands\n/1A1000R\r\n", 0)
}

fn states(out: Stdout) -> io::Result<()> {
    println!(out; "Every state, with the plunger at 100")?;
    let mut c = made(Address::One);
    method(out, &mut c, b"/1WA100R\r\n", 4)?;
    ready_states(out, c)?;
    running_states(out, c)
}

// A P after a stop: 7 if it cut W.
fn aspirate(out: Stdout, c: &mut Pipettor) -> io::Result<()> {
    method(out, c, b"/1P5R\r\n", 1)?;
    talk(out, c, b"/1Q\r/1Q1\r/1?67\r\n")?;
    finish(out, c)
}

// W stopped after some ticks, by T and by the host.
fn cut_w(out: Stdout, ticks: u32) -> io::Result<()> {
    println!(out; "W stopped")?;
    let mut c = made(Address::One);
    method(out, &mut c, b"/1WA1000R\r\n", 20)?;
    method(out, &mut c, b"/1W100R\r\n", ticks)?;
    let mut by_host = c;
    talk(out, &mut c, b"/1T\r\n")?;
    aspirate(out, &mut c)?;
    stop(out, &mut by_host)?;
    aspirate(out, &mut by_host)
}

// A frame and ticks, and what is reported of the settings after them.
fn keeps(out: Stdout, c: &mut Pipettor, frame: &[u8], ticks: u32) -> io::Result<()> {
    method(out, c, frame, ticks)?;
    talk(
        out,
        c,
        b"/1?3\r/1?4\r/1?6\r/1?7\r/1?8\r/1?9\r/1?10\r/1?18\r/1?19\r/1?20\r\n",
    )
}

// A string without R, then R, X and C.
fn controls(out: Stdout, c: &mut Pipettor) -> io::Result<()> {
    keeps(out, c, b"/1P0.01,1\r\n", 1)?;
    keeps(out, c, b"/1R\r\n", 2)?;
    keeps(out, c, b"/1X\r\n", 2)?;
    keeps(out, c, b"/1C\r\n", 1)
}

// What a string without R, R, X and C leave of settings and a fraction; a move; and what !R leaves.
fn settings(out: Stdout) -> io::Result<()> {
    println!(out; "Settings")?;
    let mut c = made(Address::One);
    keeps(
        out,
        &mut c,
        b"/1WA1000V200v150c400L5,6K7b100P0.01,1R\r\n",
        30,
    )?;
    controls(out, &mut c)?;
    method(out, &mut c, b"/1D0.02,1R\r\n", 2)?;
    keeps(out, &mut c, b"/1!R\r\n", 1)
}

fn main(rt: HostRuntime) -> io::Result<()> {
    let out = rt.stdout();
    addresses(out)?;
    marked_buffers(out)?;
    short_buffers(out)?;
    noise(out)?;
    ticks_inside(out)?;
    states(out)?;
    cut_w(out, 0)?;
    cut_w(out, 1)?;
    cut_w(out, 4)?;
    settings(out)
}
