// Reads texts from standard input, a line to a text, and says of each what stands at its front: a command, in words, with the place behind it, or a refusal with its number and its place.
#![tactic(auto)]

use command::refusal::Misread;
use command::{Command, Found, Way};
use settings::{Aspect, Pace, Volume};
use std::io::{self, Read, Stdout};

fn way(to: Way) -> &'static str {
    match to {
        Way::To => "to",
        Way::Up => "up by",
        Way::Down => "down by",
    }
}

fn pace(of: Pace) -> &'static str {
    match of {
        Pace::Top => "top",
        Pace::Start => "start",
        Pace::Cutoff => "cutoff",
    }
}

fn aspect(of: Aspect) -> &'static str {
    match of {
        Aspect::Threshold => "p0",
        Aspect::Duration => "p1",
        Aspect::Place => "p2",
        Aspect::Speed => "p3",
        Aspect::Most => "p4",
        Aspect::Mode => "p5",
        Aspect::Interval => "p6",
    }
}

fn command(out: Stdout, c: Command) -> io::Result<()> {
    match c {
        Command::Initialise(speed) => print!(out; "initialise at {speed} increments a second"),
        Command::Move(to, Volume::Increments(n)) => print!(out; "move {} {n} increments", way(to)),
        Command::Move(to, Volume::Nanolitres(n)) => print!(out; "move {} {n} nL", way(to)),
        Command::Speed(of, tenths) => print!(out; "{} speed {tenths} tenths", pace(of)),
        Command::Slopes(up, down) => print!(out; "slopes {up} and {down}"),
        Command::Backlash(n) => print!(out; "backlash {n}"),
        Command::Compensate(by, true) => print!(out; "compensate {by} down"),
        Command::Compensate(by, false) => print!(out; "compensate {by} up"),
        Command::Delay(ms) => print!(out; "delay {ms} ms"),
        Command::Set(of, n) => print!(out; "{} to {n}", aspect(of)),
        Command::Detect(true) => print!(out; "search from here"),
        Command::Detect(false) => print!(out; "search from p2"),
        Command::Eject(true) => print!(out; "eject, with a tip or without"),
        Command::Eject(false) => print!(out; "eject the tip"),
        Command::Open => print!(out; "open a loop"),
        Command::Close(passes) => print!(out; "close a loop of {passes} passes"),
    }
}

fn at(r: Misread) -> usize {
    match r {
        Misread::Letter(place) | Misread::Operand { place, .. } => place,
    }
}

fn found(out: Stdout, f: Found) -> io::Result<()> {
    match f {
        Ok(Some((c, next))) => {
            command(out, c)?;
            print!(out; ", next {next}")
        }
        Ok(None) => print!(out; "nothing"),
        Err(r) => print!(out; "refused {} at {}", r.number(), at(r)),
    }
}

fn line(out: Stdout, t: &[u8]) -> io::Result<()> {
    out.write_all(t)?;
    print!(out; "  ")?;
    found(out, command::command_at(t, 0))?;
    println!(out)
}

// A `split` at each LF would give a line more, behind the last of them.
fn lines(out: Stdout, t: &[u8]) -> io::Result<()> {
    let mut from = 0;
    while from < t.len() {
        let end = desk::line_end(t, from);
        line(out, &t[from..end])?;
        from = end + 1;
    }
    Ok(())
}

fn main(rt: HostRuntime) -> io::Result<()> {
    let mut texts = [0u8; 32768];
    let mut room = &mut texts[..];
    io::copy(&mut rt.stdin().take(32768), &mut room)?;
    let left = room.len();
    let n = texts.len().saturating_sub(left);
    lines(rt.stdout(), &texts[..n])
}
