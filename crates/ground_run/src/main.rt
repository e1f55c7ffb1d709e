// Runs the rows of settings' table through the code: the limits of 01's command table with their neighbours, the defaults, and 01's examples of numbers, a line to a row.
#![tactic(auto)]

use decimal::Decimals;
use settings::{Pace, Quantity, Range, Settings, Volume, units};
use std::io::{self, Stdout};

// A number after what it is.
fn say(out: Stdout, what: &str, n: u64) -> io::Result<()> {
    println!(out; "{what} {n}")
}

// Whether a range has a number.
fn limit(out: Stdout, what: &str, range: Range, n: u32) -> io::Result<()> {
    let verdict = if range.has(n) { "taken" } else { "refused" };
    println!(out; "{what} {n} {verdict}")
}

// The same of every number from first to last.
fn limits(out: Stdout, what: &str, range: Range, first: u32, last: u32) -> io::Result<()> {
    for n in first..=last {
        limit(out, what, range, n)?;
    }
    Ok(())
}

fn quantity(out: Stdout, what: &str, of: Quantity, first: u32, last: u32) -> io::Result<()> {
    limits(out, what, Settings::range(of), first, last)
}

fn speed(out: Stdout, what: &str, of: Pace, first: u32, last: u32) -> io::Result<()> {
    limits(out, what, Settings::speeds(of), first, last)
}

fn flow(out: Stdout, what: &str, of: Pace, first: u32, last: u32) -> io::Result<()> {
    limits(out, what, Settings::flows(of), first, last)
}

fn usual(out: Stdout, what: &str, of: Quantity) -> io::Result<()> {
    say(out, what, u64::from(Settings::usual(of)))
}

fn usual_speed(out: Stdout, what: &str, of: Pace) -> io::Result<()> {
    say(out, what, u64::from(Settings::usual_speed(of)))
}

// W; A, P and D.
fn moves(out: Stdout) -> io::Result<()> {
    quantity(out, "W", Quantity::Home, 99, 101)?;
    quantity(out, "W", Quantity::Home, 19999, 20001)?;
    quantity(out, "A", Quantity::Increments, 0, 1)?;
    quantity(out, "A", Quantity::Increments, 43999, 44001)?;
    quantity(out, "A nL", Quantity::Nanolitres, 0, 1)?;
    quantity(out, "A nL", Quantity::Nanolitres, 1099999, 1100001)
}

// L, K and b.
fn slopes(out: Stdout) -> io::Result<()> {
    quantity(out, "L", Quantity::Slope, 0, 2)?;
    quantity(out, "L", Quantity::Slope, 79, 81)?;
    quantity(out, "K", Quantity::Backlash, 0, 1)?;
    quantity(out, "K", Quantity::Backlash, 499, 501)?;
    quantity(out, "b", Quantity::Compensation, 0, 1)?;
    quantity(out, "b", Quantity::Compensation, 349, 351)
}

// Second numbers, M and G.
fn counts(out: Stdout) -> io::Result<()> {
    quantity(out, "unit", Quantity::Choice, 0, 2)?;
    quantity(out, "M", Quantity::Delay, 0, 2)?;
    quantity(out, "M", Quantity::Delay, 29999, 30001)?;
    quantity(out, "G", Quantity::Passes, 0, 1)?;
    quantity(out, "G", Quantity::Passes, 49999, 50001)
}

// V, v and c in tenths of an increment a second.
fn speeds(out: Stdout) -> io::Result<()> {
    speed(out, "V", Pace::Top, 999, 1001)?;
    speed(out, "V", Pace::Top, 799999, 800001)?;
    speed(out, "v", Pace::Start, 999, 1001)?;
    speed(out, "v", Pace::Start, 119999, 120001)?;
    speed(out, "c", Pace::Cutoff, 999, 1001)?;
    speed(out, "c", Pace::Cutoff, 799999, 800001)
}

// V, v and c in nL a second.
fn flows(out: Stdout) -> io::Result<()> {
    flow(out, "V nL", Pace::Top, 2499, 2501)?;
    flow(out, "V nL", Pace::Top, 1999999, 2000001)?;
    flow(out, "v nL", Pace::Start, 2499, 2501)?;
    flow(out, "v nL", Pace::Start, 299999, 300001)?;
    flow(out, "c nL", Pace::Cutoff, 2499, 2501)?;
    flow(out, "c nL", Pace::Cutoff, 1999999, 2000001)
}

// Absent numbers.
fn defaults(out: Stdout) -> io::Result<()> {
    usual(out, "W usual", Quantity::Home)?;
    usual(out, "A usual", Quantity::Increments)?;
    usual(out, "A nL usual", Quantity::Nanolitres)?;
    usual(out, "L usual", Quantity::Slope)?;
    usual(out, "K usual", Quantity::Backlash)?;
    usual(out, "b usual", Quantity::Compensation)?;
    usual(out, "unit usual", Quantity::Choice)?;
    usual(out, "M usual", Quantity::Delay)?;
    usual(out, "G usual", Quantity::Passes)?;
    usual_speed(out, "V usual", Pace::Top)?;
    usual_speed(out, "v usual", Pace::Start)?;
    usual_speed(out, "c usual", Pace::Cutoff)
}

// M, in ticks.
fn delays(out: Stdout) -> io::Result<()> {
    say(out, "M9 ticks", u64::from(units::ticks(9)))?;
    say(out, "M14 ticks", u64::from(units::ticks(14)))?;
    say(out, "M15 ticks", u64::from(units::ticks(15)))?;
    say(out, "M30000 ticks", u64::from(units::ticks(30000)))
}

// nL a second and tenths.
fn conversions(out: Stdout) -> io::Result<()> {
    say(out, "V2.5,1 tenths", u64::from(units::tenths(2_500)))?;
    say(out, "V2.503,1 tenths", u64::from(units::tenths(2_503)))?;
    say(out, "?19 nL/s", units::flow(1_001))?;
    say(out, "V2000,1 tenths", u64::from(units::tenths(2_000_000)))
}

// How far after so many ticks.
fn movement(out: Stdout) -> io::Result<()> {
    say(
        out,
        "V155.5 gone after 1",
        u64::from(units::gone(1, 1_555, 1_000)),
    )?;
    say(
        out,
        "V155.5 gone after 2",
        u64::from(units::gone(2, 1_555, 1_000)),
    )?;
    say(
        out,
        "V155.5 gone after 3",
        u64::from(units::gone(3, 1_555, 1_000)),
    )?;
    say(
        out,
        "V155.5 gone after 3 of 3",
        u64::from(units::gone(3, 1_555, 3)),
    )
}

// C, and volumes at it.
fn volumes(out: Stdout) -> io::Result<()> {
    say(out, "b350 C", u64::from(units::rate(350, false)))?;
    say(out, "b350,1 C", u64::from(units::rate(350, true)))?;
    say(
        out,
        "A1090.458,1 exact",
        Volume::Nanolitres(1_090_458).millionths(40_350),
    )?;
    say(out, "its goal", units::goal(43_999_980_300))?;
    say(
        out,
        "A1090.459,1 exact",
        Volume::Nanolitres(1_090_459).millionths(40_350),
    )
}

// Where an exact position puts the plunger.
fn fractions(out: Stdout) -> io::Result<()> {
    say(
        out,
        "P0.01,1 exact",
        Volume::Nanolitres(10).millionths(40_000),
    )?;
    say(out, "its goal", units::goal(400_000))?;
    say(out, "five of them, the goal", units::goal(2_000_000))?;
    say(out, "goal of 499999", units::goal(499_999))?;
    say(out, "goal of 500000", units::goal(500_000))?;
    say(
        out,
        "A1000 exact",
        Volume::Increments(1_000).millionths(40_350),
    )
}

// The plunger in nL.
fn reports(out: Stdout) -> io::Result<()> {
    say(out, "?3 at b0", units::nanolitres(44_000, 40_000))?;
    say(out, "?3 at b350", units::nanolitres(44_000, 40_350))?;
    say(out, "?3 at b350,1", units::nanolitres(44_000, 39_650))
}

// A number written at the start of a buffer, or that there was no room.
fn written(out: Stdout, what: &str, n: u64, decimals: Decimals, buf: &mut [u8]) -> io::Result<()> {
    print!(out; "{what} ")?;
    match decimal::put(n, decimals, buf, 0).and_then(|size| buf.get(..size)) {
        Some(digits) => out.write_all(digits)?,
        None => print!(out; "no room")?,
    }
    println!(out)
}

fn whole(out: Stdout, n: u64) -> io::Result<()> {
    written(out, "whole", n, Decimals::Zero, &mut [0; 16])
}

fn tenths(out: Stdout, n: u64) -> io::Result<()> {
    written(out, "tenths", n, Decimals::One, &mut [0; 16])
}

fn thousandths(out: Stdout, n: u64) -> io::Result<()> {
    written(out, "thousandths", n, Decimals::Three, &mut [0; 16])
}

// Five bytes of room: a number that just fits, and one that doesn't.
fn in_five(out: Stdout, n: u64) -> io::Result<()> {
    written(out, "in five bytes", n, Decimals::Three, &mut [0; 5])
}

// Numbers as reports write them.
fn numbers(out: Stdout) -> io::Result<()> {
    whole(out, 0)?;
    whole(out, 44_000)?;
    whole(out, 4_294_967_295)?;
    tenths(out, 80_000)?;
    tenths(out, 1_001)?;
    tenths(out, 7)
}

fn decimals(out: Stdout) -> io::Result<()> {
    thousandths(out, 2_503)?;
    thousandths(out, 7)?;
    thousandths(out, 1_100_000)?;
    in_five(out, 2_503)?;
    in_five(out, 12_503)
}

fn main(rt: HostRuntime) -> io::Result<()> {
    let out = rt.stdout();
    moves(out)?;
    slopes(out)?;
    counts(out)?;
    speeds(out)?;
    flows(out)?;
    defaults(out)?;
    delays(out)?;
    conversions(out)?;
    movement(out)?;
    volumes(out)?;
    fractions(out)?;
    reports(out)?;
    numbers(out)?;
    decimals(out)
}
