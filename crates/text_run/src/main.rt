// Reads data from standard input, a line to each, and says what they are once their spaces are dropped: a report, a control, a text and its loops, or why they are refused.
#![tactic(auto)]

ghost use Rattle.std.specs.Prelude.{◌≡◌};
ghost use Rattle.text.specs.Data.{received_of};

use command::refusal::Misread;
use std::io::{self, Read, Stdout};
use text::{Control, Data, Question, loops};

fn report(out: Stdout, q: Question) -> io::Result<()> {
    match q {
        Question::Query(n) => print!(out; "report Q{n}"),
        Question::Value(n) => print!(out; "report ?{n}"),
        Question::Address => print!(out; "report f"),
    }
}

fn control(out: Stdout, c: Control) -> io::Result<()> {
    match c {
        Control::Run => print!(out; "control R"),
        Control::Stop => print!(out; "control T"),
        Control::Again => print!(out; "control X"),
        Control::Clear => print!(out; "control C"),
        Control::Reset => print!(out; "control !R"),
    }
}

fn refused(out: Stdout, r: Misread) -> io::Result<()> {
    match r {
        Misread::Letter(place) | Misread::Operand { place, .. } => {
            print!(out; "refused {} at {place}", r.number())
        }
    }
}

// Whether the loops are right of a text that stands in front.
fn loops_of(out: Stdout, t: &[u8], size: usize) -> io::Result<()> {
    match t.get(..size) {
        Some(text) if loops::loops_ok(text, b"") => print!(out; ", loops right"),
        Some(_) => print!(out; ", loops wrong"),
        None => Ok(()),
    }
}

// Data as received; their spaces are dropped where they stand.
fn received(t: &mut [u8]) -> Data
    ensures { result ≡ received_of t.old }
{
    if 320 < t.len() {
        return Data::TooLong;
    }
    let n = text::squeeze(t);
    text::read(&t[..n])
}

fn tell(out: Stdout, t: &[u8], data: Data) -> io::Result<()> {
    match data {
        Data::Report(q) => report(out, q),
        Data::WrongReport => print!(out; "wrong report"),
        Data::Control(c) => control(out, c),
        Data::Text { size, run } => {
            let purpose = if run { "run" } else { "store" };
            print!(out; "text of {size} to {purpose}")?;
            loops_of(out, t, size)
        }
        Data::Wrong(r) => refused(out, r),
        Data::TooLong => print!(out; "too long"),
    }
}

fn line(out: Stdout, t: &mut [u8]) -> io::Result<()> {
    out.write_all(t)?;
    print!(out; ": ")?;
    let data = received(t);
    tell(out, t, data)?;
    println!(out)
}

// A `split` at each LF would give a line more, behind the last of them.
fn lines(out: Stdout, t: &mut [u8]) -> io::Result<()> {
    let mut from = 0;
    while from < t.len() {
        let end = desk::line_end(t, from);
        line(out, &mut t[from..end])?;
        from = end + 1;
    }
    Ok(())
}

fn main(rt: HostRuntime) -> io::Result<()> {
    let mut data = [0u8; 32768];
    let mut room = &mut data[..];
    io::copy(&mut rt.stdin().take(32768), &mut room)?;
    let left = room.len();
    let n = data.len().saturating_sub(left);
    lines(rt.stdout(), &mut data[..n])
}
