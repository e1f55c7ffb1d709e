// Bytes given to the receivers of both framings, and answers written into lent buffers: prints what came back.
#![tactic(auto)]

use line::dt::Dt;
use line::oem::{Head, Oem};
use line::{Deed, Framing, Line, Report};
use std::io::{self, Stdout};

// The line and the data of the frame in hand.
#[derive(Clone, Copy)]
struct Receiver {
    line: Line,
    frame: [u8; 320],
}

fn fresh(framing: Framing) -> Receiver {
    Receiver {
        line: Line::fresh(framing),
        frame: [0; 320],
    }
}

// A byte as it is, or its number if it is not printable.
fn show(out: Stdout, b: u8) -> io::Result<()> {
    if line::printable(b) {
        return out.write_all(&[b]);
    }
    print!(out; "<{b}>")
}

fn show_all(out: Stdout, bytes: &[u8]) -> io::Result<()> {
    for b in bytes {
        show(out, *b)?;
    }
    Ok(())
}

// The first n bytes, or all where there are fewer.
fn show_first(out: Stdout, n: usize, bytes: &[u8]) -> io::Result<()> {
    show_all(out, &bytes[..n.min(bytes.len())])
}

fn tell_frame(out: Stdout, address: u8, count: usize, frame: &[u8; 320]) -> io::Result<()> {
    print!(out; "    frame to ")?;
    show(out, address)?;
    print!(out; ", {count}: ")?;
    show_first(out, count, frame)?;
    println!(out)
}

fn tell(out: Stdout, deed: Deed, frame: &[u8; 320]) -> io::Result<()> {
    match deed {
        Deed::Nothing | Deed::Keep(_) => Ok(()),
        Deed::Frame(address, count) => tell_frame(out, address, count, frame),
    }
}

// One byte; a frame that it completes is printed.
fn give(out: Stdout, r: Receiver, b: u8) -> io::Result<Receiver> {
    let mut frame = r.frame;
    let heard = r.line.hear(b);
    line::keep(&mut frame, heard.deed, b);
    tell(out, heard.deed, &frame)?;
    Ok(Receiver {
        line: heard.line,
        frame,
    })
}

fn give_all(out: Stdout, start: Receiver, bytes: &[u8]) -> io::Result<Receiver> {
    let mut r = start;
    for b in bytes {
        r = give(out, r, *b)?;
    }
    Ok(r)
}

// A fresh receiver hears the bytes.
fn hear_in(out: Stdout, framing: Framing, bytes: &[u8]) -> io::Result<()> {
    show_all(out, bytes)?;
    println!(out)?;
    give_all(out, fresh(framing), bytes)?;
    Ok(())
}

fn hear(out: Stdout, bytes: &[u8]) -> io::Result<()> {
    hear_in(out, Framing::Dt, bytes)
}

fn hear_oem(out: Stdout, bytes: &[u8]) -> io::Result<()> {
    hear_in(out, Framing::Oem, bytes)
}

// A frame with n data bytes, the digits in turn.
fn hear_long(out: Stdout, n: usize) -> io::Result<()> {
    println!(out; "/1, {n} digits, CR")?;
    let mut r = give_all(out, fresh(Framing::Dt), b"/1")?;
    let mut digit = b'0';
    for _ in 0..n {
        r = give(out, r, digit)?;
        digit = after(digit);
    }
    give(out, r, 13)?;
    Ok(())
}

// The next digit, `0` after `9`.
fn after(digit: u8) -> u8 {
    if digit < b'9' { digit + 1 } else { b'0' }
}

// A letter for the line after a byte that asked for nothing: `.` outside, `s` started, `a` addressed, `c` collecting, `e` ended.
fn letter_dt(dt: Dt) -> u8 {
    match dt {
        Dt::Outside => b'.',
        Dt::Started => b's',
        Dt::Collecting(_, _) => b'c',
    }
}

fn letter_oem(oem: Oem) -> u8 {
    match oem {
        Oem::Outside => b'.',
        Oem::Started => b's',
        Oem::Addressed(_) => b'a',
        Oem::Collecting(_, _) => b'c',
        Oem::Ended(_, _) => b'e',
    }
}

fn letter_of(line: Line) -> u8 {
    match line {
        Line::Dt(dt) => letter_dt(dt),
        Line::Oem(oem) => letter_oem(oem),
    }
}

// What a byte does on a line: `k` kept, `F` a frame, or the letter of the next line.
fn mark(line: Line, b: u8) -> u8 {
    let heard = line.hear(b);
    match heard.deed {
        Deed::Nothing => letter_of(heard.line),
        Deed::Keep(_) => b'k',
        Deed::Frame(_, _) => b'F',
    }
}

// Thirty-two byte values on a line.
fn row(out: Stdout, line: Line, from: u8) -> io::Result<()> {
    for i in 0..32 {
        out.write_all(&[mark(line, from.wrapping_add(i))])?;
    }
    println!(out)
}

// All byte values on a line, a row for each thirty-two.
fn table(out: Stdout, line: Line) -> io::Result<()> {
    for k in 0..8 {
        row(out, line, k * 32)?;
    }
    Ok(())
}

fn tell_said(out: Stdout, said: Option<usize>) -> io::Result<()> {
    match said {
        Some(n) => print!(out; "answer of {n}"),
        None => print!(out; "S1"),
    }
}

// An answer into the first n bytes of a buffer.
fn answer_first(n: usize, buf: &mut [u8]) -> Option<usize> {
    line::answer(Framing::Dt, 96, Report::Whole(44000), buf.get_mut(..n)?)
}

fn show_buffer(out: Stdout, buf: &[u8; 33]) -> io::Result<()> {
    print!(out; ": ")?;
    show_all(out, buf)?;
    println!(out)
}

fn answer_into(out: Stdout, n: usize) -> io::Result<()> {
    let mut buf = [b'-'; 33];
    print!(out; "{n}: ")?;
    tell_said(out, answer_first(n, &mut buf))?;
    show_buffer(out, &buf)
}

// An answer into a buffer that is long enough.
fn answer_in(out: Stdout, framing: Framing, status: u8, report: Report) -> io::Result<()> {
    let mut buf = [b'-'; 33];
    tell_said(out, line::answer(framing, status, report, &mut buf))?;
    show_buffer(out, &buf)
}

fn answer(out: Stdout, status: u8, report: Report) -> io::Result<()> {
    answer_in(out, Framing::Dt, status, report)
}

fn answer_oem(out: Stdout, status: u8, report: Report) -> io::Result<()> {
    answer_in(out, Framing::Oem, status, report)
}

fn status(out: Stdout, ready: bool, code: u8) -> io::Result<()> {
    let s = line::status(ready, code);
    print!(out; "{code}: {s} ")?;
    show(out, s)?;
    println!(out)
}

fn frames(out: Stdout) -> io::Result<()> {
    println!(out; "Frames and damaged frames")?;
    hear(out, b"/1W100R\r")?;
    hear(out, b"/1\r")?;
    hear(out, b"/\r")?;
    hear(out, b"1Q\r")?;
    hear(out, b"/1A5/1f\r")?;
    hear(out, b"//1Q\r")?;
    hear(out, b"/ 1Q\r")?;
    hear(out, b"/1 A 5 R\r")?;
    hear(out, b"/1A5R\r\r")?;
    hear(out, b"/1Q\r/2f\r")?;
    hear(out, b"/1A\x7f5R\r")?;
    hear(out, b"/1A\n5R\r")?;
    hear(out, b"/\x1f1Q\r")?;
    hear(out, b"/1A5\x80/1Q\r")?;
    hear(out, b"/1A5\x00Q\r/~~\r")
}

fn long_frames(out: Stdout) -> io::Result<()> {
    println!(out; "Long frames")?;
    hear_long(out, 319)?;
    hear_long(out, 320)?;
    hear_long(out, 321)?;
    hear_long(out, 10000)
}

fn tables(out: Stdout) -> io::Result<()> {
    println!(out; "Each byte value outside a frame")?;
    table(out, Line::Dt(Dt::Outside))?;
    println!(out; "after the slash")?;
    table(out, Line::Dt(Dt::Started))?;
    println!(out; "in a frame")?;
    table(out, Line::Dt(Dt::Collecting(b'1', 319)))?;
    println!(out; "in a frame with 320 data bytes")?;
    table(out, Line::Dt(Dt::Collecting(b'1', 320)))?;
    println!(out; "in a frame with more")?;
    table(out, Line::Dt(Dt::Collecting(b'1', 321)))
}

fn answers(out: Stdout) -> io::Result<()> {
    println!(out; "Buffers of 0, 31, 32 and 33 bytes")?;
    answer_into(out, 0)?;
    answer_into(out, 31)?;
    answer_into(out, 32)?;
    answer_into(out, 33)?;
    println!(out; "Reports")?;
    answer(out, 64, Report::Nothing)?;
    answer(out, 96, Report::Nothing)?;
    answer(out, 96, Report::Character(b'@'))?;
    answer(out, 96, Report::Whole(0))?;
    answer(out, 96, Report::Whole(4294967295))?;
    answer(out, 96, Report::Tenths(80000))?;
    answer(out, 96, Report::Thousandths(2503))?;
    answer(out, 99, Report::Thousandths(4294967295))
}

fn statuses(out: Stdout) -> io::Result<()> {
    println!(out; "Status when ready")?;
    status(out, true, 0)?;
    status(out, true, 3)?;
    status(out, true, 15)?;
    println!(out; "and when busy")?;
    status(out, false, 0)?;
    status(out, false, 15)?;
    status(out, false, 16)
}

// Source 002's examples, and what drops a frame.
fn oem_frames(out: Stdout) -> io::Result<()> {
    println!(out; "OEM: frames and damaged frames")?;
    hear_oem(out, b"\x021\x30U41R\x03\x02")?;
    hear_oem(out, b"\x021\x30ZR\x03\x08")?;
    hear_oem(out, b"\x021\x30A300R\x03\x20")?;
    hear_oem(out, b"\x021\x30\x03\x00")?;
    hear_oem(out, b"\x021\x37Q\x03\x56")?;
    hear_oem(out, b"\x021\x38Q\x03\x59")?;
    hear_oem(out, b"\x021\x2fQ\x03\x4e")?;
    hear_oem(out, b"\x022\x30Q\x03\x52")?;
    hear_oem(out, b"\x021\x30Q\x03\x50")?;
    hear_oem(out, b"\x021\x30Q\x03\x51\x021\x31f\x03\x67")?;
    hear_oem(out, b"\x021\x30Q\x021\x30f\x03\x66")?;
    hear_oem(out, b"\x02\x03\x01\x021\x03\x30")?;
    hear_oem(out, b"\x021\x30Q\r\x03\x5c")?;
    hear_oem(out, b"\x021\x30A5/1Q\x03\x3b")?;
    hear_oem(out, b"\x021\x30\x03\x021\x30Q\x03\x51\x021\x30Q\x03\x51")
}

// A frame in hand with the sum of `02 31 30`.
fn head() -> Head {
    Head {
        address: b'1',
        sequence: b'0',
        sum: 3,
    }
}

fn oem_tables(out: Stdout) -> io::Result<()> {
    println!(out; "OEM: each byte value outside a frame")?;
    table(out, Line::Oem(Oem::Outside))?;
    println!(out; "after 02h")?;
    table(out, Line::Oem(Oem::Started))?;
    println!(out; "after the address")?;
    table(out, Line::Oem(Oem::Addressed(b'1')))?;
    println!(out; "in a frame")?;
    table(out, Line::Oem(Oem::Collecting(head(), 319)))?;
    println!(out; "in a frame with 320 data bytes")?;
    table(out, Line::Oem(Oem::Collecting(head(), 320)))?;
    println!(out; "after 03h, with the sum of 03h to come")?;
    table(out, Line::Oem(Oem::Ended(head(), 0)))
}

fn oem_answers(out: Stdout) -> io::Result<()> {
    println!(out; "OEM: answers")?;
    answer_oem(out, 64, Report::Nothing)?;
    answer_oem(out, 96, Report::Nothing)?;
    answer_oem(out, 98, Report::Character(b'B'))?;
    answer_oem(out, 96, Report::Whole(44000))?;
    answer_oem(out, 99, Report::Thousandths(4294967295))
}

fn main(rt: HostRuntime) -> io::Result<()> {
    let out = rt.stdout();
    frames(out)?;
    long_frames(out)?;
    tables(out)?;
    answers(out)?;
    statuses(out)?;
    oem_frames(out)?;
    oem_tables(out)?;
    oem_answers(out)
}
