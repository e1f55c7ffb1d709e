// Noise and damaged DT frames, each followed by a whole frame, to one receiver; the same whole frames to fresh receivers. Prints how often both read the same, and as it was sent.
#![tactic(auto)]

ghost use Rattle.std.specs.Prelude.{◌<◌};

use line::dt::Dt;
use std::io;

// The receiver's state and the data of the frame in hand.
#[derive(Clone, Copy)]
struct Receiver {
    line: Dt,
    frame: [u8; 320],
}

fn fresh() -> Receiver {
    Receiver {
        line: Dt::Outside,
        frame: [0; 320],
    }
}

fn give(r: Receiver, b: u8) -> Receiver {
    let mut frame = r.frame;
    let heard = r.line.hear(b);
    line::keep(&mut frame, heard.deed, b);
    Receiver {
        line: heard.line,
        frame,
    }
}

// Numbers that look like chance, the same in every run: the i-th of a seed.
fn chance(seed: u32, i: usize) -> u32 {
    let place = (i % 4096) as u64;
    let x = (u64::from(seed) * 1_000_003 + place * 7_919) % 4_294_967_291;
    let y = x * 40_503 % 4_294_967_291;
    (y / 977) as u32
}

fn any_byte(seed: u32, i: usize) -> u8 {
    (chance(seed, i) % 256) as u8
}

// A byte that a frame may hold: 20h to 7Eh but `/`.
fn data_byte(seed: u32, i: usize) -> u8 {
    let b = (32 + chance(seed, i) % 94) as u8;
    if b < b'/' { b } else { b + 1 }
}

// Up to 329 data bytes.
fn data_in(seed: u32) -> usize
    ensures { result < 330 }
{
    (chance(seed, 1000) % 330) as usize
}

// The i-th byte of a frame with n data bytes: `/`, the address, the data, CR.
fn sent(seed: u32, n: usize, i: usize) -> u8 {
    if i == 0 {
        return b'/';
    }
    if n < i && i - n == 2 {
        return 13;
    }
    data_byte(seed, i)
}

// The bytes of a frame up to a place. A `fold` would move the receiver, with its frame, into the closure and back for each.
fn hear_frame(start: Receiver, seed: u32, n: usize, end: usize) -> Receiver {
    let mut r = start;
    (0..end).for_each(|i| r = give(r, sent(seed, n, i)));
    r
}

// One byte of a damaged frame: changed, lost, or with another before it.
fn damaged(r: Receiver, seed: u32, b: u8) -> Receiver {
    let other = any_byte(seed, 1001);
    match chance(seed, 1002) % 3 {
        0 => give(r, other),
        1 => r,
        _ => give(give(r, other), b),
    }
}

fn hear_damaged(start: Receiver, seed: u32, n: usize, at: usize, end: usize) -> Receiver {
    let mut r = start;
    for i in 0..end {
        let b = sent(seed, n, i);
        if i == at {
            r = damaged(r, seed, b);
        } else {
            r = give(r, b);
        }
    }
    r
}

fn hear_noise(start: Receiver, seed: u32, n: usize) -> Receiver {
    let mut r = start;
    (0..n).for_each(|i| r = give(r, any_byte(seed, i)));
    r
}

// What a receiver has in hand: to whom, and how many data bytes, 321 for more than 320.
fn in_hand(line: Dt) -> Option<(u8, usize)> {
    match line {
        Dt::Outside | Dt::Started => None,
        Dt::Collecting(address, count) => Some((address, count as usize)),
    }
}

// Whether the first n bytes, 320 at most, are the same, and those that were sent.
fn same_data(a: &[u8; 320], b: &[u8; 320], seed: u32, n: usize) -> bool {
    (0..n.min(320)).all(|i| a[i] == b[i] && a[i] == data_byte(seed, i + 2))
}

// Whether two receivers have the same whole frame in hand, as it was sent.
fn alike(r: Receiver, s: Receiver, seed: u32) -> bool {
    match (in_hand(r.line), in_hand(s.line)) {
        (Some((address, n)), Some((other, m))) => {
            address == other
                && address == data_byte(seed, 1)
                && n == m
                && same_data(&r.frame, &s.frame, seed, n)
        }
        _ => false,
    }
}

// Noise or a damaged frame.
fn disturbed(r: Receiver, seed: u32) -> Receiver {
    let n = data_in(seed);
    if chance(seed, 1003) % 4 == 0 {
        return hear_noise(r, seed, n);
    }
    let end = n + 3;
    let at = (chance(seed, 1004) % 4) as usize;
    if chance(seed, 1005) % 2 == 0 {
        return hear_damaged(r, seed, n, at, end);
    }
    hear_damaged(r, seed, n, n + at, end)
}

fn count_alike() -> u32 {
    let mut r = fresh();
    let mut alike_so_far: u32 = 0;
    for seed in 1..3001 {
        r = disturbed(r, seed);
        let next = seed + 10_000;
        let n = data_in(next);
        let end = n + 2;
        r = hear_frame(r, next, n, end);
        let s = hear_frame(fresh(), next, n, end);
        alike_so_far += u32::from(alike(r, s, next));
        r = give(r, 13);
    }
    alike_so_far
}

fn main(rt: HostRuntime) -> io::Result<()> {
    println!(rt;
        "whole frames after noise or a damaged frame, 3000; read as by a fresh receiver and as they were sent: {}",
        count_alike()
    )
}
