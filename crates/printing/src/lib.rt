// What lines print: laid into the output from a place on. Each function says where it ends.
// The output is memory that a caller lends, of any length and from any place on; an array of its own here would ask more of callers. So both stay arguments. That an answer has 64 bytes at most is a clause too: it is a lent slice, of which no type says that.
#![tactic(auto)]

ghost use Rattle.std.specs.Prelude.{◌+◌, ◌*◌, ◌^◌, ◌≤◌, ◌<◌, ◌++◌, length};
ghost use Rattle.decimal.specs.Digits.{digits_of, long_of};
ghost use Rattle.desk.specs.Hex.{hex_of};
ghost use Rattle.printing.specs.Print.{ended, shown_of, last_of, place_of, used_of, pair_of, bar_of, added_of, close_of, Prints};

use decimal::Decimals;
use desk::hex;
use line::Framing;
use machine::S3;
use pipettor::{S1, Said};

// A text.
fn put(text: &[u8], out: &mut [u8], at: usize) -> usize
    requires { at + length text.now ≤ length out.old }
    ensures { Prints (length text.now) text.now at out.old result out.new }
{
    basics::lay(text, out, at);
    at + text.len()
}

// A line.
pub fn line(text: &[u8], out: &mut [u8], at: usize) -> usize
    requires { at + length text.now + 1 ≤ length out.old }
    ensures { Prints (length text.now + 1) (ended text.now) at out.old result out.new }
{
    let end = put(text, out, at);
    put(b"\n", out, end)
}

// A whole number, of 64 bits or of 32.
fn number(n: u64, out: &mut [u8], at: usize) -> usize
    requires { at + 20 ≤ length out.old }
    ensures long { Prints 20 (long_of n) at out.old result out.new }
    ensures short { n < 2 ^ 32 → Prints 10 (digits_of n) at out.old result out.new }
{
    at + decimal::put(n, Decimals::Zero, out, at).unwrap_or(0)
}

// The end of a line of ticks: whether one asked to eject.
fn last(asked: bool, out: &mut [u8], at: usize) -> usize
    requires { at + 7 ≤ length out.old }
    ensures { Prints 7 (last_of asked) at out.old result out.new }
{
    if asked {
        line(b" eject", out, at)
    } else {
        put(b"\n", out, at)
    }
}

// "for ticks, the plunger, a space, the exact position"
pub fn place(plunger: u32, exact: u64, asked: bool, out: &mut [u8], at: usize) -> usize
    requires { at + 38 ≤ length out.old }
    ensures { Prints 38 (place_of plunger exact asked) at out.old result out.new }
{
    let one = number(u64::from(plunger), out, at);
    let two = put(b" ", out, one);
    let three = number(exact, out, two);
    last(asked, out, three)
}

// The ticks that a run used, and where it left the plunger; or S3.
pub fn used(
    used: Result<u32, S3>,
    plunger: u32,
    exact: u64,
    asked: bool,
    out: &mut [u8],
    at: usize,
) -> usize
    requires { at + 49 ≤ length out.old }
    ensures { Prints 49 (used_of used plunger exact asked) at out.old result out.new }
{
    match used {
        Ok(n) => {
            let one = number(u64::from(n), out, at);
            let two = put(b" ", out, one);
            place(plunger, exact, asked, out, two)
        }
        Err(S3) => line(b"S3", out, at),
    }
}

// Status and data, `-` if silent, or S1.
pub fn show(framing: Framing, said: Said, answer: &[u8], out: &mut [u8], at: usize) -> usize
    requires answer_len_bound { length answer.now ≤ 64 }
    requires at_in_bounds { at + 65 ≤ length out.old }
    ensures { Prints 65 (shown_of framing said answer.now) at out.old result out.new }
{
    match said {
        Ok(None) => line(b"-", out, at),
        Ok(Some(n)) => line(desk::printed(framing, n, answer), out, at),
        Err(S1) => line(b"S1", out, at),
    }
}

// A byte's two hex digits, with a space in front unless it is the first.
fn pair(b: u8, first: bool, out: &mut [u8], at: usize) -> usize
    requires { at + 3 ≤ length out.old }
    ensures { Prints 3 (pair_of first b) at out.old result out.new }
{
    let start = if first { at } else { put(b" ", out, at) };
    put(&[hex::high(b), hex::low(b)], out, start)
}

// Bytes in hex.
fn pairs(bytes: &[u8], out: &mut [u8], at: usize) -> usize
    requires { at + 3 * length bytes.now ≤ length out.old }
    ensures { Prints (3 * length bytes.now) (hex_of bytes.now) at out.old result out.new }
{
    let mut end = at;
    for (i, b) in bytes.iter().enumerate() {
        end = pair(*b, i == 0, out, end);
    }
    end
}

// Between two answers of one line.
fn bar(first: bool, out: &mut [u8], at: usize) -> usize
    requires { at + 3 ≤ length out.old }
    ensures { Prints 3 (bar_of first) at out.old result out.new }
{
    if first { at } else { put(b" | ", out, at) }
}

// An answer's bytes in hex.
fn in_hex(first: bool, answer: &[u8], out: &mut [u8], at: usize) -> usize
    requires answer_len_bound { length answer.now ≤ 64 }
    requires at_in_bounds { at + 195 ≤ length out.old }
    ensures { Prints 195 (bar_of first ++ hex_of answer.now) at out.old result out.new }
{
    let next = bar(first, out, at);
    pairs(answer, out, next)
}

// What is said to a raw byte.
pub fn raw(first: bool, said: Said, answer: &[u8], out: &mut [u8], at: usize) -> usize
    requires answer_len_bound { length answer.now ≤ 64 }
    requires at_in_bounds { at + 195 ≤ length out.old }
    ensures { Prints 195 (added_of first said answer.now) at out.old result out.new }
{
    match said {
        Ok(None) => at,
        Ok(Some(n)) => {
            if n <= answer.len() {
                in_hex(first, &answer[..n], out, at)
            } else {
                at
            }
        }
        Err(S1) => {
            let next = bar(first, out, at);
            put(b"S1", out, next)
        }
    }
}

// The end of a line of raw bytes: `-` if all were silent.
pub fn close(first: bool, out: &mut [u8], at: usize) -> usize
    requires { at + 2 ≤ length out.old }
    ensures { Prints 2 (close_of first) at out.old result out.new }
{
    if first {
        line(b"-", out, at)
    } else {
        put(b"\n", out, at)
    }
}
