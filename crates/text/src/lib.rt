// Texts and data: which strings, controls and reports there are, and whether a text reads and its loops are right.
#![tactic(auto)]

pub mod loops;

ghost use Rattle.std.specs.Prelude.{◌≡◌};
ghost use Rattle.text.specs.Text.{check_of};
ghost use Rattle.text.specs.Data.{Squeezed, asked_of, asking, string, string_of, control_of, data_of};

use command::refusal::Misread;
use operand::Number;

// Q and ? with their number, and f.
#[derive(Clone, Copy)]
pub enum Question {
    Query(u32),
    Value(u32),
    Address,
}

// R, T, X, C and !R.
#[derive(Clone, Copy)]
pub enum Control {
    Run,
    Stop,
    Again,
    Clear,
    Reset,
}

// What data are. A text is their first `size` bytes, to be run or stored.
// No Result: a wrong report, a wrong text and one that is too long each leave something else behind, in 01's words, and are told apart where the others are.
#[derive(Clone, Copy)]
pub enum Data {
    Report(Question),
    WrongReport,
    Control(Control),
    Text { size: usize, run: bool },
    Wrong(Misread),
    TooLong,
}

// Whether a text reads from the first command to the last, or its first wrong place.
pub fn check(t: &[u8]) -> Result<(), Misread>
    ensures { result ≡ check_of t.now }
{
    let mut at = 0;
    while let Some((_, next)) = command::command_at(t, at)? {
        at = next;
    }
    Ok(())
}

// Spaces dropped where they stand; how many bytes are left. By index, since what is read and what is written are places of one array.
pub fn squeeze(t: &mut [u8]) -> usize
    ensures { Squeezed t.old result t.new }
{
    let mut kept = 0;
    for i in 0..t.len() {
        let b = t[i];
        if b == b' ' {
            continue;
        }
        t[kept] = b;
        kept += 1;
    }
    kept
}

// The number of a report, 0 where none is written.
#[tactic(auto, unfolding(crate::specs::Data::asked_of))]
fn number_asked(n: Number) -> Option<u32>
    ensures { result ≡ asked_of n }
{
    match n {
        Number::Absent => Some(0),
        Number::Is {
            thousandths,
            decimals: 0,
        } => Some(thousandths / 1000),
        _ => None,
    }
}

// A report, if what stands behind its letter is right.
fn ask(question: Option<Question>) -> Data
    ensures { result ≡ asking question }
{
    match question {
        Some(question) => Data::Report(question),
        None => Data::WrongReport,
    }
}

// A string of so many bytes, if its text reads.
fn if_it_reads(t: &[u8], run: bool) -> Data
    ensures { result ≡ string t.now run (check_of t.now) }
{
    match check(t) {
        Ok(()) => Data::Text { size: t.len(), run },
        Err(r) => Data::Wrong(r),
    }
}

// Commands, then an optional final R.
fn read_string(t: &[u8]) -> Data
    ensures { result ≡ string_of t.now }
{
    let Some((last, text)) = t.split_last() else {
        return if_it_reads(t, false);
    };
    if *last == b'R' {
        return if_it_reads(text, true);
    }
    if_it_reads(t, false)
}

// A control, or a string.
#[tactic(auto, unfolding(crate::specs::Data::control_of))]
fn read_control(t: &[u8]) -> Data
    ensures { result ≡ control_of t.now }
{
    match t {
        [b'R'] => Data::Control(Control::Run),
        [b'T'] => Data::Control(Control::Stop),
        [b'X'] => Data::Control(Control::Again),
        [b'C'] => Data::Control(Control::Clear),
        [b'!', b'R'] => Data::Control(Control::Reset),
        _ => read_string(t),
    }
}

// What data without spaces are.
#[tactic(auto, unfolding(crate::specs::Data::data_of))]
pub fn read(t: &[u8]) -> Data
    ensures { result ≡ data_of t.now }
{
    match t {
        [] => Data::Report(Question::Query(0)),
        [b'Q', rest @ ..] => ask(number_asked(operand::one(rest)).map(Question::Query)),
        [b'?', rest @ ..] => ask(number_asked(operand::one(rest)).map(Question::Value)),
        [b'f'] => Data::Report(Question::Address),
        [b'f', ..] => Data::WrongReport,
        _ => read_control(t),
    }
}
