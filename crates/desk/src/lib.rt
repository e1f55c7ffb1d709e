// Lines of the bench program and of the training rig: what a line asks, what is printed of an answer, where a line ends.
#![tactic(auto)]

pub mod hex;

ghost use Rattle.std.specs.Prelude.{◌≡◌, length};
ghost use Rattle.line.specs.Bytes.{printable};
ghost use Rattle.basics.specs.Bytes.{every};
ghost use Rattle.desk.specs.Counts.{whole_of, count_of};
ghost use Rattle.desk.specs.Desk.{spelled, begins, sense_word, number_word, word_of, knows, least_of, most_of, allowed, ranged, behind, form_of, asked_of, tail_size, printed_of, LineEnd};

use line::Framing;
use operand::Number;

// Whose lines: the bench program's, or the rig's, which are those and more.
#[derive(Clone, Copy)]
pub enum Desk {
    Bench,
    Rig,
}

// What a number in a line counts: ticks that pass, ticks that a run may take, bytes of the answer buffers, an address in DT framing, one in OEM framing, a tip, a pressure, a pressure below 0.
#[derive(Clone, Copy)]
pub enum Quantity {
    Ticks,
    Run,
    Lend,
    New,
    Oem,
    Tip,
    Press,
    Minus,
}

// How a line begins.
#[derive(Clone, Copy)]
enum Word {
    Frame,
    Number(Quantity),
    Stop,
    Raw,
    Other,
}

// A frame, whose text stands behind the first two bytes; a number; the host's stop; raw bytes, which stand behind the first two; a wrong line.
// `Wrong` is a case like the others and no missing answer: it is printed for in the same match as they are.
#[derive(Clone, Copy)]
pub enum Asked {
    Send,
    Number(Quantity, u32),
    Stop,
    Raw,
    Wrong,
}

fn all_printable(t: &[u8]) -> bool
    ensures { result ≡ every printable t.now }
{
    t.iter().all(|b| line::printable(*b))
}

// Whether a line begins with a word.
fn starts(t: &[u8], word: &[u8]) -> bool
    ensures { result ≡ begins word.now t.now }
{
    t.starts_with(word)
}

// Of the words that a number follows, those for what a host senses.
#[tactic(auto, unfolding(crate::specs::Desk::sense_word))]
fn sense_word(t: &[u8]) -> Word
    ensures { result ≡ sense_word t.now }
{
    if starts(t, b"tip ") {
        Word::Number(Quantity::Tip)
    } else if starts(t, b"press -") {
        Word::Number(Quantity::Minus)
    } else if starts(t, b"press ") {
        Word::Number(Quantity::Press)
    } else {
        Word::Other
    }
}

// The words that a number follows.
#[tactic(auto, unfolding(crate::specs::Desk::number_word))]
fn number_word(t: &[u8]) -> Word
    ensures { result ≡ number_word t.now }
{
    if starts(t, b"t ") {
        Word::Number(Quantity::Ticks)
    } else if starts(t, b"run ") {
        Word::Number(Quantity::Run)
    } else if starts(t, b"lend ") {
        Word::Number(Quantity::Lend)
    } else if starts(t, b"new ") {
        Word::Number(Quantity::New)
    } else if starts(t, b"oem ") {
        Word::Number(Quantity::Oem)
    } else {
        sense_word(t)
    }
}

#[tactic(auto, unfolding(crate::specs::Desk::word_of))]
fn word_of(t: &[u8]) -> Word
    ensures { result ≡ word_of t.now }
{
    if starts(t, b"> ") {
        Word::Frame
    } else if starts(t, b"stop") {
        Word::Stop
    } else if starts(t, b"x ") {
        Word::Raw
    } else {
        number_word(t)
    }
}

impl Quantity {
    fn size(self) -> usize
        ensures { result ≡ length (spelled (Word.Number self)) }
    {
        match self {
            Quantity::Ticks => 2,
            Quantity::Run | Quantity::New | Quantity::Oem | Quantity::Tip => 4,
            Quantity::Lend => 5,
            Quantity::Press => 6,
            Quantity::Minus => 7,
        }
    }

    fn least(self) -> u32
        ensures { result ≡ least_of self }
    {
        match self {
            Quantity::Ticks | Quantity::Minus => 1,
            _ => 0,
        }
    }

    fn most(self) -> u32
        ensures { result ≡ most_of self }
    {
        match self {
            Quantity::Ticks => 60_000,
            Quantity::Run | Quantity::New | Quantity::Oem => 999_999,
            Quantity::Lend => 64,
            Quantity::Tip => 1,
            Quantity::Press | Quantity::Minus => 40_000,
        }
    }

    #[tactic(auto, unfolding(crate::specs::Desk::allowed))]
    fn allows(self, n: u32) -> bool
        ensures { result ≡ allowed self n }
    {
        self.least() <= n && n <= self.most()
    }

    #[tactic(auto, unfolding(crate::specs::Desk::ranged))]
    fn asked(self, count: Option<u32>) -> Asked
        ensures { result ≡ ranged self count }
    {
        match count {
            Some(n) if self.allows(n) => Asked::Number(self, n),
            _ => Asked::Wrong,
        }
    }
}

impl Word {
    fn size(self) -> usize
        ensures { result ≡ length (spelled self) }
    {
        match self {
            Word::Frame | Word::Raw => 2,
            Word::Number(q) => q.size(),
            Word::Stop => 4,
            Word::Other => 0,
        }
    }
}

impl Desk {
    // The bench program has two forms of lines.
    fn takes(self, word: Word) -> bool
        ensures { result ≡ knows self word }
    {
        match (self, word) {
            (Desk::Bench, Word::Frame | Word::Number(Quantity::Ticks)) => true,
            (Desk::Bench, _) => false,
            (Desk::Rig, _) => true,
        }
    }
}

#[tactic(auto, unfolding(crate::specs::Counts::whole_of))]
fn whole(n: Number) -> Option<u32>
    ensures { result ≡ whole_of n }
{
    match n {
        Number::Is {
            thousandths,
            decimals: 0,
        } => Some(thousandths / 1000),
        _ => None,
    }
}

// A number without leading zeros.
#[tactic(auto, unfolding(crate::specs::Counts::count_of))]
fn counted(t: &[u8]) -> Option<u32>
    ensures { result ≡ count_of t.now }
{
    match t {
        [] => None,
        [b'0'] => Some(0),
        [b'0', ..] => None,
        _ => whole(operand::one(t)),
    }
}

// By what stands behind the word.
#[tactic(auto, unfolding(crate::specs::Desk::behind))]
fn ask(word: Word, t: &[u8]) -> Asked
    ensures { result ≡ behind word t.now }
{
    match word {
        Word::Frame => Asked::Send,
        Word::Number(q) => q.asked(counted(t)),
        Word::Stop if t.is_empty() => Asked::Stop,
        Word::Raw if hex::paired(t) => Asked::Raw,
        Word::Stop | Word::Raw | Word::Other => Asked::Wrong,
    }
}

// A line by its form.
#[tactic(auto, using(crate::proofs::Words::word_within), unfolding(crate::specs::Desk::form_of))]
fn form(desk: Desk, t: &[u8]) -> Asked
    ensures { result ≡ form_of desk t.now }
{
    let word = word_of(t);
    if desk.takes(word) {
        ask(word, &t[word.size()..])
    } else {
        Asked::Wrong
    }
}

// What a line asks.
#[tactic(auto, unfolding(crate::specs::Desk::asked_of))]
pub fn read(desk: Desk, t: &[u8]) -> Asked
    ensures { result ≡ asked_of desk t.now }
{
    if t.len() <= 400 && all_printable(t) {
        form(desk, t)
    } else {
        Asked::Wrong
    }
}

// How many bytes stand behind an answer's data.
#[tactic(auto, unfolding(crate::specs::Desk::tail_size))]
fn tail(framing: Framing) -> usize
    ensures { result ≡ tail_size framing }
{
    match framing {
        Framing::Dt => 3,
        Framing::Oem => 2,
    }
}

// What is printed of an answer of n bytes: its status byte and its data.
#[tactic(auto, using(crate::proofs::Lines::tail_least, crate::proofs::Lines::tail_most, crate::proofs::Lines::cut_off, crate::proofs::Lines::too_short, crate::proofs::Lines::status_and_data))]
pub fn printed(framing: Framing, n: usize, answer: &[u8]) -> &[u8]
    ensures { result.now ≡ printed_of framing n answer.now }
{
    let tail = tail(framing);
    if answer.len() < n || n < 2 + tail {
        return &[];
    }
    &answer[2..n - tail]
}

// Where the line ends that begins at a place of a text: at its LF, or with the text. From behind the text there is nothing.
pub fn line_end(t: &[u8], from: usize) -> usize
    ensures { LineEnd t.now from result }
{
    match t.iter().skip(from).position(|b| *b == 10) {
        Some(n) => from + n,
        None => from.max(t.len()),
    }
}
