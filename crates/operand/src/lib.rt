// Operand texts: the numbers behind a command's letter.
#![tactic(auto)]

ghost use Rattle.std.specs.Prelude.{◌≡◌, true, ◌+◌, ◌^◌, ◌≤◌, ◌<◌, length};
ghost use Rattle.std.specs.List.{prefix_len};
ghost use Rattle.basics.specs.Bytes.{digit, every};
ghost use Rattle.operand.specs.Text.{has, run, operand_text};
ghost use Rattle.operand.specs.Begins.{longest, few, follows};
ghost use Rattle.operand.specs.Number.{decimals_of, followed_of, number_of, read_of, single_of, pair_of};
ghost use Rattle.operand.specs.Steps.{Spelt, Scaled, comma_of};

// Digits; digits, points and commas; all but a comma.
#[derive(Clone, Copy)]
pub enum Class {
    Digit,
    Operand,
    NoComma,
}

// A number in thousandths with the decimals that were written, none at all, or text that is no number.
// An enum of its own: each of its readers asks for all three cases at once, where Result<Option<..>, usize> would ask twice.
#[derive(Clone, Copy)]
pub enum Number {
    Absent,
    Is { thousandths: u32, decimals: usize },
    // W-202: how many characters of the text were read.
    Wrong(usize),
}

// What a whole text is, with how many of its characters were read: all where it is well formed.
#[derive(Clone, Copy)]
pub struct Single {
    pub number: Number,
    pub read: usize,
}

// Two fields and no array: the definitions of the command table name each.
#[derive(Clone, Copy)]
pub struct Pair {
    pub first: Number,
    pub second: Number,
    pub read: usize,
}

fn is_in(class: Class, b: u8) -> bool
    ensures { result ≡ has class b }
{
    match class {
        Class::Digit => basics::is_digit(b),
        Class::Operand => basics::is_digit(b) || b == b'.' || b == b',',
        Class::NoComma => b != b',',
    }
}

// How many bytes of a class a text begins with.
fn run_length(t: &[u8], class: Class) -> usize
    ensures { result ≡ prefix_len (λ b. has class b) t.now }
{
    t.iter().take_while(|b| is_in(class, **b)).count()
}

// What up to six digits spell.
fn value(t: &[u8]) -> u32
    requires { (every digit t.now ≡ true) × (length t.now ≤ 6) }
    ensures { Spelt t.now result }
{
    let mut v = 0;
    for d in t {
        v = v * 10 + u32::from(*d - b'0');
    }
    v
}

// Decimals as thousandths; how many may be written is not asked here.
fn scaled(v: u32, n: usize) -> u32
    requires { (v < 10 ^ n) × (n ≤ 6) }
    ensures { Scaled v n result }
{
    match n {
        1 => v * 100,
        2 => v * 10,
        _ => v,
    }
}

// The digits behind a point, after a whole part of so many thousandths and `from` characters of the number.
fn fraction(from: usize, whole: u32, t: &[u8]) -> Number
    requires { (from ≤ 7) × (whole < 1000000000) }
    ensures { result ≡ decimals_of (from + longest (few 3) (length t.now) t.now) whole t.now }
{
    let n = run_length(t, Class::Digit);
    if 3 < n {
        return Number::Wrong(from + 3);
    }
    if n != t.len() || n == 0 {
        return Number::Wrong(from + n);
    }
    Number::Is {
        thousandths: whole + scaled(value(t), n),
        decimals: n,
    }
}

// What follows the n digits of a whole part.
fn followed(n: usize, whole: u32, t: &[u8]) -> Number
    requires { (1 ≤ n) × ((n ≤ 6) × (whole < 1000000)) }
    ensures { result ≡ followed_of (n + longest (follows n) (length t.now) t.now) whole t.now }
{
    let base = whole * 1000;
    let Some((first, rest)) = t.split_first() else {
        return Number::Is {
            thousandths: base,
            decimals: 0,
        };
    };
    if *first != b'.' {
        return Number::Wrong(n);
    }
    fraction(n + 1, base, rest)
}

// The number that a whole text is: one operand.
pub fn one(t: &[u8]) -> Number
    ensures { result ≡ number_of t.now }
{
    if t.len() == 0 {
        return Number::Absent;
    }
    let n = run_length(t, Class::Digit);
    if n == 0 {
        return Number::Wrong(0);
    }
    if 6 < n {
        return Number::Wrong(6);
    }
    let whole = value(&t[..n]);
    followed(n, whole, &t[n..])
}

// How many characters were read, `size` of them where the number is right.
fn read_of(n: Number, size: usize) -> usize
    ensures { result ≡ read_of n size }
{
    match n {
        Number::Absent | Number::Is { .. } => size,
        Number::Wrong(read) => read,
    }
}

// The number that a whole text is, with how far it was read.
pub fn only(t: &[u8]) -> Single
    ensures { result ≡ single_of t.now }
{
    let number = one(t);
    Single {
        number,
        read: read_of(number, t.len()),
    }
}

// The number behind the comma that a text begins with, with how far the text was read.
fn behind_comma(t: &[u8]) -> Single
    ensures { result ≡ comma_of t.now }
{
    let Some((_, rest)) = t.split_first() else {
        return Single {
            number: Number::Absent,
            read: 0,
        };
    };
    let second = only(rest);
    Single {
        number: second.number,
        read: 1 + second.read,
    }
}

// The two numbers that a whole text is, with how far it was read: two operands.
pub fn two(t: &[u8]) -> Pair
    ensures { result ≡ pair_of t.now }
{
    let k = run_length(t, Class::NoComma);
    let first = one(&t[..k]);
    let second = behind_comma(&t[k..]);
    Pair {
        first,
        second: second.number,
        read: read_of(first, k + second.read),
    }
}

// How long the operand text is that a text begins with.
#[tactic(auto, using(crate::proofs::Runs::counted_run))]
pub fn extent(t: &[u8]) -> usize
    ensures { result ≡ length (operand_text t.now) }
{
    run_length(t, Class::Operand)
}
