// Bytes as two capital hex digits each.
ghost use Rattle.std.specs.Prelude.{◌≡◌, ◌<◌, ◌/◌, ◌%◌, ◌&&◌};
ghost use Rattle.desk.specs.Hex.{hex_digit, Worth, digit_for, paired as Hex·paired, byte_of};

#[tactic(auto, unfolding(crate::specs::Hex::hex_digit))]
fn is_hex(b: u8) -> bool
    ensures { result ≡ hex_digit b }
{
    basics::is_digit(b) || (b'A' <= b && b <= b'F')
}

fn are_hex(a: u8, b: u8) -> bool
    ensures { result ≡ (hex_digit a && hex_digit b) }
{
    is_hex(a) && is_hex(b)
}

// Whether a text is bytes so written, one at least, with a space between two.
pub fn paired(t: &[u8]) -> bool
    ensures { result ≡ Hex·paired t.now }
{
    let mut rest = t;
    while let [a, b, space, more @ ..] = rest {
        if *space != b' ' || !are_hex(*a, *b) {
            return false;
        }
        rest = more;
    }
    match rest {
        [a, b] => are_hex(*a, *b),
        _ => false,
    }
}

#[tactic(auto, unfolding(crate::specs::Hex::worth, crate::specs::Hex::hex_digit, basics::specs::Bytes::digit))]
fn worth_of(b: u8) -> u8
    ensures { Worth b result }
{
    match b {
        b'0'..=b'9' => b - 48,
        b'A'..=b'F' => b - 55,
        _ => 0,
    }
}

// The byte of two digits.
#[tactic(auto, unfolding(crate::specs::Hex::byte_of))]
pub fn byte(a: u8, b: u8) -> u8
    ensures { result ≡ byte_of a b }
{
    16 * worth_of(a) + worth_of(b)
}

#[tactic(auto, unfolding(crate::specs::Hex::digit_for))]
fn digit(n: u8) -> u8
    requires { n < 16 }
    ensures { result ≡ digit_for n }
{
    if n < 10 { n + 48 } else { n + 55 }
}

// The two digits of a byte.
pub fn high(b: u8) -> u8
    ensures { result ≡ digit_for (b / 16) }
{
    digit(b / 16)
}

pub fn low(b: u8) -> u8
    ensures { result ≡ digit_for (b % 16) }
{
    digit(b % 16)
}
