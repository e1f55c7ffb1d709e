// Numbers written in decimal into a buffer that the caller lends, from a place on, as `basics::lay` does: whole, with one decimal, with three.
// How many digits a number has is found first; then each digit is written once, into its final place, from the rightmost.
#![tactic(auto)]

ghost use Rattle.std.specs.Prelude.{◌≡◌, ◌+◌, ◌-◌, ◌≤◌, ◌<◌, ◌^◌, length};
ghost use Rattle.basics.specs.Lay.{Laid, over};
ghost use Rattle.decimal.specs.Digits.{last_digits, long_of, count_of, fixed_of};
ghost use Rattle.decimal.specs.Written.{behind, behind_size, written_of};

// The decimals of a number: none for a whole one, one for increments a second, three for µL.
#[derive(Clone, Copy)]
pub enum Decimals {
    Zero,
    One,
    Three,
}

impl Decimals {
    // How many they are.
    fn count(self) -> usize
        ensures { result ≡ count_of self }
    {
        match self {
            Decimals::Zero => 0,
            Decimals::One => 1,
            Decimals::Three => 3,
        }
    }
}

// How many digits n has without leading zeros; 0 has one.
#[tactic(auto, using(crate::proofs::Trim::long_digits, crate::proofs::Trim::long_zero))]
fn length_of(n: u64) -> usize
    ensures { long_of n ≡ last_digits result n }
{
    match n.checked_ilog10() {
        Some(lower) => lower as usize + 1,
        None => 1,
    }
}

// The last k digits of n, the last of them just before `end`. By index, from the right, as the definition `last_digits` takes them.
fn put_last(k: usize, n: u64, buf: &mut [u8], end: usize)
    requires { (k ≤ end) × (end ≤ length buf.old) }
    ensures { buf.new ≡ over (last_digits k n) (end - k) buf.old }
{
    let mut rest = n;
    for i in (end - k..end).rev() {
        buf[i] = b'0' + (rest % 10) as u8;
        rest /= 10;
    }
}

// How many bytes stand behind the whole part: none, or a point and the decimals.
#[tactic(auto, using(crate::proofs::Written::size_none, crate::proofs::Written::size_some))]
fn size_behind(decimals: usize) -> usize
    requires { decimals ≤ 3 }
    ensures { result ≡ behind_size decimals }
{
    if decimals == 0 { 0 } else { decimals + 1 }
}

// What stands behind the whole part, from `at` on.
fn put_behind(decimals: usize, n: u64, buf: &mut [u8], at: usize)
    requires { at + behind_size decimals ≤ length buf.old }
    ensures { buf.new ≡ over (behind decimals n) at buf.old }
{
    if decimals == 0 {
        return;
    }
    let first = at + 1;
    put_last(decimals, n, buf, first + decimals);
    buf[at] = b'.';
}

// n in units of the last decimal: 80000 with one is `8000.0`, 2503 with three is `2.503`. Nothing where there is no room for all of it.
pub fn put(n: u64, decimals: Decimals, buf: &mut [u8], at: usize) -> Option<usize>
    ensures written { Laid (written_of (count_of decimals) n) at buf.old result buf.new }
    ensures whole { count_of decimals ≡ 0 → Laid (long_of n) at buf.old result buf.new }
    ensures fixed { n < 2 ^ 32 → Laid (fixed_of (count_of decimals) n) at buf.old result buf.new }
{
    let count = decimals.count();
    let whole = n / 10u64.pow(count as u32);
    let digits = length_of(whole);
    let size = digits + size_behind(count);
    let room = buf.len().checked_sub(at)?;
    if room < size {
        return None;
    }
    let point = at + digits;
    put_behind(count, n, buf, point);
    put_last(digits, whole, buf, point);
    Some(size)
}
