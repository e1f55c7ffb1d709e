// What more than one crate needs and no device does: bytes by their kind, and bytes laid into a lent buffer.
#![tactic(auto)]

ghost use Rattle.std.specs.Prelude.{◌≡◌};
ghost use Rattle.basics.specs.Bytes.{digit};
ghost use Rattle.basics.specs.Lay.{Laid};

// Whether a byte is a digit, 30h to 39h.
#[tactic(auto, unfolding(crate::specs::Bytes::digit))]
pub fn is_digit(b: u8) -> bool
    ensures { result ≡ digit b }
{
    48 <= b && b <= 57
}

// All of `bytes` into the buffer from `at` on, and how many they are; nothing where there is no room for them.
// A place beside the buffer, and no cursor that holds both: the memory is lent, and where an answer goes on is all that is kept of it.
pub fn lay(bytes: &[u8], buf: &mut [u8], at: usize) -> Option<usize>
    ensures { Laid bytes.now at buf.old result buf.new }
{
    let size = bytes.len();
    let room = buf.len().checked_sub(at)?;
    if room < size {
        return None;
    }
    // Byte by byte: a copy of a slice calls `memmove`, and a host in C has memcpy and memset and nothing else.
    for i in 0..size {
        buf[at + i] = bytes[i];
    }
    Some(size)
}
