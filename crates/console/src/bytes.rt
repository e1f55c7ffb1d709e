// Bytes in an array that isn't full of them: no heap, the memory is fixed.
ghost use Rattle.std.specs.Prelude.{◌≡◌, ◌+◌, ◌*◌, ◌≤◌, ◌++◌, [], List, ℕ, length, take};
ghost use Rattle.station.specs.Serve.{served_of};

use station::Station;
use std::marker::Model;

#[derive(Drop)]
pub struct Bytes<const N: usize> {
    array: [u8; N],
    filled: usize,
}

// Clauses see the bytes.
impl<const N: usize> Model for Bytes<N> {
    ghost Value = { List ℕ };

    ghost view = { λ b. take b.filled b.array };

    ghost invariant = { λ b. b.filled ≤ N };
}

impl<const N: usize> Bytes<N> {
    pub fn new() -> Bytes<N>
        ensures { result ≡ [] }
    {
        Bytes {
            array: [0; N],
            filled: 0,
        }
    }

    pub fn len(&self) -> usize
        ensures { result ≡ length self.now }
    {
        self.filled
    }

    pub fn as_slice(&self) -> &[u8]
        ensures { result.now ≡ self.now }
    {
        &self.array[..self.filled]
    }

    pub fn clear(&mut self)
        ensures { self.new ≡ [] }
    {
        self.filled = 0;
    }

    // As many of these as there is room for, behind those that are there.
    pub fn put(&mut self, more: &[u8])
        ensures { self.new ≡ take N (self.old ++ more.now) }
    {
        let n = more.len().min(N - self.filled);
        let end = self.filled + n;
        let array = &mut self.array[..];
        array[self.filled..end].copy_from_slice(&more[..n]);
        self.filled = end;
    }

    // A line is answered, and what it prints is put behind what is there.
    pub fn answer(&mut self, station: Station, line: &[u8]) -> Station
        requires { length self.old + 80 * (length line.now + 1) ≤ N }
        ensures station { result ≡ (served_of line.now station).station }
        ensures printed { self.new ≡ self.old ++ (served_of line.now station).text }
        ensures short { length (served_of line.now station).text ≤ 80 * (length line.now + 1) }
    {
        let replied = station.answer(line, &mut self.array[..], self.filled);
        self.filled = replied.end;
        replied.station
    }
}
