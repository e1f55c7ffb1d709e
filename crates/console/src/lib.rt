// The bench program and the rig: lines in, lines out, after each read. From the reader's bytes to the writer's all is proved: where neither fails, the writer has got what the program prints for all that the reader had.
// What stays outside is the two standard streams: no contract can say which bytes a system gives or takes.
#![tactic(auto)]

ghost use Rattle.std.specs.Prelude.{◌≡◌, ◌+◌, ◌*◌, ◌≤◌, true, [], length, OnOk, IfSome};
ghost use Rattle.std.specs.Io.KnownBytes.{Appends};
ghost use Rattle.console.specs.Eaten.{eaten_of, program_of, brought as Eaten·brought, emptied, read_of, Sound, Eats, Finishes, SomeRead, Ended, Succeeded};

mod bytes;

use bytes::Bytes;
use desk::Desk;
use station::Station;
use std::io::{self, Read, Write};

// The program's memory: a station, the line that isn't complete yet, and what is to be written. Of a line over 400 bytes the first 401 are kept: they tell that it is one.
#[derive(Drop)]
struct Memory {
    station: Station,
    line: Bytes<401>,
    out: Bytes<196608>,
}

// Whether a read was the last, and whether it went well.
#[derive(Clone, Copy)]
struct Round {
    over: bool,
    read: bool,
}

// How the program ended: its station, whether the input was over, whether the last read went well, whether the last write took all, and how many reads came before the last.
#[derive(Clone, Copy)]
pub struct End {
    pub station: Station,
    pub over: bool,
    pub read: bool,
    pub wrote: bool,
    pub reads: u64,
}

// What a read left at the start of the chunk; one that failed brought nothing.
#[tactic(auto, using(crate::proofs::Program::brought_some, crate::proofs::Program::brought_none))]
fn brought<'a>(got: &io::Result<usize>, chunk: &'a [u8]) -> &'a [u8]
    ensures { result.now ≡ Eaten·brought got.now chunk.now }
{
    match got {
        Ok(n) => &chunk[..(*n).min(chunk.len())],
        Err(_) => &[],
    }
}

impl Memory {
    // A line that has ended is answered and nothing of it is kept; its answer is laid behind those before it.
    fn finish(&mut self, ended: bool)
        requires sound { Sound self.old }
        requires room { length self.old.out + 80 * (length self.old.line + 1) ≤ 196608 }
        ensures { Finishes ended self.old self.new }
    {
        if ended {
            self.station = self.out.answer(self.station, self.line.as_slice());
            self.line.clear();
        }
    }

    // A chunk of the input, line by line; a `split` at each LF would give a line more, behind the last of them. Each byte of a line, its LF too, makes for 80 bytes of output at most.
    #[tactic(auto, using(crate::proofs::Lines::begins))]
    fn eat(&mut self, chunk: &[u8])
        requires sound { Sound self.old }
        requires nothing_printed { self.old.out ≡ [] }
        requires chunk_len_bound { length chunk.now ≤ 2048 }
        ensures { Eats (eaten_of chunk.now) self.old self.new }
    {
        let mut from = 0;
        while from < chunk.len() {
            let end = desk::line_end(chunk, from);
            self.line.put(&chunk[from..end]);
            self.finish(end < chunk.len());
            from = end + 1;
        }
    }

    // What a read brought; nothing is the input's end: a line is "ended by LF or the input's end (nothing after the last LF is no line)".
    fn take_in(&mut self, bytes: &[u8])
        requires sound { Sound (emptied self.old) }
        requires bytes_len_bound { length bytes.now ≤ 2048 }
        ensures { Eats (read_of bytes.now) (emptied self.old) self.new }
    {
        self.out.clear();
        if bytes.is_empty() {
            let begun = 0 < self.line.len();
            self.finish(begun);
        } else {
            self.eat(bytes);
        }
    }

    // The next read.
    fn read_chunk<R: Read>(&mut self, input: &mut R) -> Round
        requires { Sound (emptied self.old) }
        ensures { SomeRead (R.remaining input.old) (R.remaining input.new) (emptied self.old) self.new result.over result.read }
    {
        let mut chunk = [0u8; 2048];
        let got = input.read(&mut chunk);
        let bytes = brought(&got, &chunk);
        self.take_in(bytes);
        Round {
            over: bytes.is_empty(),
            read: got.is_ok(),
        }
    }
}

// What a read has led to is written at once.
fn write_out<W: Write>(output: &mut W, bytes: &[u8]) -> io::Result<()>
    ensures { OnOk result (Appends (W.contents output.old) (W.contents output.new) bytes.now) }
{
    output.write_all(bytes)?;
    output.flush()
}

// "It reads lines .. from standard input. .. Address 1." The program ends with its input, or where a write fails.
pub fn serve<R: Read, W: Write>(desk: Desk, input: &mut R, output: &mut W) -> End
    ensures ended { Ended desk (R.remaining input.old) (R.remaining input.new) (W.contents output.old) (W.contents output.new) result }
    ensures whole { Succeeded result → IfSome (R.remaining input.old) (λ bytes. Appends (W.contents output.old) (W.contents output.new) (program_of desk true bytes).printed) }
{
    let mut memory = Memory {
        station: Station::new(desk),
        line: Bytes::new(),
        out: Bytes::new(),
    };
    for reads in 0..u64::MAX {
        let Round { over, read } = memory.read_chunk(input);
        let wrote = write_out(output, memory.out.as_slice()).is_ok();
        if over || !wrote {
            return End {
                station: memory.station,
                over,
                read,
                wrote,
                reads,
            };
        }
    }
    End {
        station: memory.station,
        over: false,
        read: true,
        wrote: true,
        reads: u64::MAX,
    }
}
