// host's functions as C calls them: each export hands its arguments on to the one of its name and states its clause again.
#![tactic(auto)]

ghost use Rattle.std.specs.Prelude.{◌≡◌, ltb};
ghost use Rattle.motion.specs.Bodies.{sensing};
ghost use Rattle.host.specs.Host.{receiver, mover, memory, done, spoke, made_in, byte_in, listen_in, tick_in, advance_in, run_in, stop_in, plunger_in, exact_in, ready_in, error_in, check_in};

#[unsafe(no_mangle)]
pub extern "C" fn pipettor_make(
    framing: u32,
    number: u32,
    address: &mut [u8; 1],
    line: &mut [u8; 4],
    count: &mut [u32; 1],
    frame: &mut [u8; 320],
    wide: &mut [u64; 8],
    words: &mut [u32; 26],
    small: &mut [u8; 4],
    text: &mut [u8; 256],
) -> u64
    ensures { done (memory address.new (receiver line.new count.new frame.new) (mover wide.new words.new small.new text.new)) result ≡ made_in framing number (memory address.old (receiver line.old count.old frame.old) (mover wide.old words.old small.old text.old)) }
{
    host::pipettor_make(
        framing, number, address, line, count, frame, wide, words, small, text,
    )
}

#[unsafe(no_mangle)]
pub extern "C" fn pipettor_byte(
    b: u8,
    address: &mut [u8; 1],
    line: &mut [u8; 4],
    count: &mut [u32; 1],
    frame: &mut [u8; 320],
    wide: &mut [u64; 8],
    words: &mut [u32; 26],
    small: &mut [u8; 4],
    text: &mut [u8; 256],
    buf: &mut [u8],
) -> u64
    ensures { spoke (memory address.new (receiver line.new count.new frame.new) (mover wide.new words.new small.new text.new)) buf.new result ≡ byte_in b buf.old (memory address.old (receiver line.old count.old frame.old) (mover wide.old words.old small.old text.old)) }
{
    host::pipettor_byte(
        b, address, line, count, frame, wide, words, small, text, buf,
    )
}

#[unsafe(no_mangle)]
pub extern "C" fn pipettor_listen(
    bytes: &[u8],
    line: &mut [u8; 4],
    count: &mut [u32; 1],
    frame: &mut [u8; 320],
) -> u64
    ensures { done (receiver line.new count.new frame.new) result ≡ listen_in bytes.now (receiver line.old count.old frame.old) }
{
    host::pipettor_listen(bytes, line, count, frame)
}

#[unsafe(no_mangle)]
pub extern "C" fn pipettor_tick(
    tip: u8,
    reading: i32,
    wide: &mut [u64; 8],
    words: &mut [u32; 26],
    small: &mut [u8; 4],
    text: &[u8; 256],
) -> u64
    ensures { done (mover wide.new words.new small.new text.now) result ≡ tick_in (sensing (ltb 0 tip) reading) (mover wide.old words.old small.old text.now) }
{
    host::pipettor_tick(tip, reading, wide, words, small, text)
}

#[unsafe(no_mangle)]
pub extern "C" fn pipettor_advance(
    n: u32,
    tip: u8,
    reading: i32,
    wide: &mut [u64; 8],
    words: &mut [u32; 26],
    small: &mut [u8; 4],
    text: &[u8; 256],
) -> u64
    ensures { done (mover wide.new words.new small.new text.now) result ≡ advance_in n (sensing (ltb 0 tip) reading) (mover wide.old words.old small.old text.now) }
{
    host::pipettor_advance(n, tip, reading, wide, words, small, text)
}

#[unsafe(no_mangle)]
pub extern "C" fn pipettor_run(
    n: u32,
    tip: u8,
    reading: i32,
    wide: &mut [u64; 8],
    words: &mut [u32; 26],
    small: &mut [u8; 4],
    text: &[u8; 256],
) -> u64
    ensures { done (mover wide.new words.new small.new text.now) result ≡ run_in n (sensing (ltb 0 tip) reading) (mover wide.old words.old small.old text.now) }
{
    host::pipettor_run(n, tip, reading, wide, words, small, text)
}

#[unsafe(no_mangle)]
pub extern "C" fn pipettor_stop(
    wide: &mut [u64; 8],
    words: &mut [u32; 26],
    small: &mut [u8; 4],
    text: &[u8; 256],
) -> u64
    ensures { done (mover wide.new words.new small.new text.now) result ≡ stop_in (mover wide.old words.old small.old text.now) }
{
    host::pipettor_stop(wide, words, small, text)
}

#[unsafe(no_mangle)]
pub extern "C" fn pipettor_plunger(wide: &[u64; 8], words: &[u32; 26], small: &[u8; 4]) -> u64
    ensures { result ≡ plunger_in wide.now words.now small.now }
{
    host::pipettor_plunger(wide, words, small)
}

#[unsafe(no_mangle)]
pub extern "C" fn pipettor_exact(wide: &[u64; 8], words: &[u32; 26], small: &[u8; 4]) -> u64
    ensures { result ≡ exact_in wide.now words.now small.now }
{
    host::pipettor_exact(wide, words, small)
}

#[unsafe(no_mangle)]
pub extern "C" fn pipettor_ready(wide: &[u64; 8], words: &[u32; 26], small: &[u8; 4]) -> u64
    ensures { result ≡ ready_in wide.now words.now small.now }
{
    host::pipettor_ready(wide, words, small)
}

#[unsafe(no_mangle)]
pub extern "C" fn pipettor_error(wide: &[u64; 8], words: &[u32; 26], small: &[u8; 4]) -> u64
    ensures { result ≡ error_in wide.now words.now small.now }
{
    host::pipettor_error(wide, words, small)
}

#[unsafe(no_mangle)]
pub extern "C" fn pipettor_check(
    address: &[u8; 1],
    line: &[u8; 4],
    count: &[u32; 1],
    frame: &[u8; 320],
    wide: &[u64; 8],
    words: &[u32; 26],
    small: &[u8; 4],
    text: &[u8; 256],
) -> u64
    ensures { result ≡ check_in (memory address.now (receiver line.now count.now frame.now) (mover wide.now words.now small.now text.now)) }
{
    host::pipettor_check(address, line, count, frame, wide, words, small, text)
}
