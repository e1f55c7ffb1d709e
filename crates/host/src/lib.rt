// The controller for hosts in C and Rust: every call is lent the memory that the host keeps it in, and refuses memory that holds no controller. No function has a premise. host_c exports them to C.
#![tactic(auto)]

ghost use Rattle.std.specs.Prelude.{◌≡◌, ltb, length, IfSome};
ghost use Rattle.motion.specs.Bodies.{sensing};
ghost use Rattle.machine.specs.Valid.{Valid};
ghost use Rattle.image.specs.Image.{line_in};
ghost use Rattle.host.specs.Host.{receiver, mover, memory, done, spoke, address_number, address_in, line_read, pose_read, said_code, news_code, turned_pose, gone_pose, ran_pose, halted_pose, used_code, framing_of, made_in, byte_in, ended_by, address_held, listen_in, tick_in, advance_in, run_in, stop_in, plunger_in, exact_in, ready_in, error_in, check_in};

use command::refusal;
use image::Pose;
use line::{Deed, Framing, Line};
use machine::step;
use machine::step::{News, Stepped};
use motion::Sense;
use pipettor::address::Address;
use pipettor::lent::{Parts, Spoke};
use pipettor::{Controller, Said};

// What no other answer is: the top bit is set. Numbers, since C reads them.
pub const S1: u64 = 9_223_372_036_854_775_809;

pub const S2: u64 = 9_223_372_036_854_775_810;

pub const S3: u64 = 9_223_372_036_854_775_811;

pub const BROKEN: u64 = 9_223_372_036_854_776_064;

pub const UNFRAMED: u64 = 9_223_372_036_854_776_065;

// The header's numbers, since C hands them over: a function, as neither `Framing` nor a number is this crate's.
#[tactic(auto, unfolding(crate::specs::Host::framing_of))]
fn framing_of(n: u32) -> Option<Framing>
    ensures { result ≡ framing_of n }
{
    match n {
        0 => Some(Framing::Dt),
        1 => Some(Framing::Oem),
        _ => None,
    }
}

// The header's number of an address.
fn address_number(a: Address) -> u8
    ensures { result ≡ address_number a }
{
    match a {
        Address::One => 1,
        Address::Two => 2,
        Address::Three => 3,
        Address::Four => 4,
        Address::Five => 5,
        Address::Six => 6,
        Address::Seven => 7,
        Address::Eight => 8,
        Address::Nine => 9,
    }
}

#[tactic(auto, unfolding(crate::specs::Host::address_in))]
fn address_in(address: &[u8; 1]) -> Result<Address, pipettor::address::S2>
    ensures { result ≡ address_in address.now }
{
    Address::try_from(u32::from(address[0]))
}

// The receiver's line, if what is read is one's, written just so.
#[tactic(auto, unfolding(crate::specs::Host::line_read))]
fn line_read(line: &[u8; 4], count: &[u32; 1]) -> Option<Line>
    ensures { result ≡ line_read line.now count.now }
{
    if image::is_line(line, count) {
        Some(image::line_in(line, count))
    } else {
        None
    }
}

// The device but its text, if what is read is one's, written just so. Laid out at each place: a `Pose` that is handed back is copied whole, twice.
#[inline(always)]
#[tactic(auto, unfolding(crate::specs::Host::pose_read))]
fn pose_read(wide: &[u64; 8], words: &[u32; 26], small: &[u8; 4]) -> Option<Pose>
    ensures is { result ≡ pose_read wide.now words.now small.now }
    ensures valid { IfSome result (λ p. Valid p.core) }
{
    let pose = image::pose_in(wide, words, small);
    if pose.is_written(words, small) {
        Some(pose)
    } else {
        None
    }
}

fn code(said: Said) -> u64
    ensures { result ≡ said_code said }
{
    match said {
        Ok(None) => 0,
        Ok(Some(n)) => n as u64,
        Err(_) => S1,
    }
}

// What ticks tell, above the count.
#[tactic(auto, unfolding(crate::specs::Host::news_code))]
fn news_code(n: u32, news: News) -> u64
    ensures { result ≡ news_code n news }
{
    let number = u64::from(refusal::number(news.failed));
    let eject = u64::from(news.eject);
    u64::from(n) + (number * 4_294_967_296 + eject * 68_719_476_736)
}

fn used_code(used: Result<u32, machine::S3>, news: News) -> u64
    ensures { result ≡ used_code used news }
{
    match used {
        Ok(n) => news_code(n, news),
        Err(_) => S3,
    }
}

// A device's numbers after ticks, and what they tell.
#[derive(Clone, Copy)]
pub struct Gone {
    pub pose: Pose,
    pub news: News,
}

// The same of a run.
#[derive(Clone, Copy)]
pub struct Run {
    pub gone: Gone,
    pub used: Result<u32, machine::S3>,
}

// After so many ticks, which left this.
fn turned(p: Pose, ticks: u32, sense: Sense, stepped: Stepped) -> Gone
    ensures { result ≡ turned_pose ticks sense p stepped }
{
    Gone {
        pose: Pose {
            tip: machine::tip_after(ticks, sense, p.tip),
            core: stepped.core,
        },
        news: stepped.news,
    }
}

// The next three do what a Device's methods do, over a text that stays where the host keeps it.
#[tactic(auto, using(crate::proofs::Calls::is_gone))]
fn advanced(p: Pose, n: u32, sense: Sense, text: &[u8]) -> Gone
    requires valid { Valid p.core }
    requires text_len { length text.now ≡ 256 }
    ensures { result ≡ gone_pose n sense text.now p }
{
    turned(p, n, sense, step::run(p.core, text, n, sense).stepped)
}

#[tactic(auto, using(crate::proofs::Calls::too_many, crate::proofs::Calls::is_ran))]
fn ran(p: Pose, n: u32, sense: Sense, text: &[u8]) -> Run
    requires valid { Valid p.core }
    requires text_len { length text.now ≡ 256 }
    ensures { result ≡ ran_pose n sense text.now p }
{
    if 60_000 < n {
        return Run {
            gone: Gone {
                pose: p,
                news: News::none(),
            },
            used: Err(machine::S3),
        };
    }
    let ran = step::run(p.core, text, n, sense);
    Run {
        gone: turned(p, ran.used, sense, ran.stepped),
        used: Ok(ran.used),
    }
}

#[tactic(auto, unfolding(crate::specs::Host::halted_pose, machine::specs::Device::halted_of))]
fn stopped(p: Pose) -> Pose
    ensures { result ≡ halted_pose p }
{
    Pose {
        core: p.core.stop(),
        ..p
    }
}

// A controller of a framing, 0 for DT and 1 for OEM, and of an address of 1 to 9.
#[tactic(auto, unfolding(crate::specs::Host::made_by, crate::specs::Host::encode_of, crate::specs::Host::received, crate::specs::Host::moved))]
pub fn pipettor_make(
    framing: u32,
    number: u32,
    address: &mut [u8; 1],
    line: &mut [u8; 4],
    count: &mut [u32; 1],
    frame: &mut [u8; 320],
    wide: &mut [u64; 8],
    words: &mut [u32; 26],
    small: &mut [u8; 4],
    text: &mut [u8; 256],
) -> u64
    ensures { done (memory address.new (receiver line.new count.new frame.new) (mover wide.new words.new small.new text.new)) result ≡ made_in framing number (memory address.old (receiver line.old count.old frame.old) (mover wide.old words.old small.old text.old)) }
{
    let Some(framing) = framing_of(framing) else {
        return UNFRAMED;
    };
    let Ok(owner) = Address::try_from(number) else {
        return S2;
    };
    let made = Controller::fresh(framing, owner);
    let pose = Pose {
        tip: made.device.tip,
        core: made.device.core,
    };
    // An array goes into what is lent by way of a variable.
    let in_hand = made.frame;
    let buffered = made.device.text;
    *address = [address_number(made.address)];
    *frame = in_hand;
    *text = buffered;
    image::put_line(made.line, line, count);
    pose.put(wide, words, small);
    0
}

// A byte that completes a frame, the line being what it was before it.
#[tactic(auto, using(crate::proofs::Calls::no_address, crate::proofs::Calls::no_device))]
fn ended(
    b: u8,
    l: Line,
    address: &mut [u8; 1],
    line: &mut [u8; 4],
    count: &mut [u32; 1],
    frame: &mut [u8; 320],
    wide: &mut [u64; 8],
    words: &mut [u32; 26],
    small: &mut [u8; 4],
    text: &mut [u8; 256],
    buf: &mut [u8],
) -> u64
    requires { l ≡ line_in line.old count.old }
    ensures { spoke (memory address.new (receiver line.new count.new frame.new) (mover wide.new words.new small.new text.new)) buf.new result ≡ ended_by (address_held (memory address.old (receiver line.old count.old frame.old) (mover wide.old words.old small.old text.old))) b buf.old (memory address.old (receiver line.old count.old frame.old) (mover wide.old words.old small.old text.old)) }
{
    let Ok(owner) = address_in(address) else {
        return BROKEN;
    };
    let Some(pose) = pose_read(wide, words, small) else {
        return BROKEN;
    };
    let parts = Parts {
        address: owner,
        line: l,
        tip: pose.tip,
        core: pose.core,
    };
    let Spoke { parts, said } = parts.byte(b, frame, text, buf);
    let left = Pose {
        tip: parts.tip,
        core: parts.core,
    };
    *address = [address_number(parts.address)];
    image::put_line(parts.line, line, count);
    left.put(wide, words, small);
    code(said)
}

// One byte received, with a buffer lent for the answer: 0, or how many bytes are answered. All but the end of a frame needs the receiver's numbers alone.
#[tactic(auto, using(crate::proofs::Calls::short_buffer, crate::proofs::Calls::frame_ends))]
pub fn pipettor_byte(
    b: u8,
    address: &mut [u8; 1],
    line: &mut [u8; 4],
    count: &mut [u32; 1],
    frame: &mut [u8; 320],
    wide: &mut [u64; 8],
    words: &mut [u32; 26],
    small: &mut [u8; 4],
    text: &mut [u8; 256],
    buf: &mut [u8],
) -> u64
    ensures { spoke (memory address.new (receiver line.new count.new frame.new) (mover wide.new words.new small.new text.new)) buf.new result ≡ byte_in b buf.old (memory address.old (receiver line.old count.old frame.old) (mover wide.old words.old small.old text.old)) }
{
    if buf.len() < 32 {
        return S1;
    }
    if image::collect(b, line, count, frame) {
        return 0;
    }
    let Some(l) = line_read(line, count) else {
        return BROKEN;
    };
    let heard = l.hear(b);
    match heard.deed {
        Deed::Nothing | Deed::Keep(_) => {
            line::keep(frame, heard.deed, b);
            image::put_line(heard.line, line, count);
            0
        }
        Deed::Frame(_, _) => ended(
            b, l, address, line, count, frame, wide, words, small, text, buf,
        ),
    }
}

// Bytes up to one that completes a frame, which is left: how many were taken.
#[tactic(auto, unfolding(crate::specs::Host::listen_in, crate::specs::Host::line_read, crate::specs::Host::received))]
pub fn pipettor_listen(
    bytes: &[u8],
    line: &mut [u8; 4],
    count: &mut [u32; 1],
    frame: &mut [u8; 320],
) -> u64
    ensures { done (receiver line.new count.new frame.new) result ≡ listen_in bytes.now (receiver line.old count.old frame.old) }
{
    let Some(l) = line_read(line, count) else {
        return BROKEN;
    };
    let taken = pipettor::receive(l, frame, bytes);
    image::put_line(taken.line, line, count);
    taken.n as u64
}

// A tick of 10 ms, with what the host senses.
#[tactic(auto, using(crate::proofs::Calls::is_idle_tick, crate::proofs::Calls::not_ticked))]
pub fn pipettor_tick(
    tip: u8,
    reading: i32,
    wide: &mut [u64; 8],
    words: &mut [u32; 26],
    small: &mut [u8; 4],
    text: &[u8; 256],
) -> u64
    ensures { done (mover wide.new words.new small.new text.now) result ≡ tick_in (sensing (ltb 0 tip) reading) (mover wide.old words.old small.old text.now) }
{
    let sense = Sense {
        tip: 0 < tip,
        reading,
    };
    if image::is_idle(small) {
        small[3] = u8::from(sense.tip);
        return 0;
    }
    let Some(pose) = pose_read(wide, words, small) else {
        return BROKEN;
    };
    let gone = advanced(pose, 1, sense, text);
    gone.pose.put(wide, words, small);
    news_code(0, gone.news)
}

// Exactly n ticks, ready or not.
#[tactic(auto, using(crate::proofs::Calls::not_advanced))]
pub fn pipettor_advance(
    n: u32,
    tip: u8,
    reading: i32,
    wide: &mut [u64; 8],
    words: &mut [u32; 26],
    small: &mut [u8; 4],
    text: &[u8; 256],
) -> u64
    ensures { done (mover wide.new words.new small.new text.now) result ≡ advance_in n (sensing (ltb 0 tip) reading) (mover wide.old words.old small.old text.now) }
{
    let sense = Sense {
        tip: 0 < tip,
        reading,
    };
    let Some(pose) = pose_read(wide, words, small) else {
        return BROKEN;
    };
    let gone = advanced(pose, n, sense, text);
    gone.pose.put(wide, words, small);
    news_code(0, gone.news)
}

// Up to n ticks, until ready: how many were used, and what they tell.
#[tactic(auto, using(crate::proofs::Calls::not_run))]
pub fn pipettor_run(
    n: u32,
    tip: u8,
    reading: i32,
    wide: &mut [u64; 8],
    words: &mut [u32; 26],
    small: &mut [u8; 4],
    text: &[u8; 256],
) -> u64
    ensures { done (mover wide.new words.new small.new text.now) result ≡ run_in n (sensing (ltb 0 tip) reading) (mover wide.old words.old small.old text.now) }
{
    let sense = Sense {
        tip: 0 < tip,
        reading,
    };
    let Some(pose) = pose_read(wide, words, small) else {
        return BROKEN;
    };
    let ran = ran(pose, n, sense, text);
    ran.gone.pose.put(wide, words, small);
    used_code(ran.used, ran.gone.news)
}

// T, from the host.
#[tactic(auto, using(crate::proofs::Calls::not_stopped))]
pub fn pipettor_stop(
    wide: &mut [u64; 8],
    words: &mut [u32; 26],
    small: &mut [u8; 4],
    text: &[u8; 256],
) -> u64
    ensures { done (mover wide.new words.new small.new text.now) result ≡ stop_in (mover wide.old words.old small.old text.now) }
{
    let Some(pose) = pose_read(wide, words, small) else {
        return BROKEN;
    };
    stopped(pose).put(wide, words, small);
    0
}

// Where the plunger is, in increments. This and the next three are one statement each behind a test; a function that takes it as a closure would be as long.
#[tactic(auto, unfolding(crate::specs::Host::tell_in, crate::specs::Host::pose_read))]
pub fn pipettor_plunger(wide: &[u64; 8], words: &[u32; 26], small: &[u8; 4]) -> u64
    ensures { result ≡ plunger_in wide.now words.now small.now }
{
    let Some(pose) = pose_read(wide, words, small) else {
        return BROKEN;
    };
    u64::from(pose.core.body.plunger)
}

// The exact position, in millionths of an increment.
#[tactic(auto, unfolding(crate::specs::Host::tell_in, crate::specs::Host::pose_read))]
pub fn pipettor_exact(wide: &[u64; 8], words: &[u32; 26], small: &[u8; 4]) -> u64
    ensures { result ≡ exact_in wide.now words.now small.now }
{
    let Some(pose) = pose_read(wide, words, small) else {
        return BROKEN;
    };
    pose.core.body.exact
}

// 1 where it is ready, 0 where not.
#[tactic(auto, unfolding(crate::specs::Host::tell_in, crate::specs::Host::pose_read))]
pub fn pipettor_ready(wide: &[u64; 8], words: &[u32; 26], small: &[u8; 4]) -> u64
    ensures { result ≡ ready_in wide.now words.now small.now }
{
    let Some(pose) = pose_read(wide, words, small) else {
        return BROKEN;
    };
    u64::from(pose.core.ready())
}

// The number of the last error, 0 where there is none.
#[tactic(auto, unfolding(crate::specs::Host::tell_in, crate::specs::Host::pose_read))]
pub fn pipettor_error(wide: &[u64; 8], words: &[u32; 26], small: &[u8; 4]) -> u64
    ensures { result ≡ error_in wide.now words.now small.now }
{
    let Some(pose) = pose_read(wide, words, small) else {
        return BROKEN;
    };
    u64::from(pose.core.course.error)
}

// 0 where all of it is a controller from making and earlier calls, written just so.
#[tactic(auto, unfolding(crate::specs::Host::is_image, crate::specs::Host::pose_read, crate::specs::Host::addressed))]
pub fn pipettor_check(
    address: &[u8; 1],
    line: &[u8; 4],
    count: &[u32; 1],
    frame: &[u8; 320],
    wide: &[u64; 8],
    words: &[u32; 26],
    small: &[u8; 4],
    text: &[u8; 256],
) -> u64
    ensures { result ≡ check_in (memory address.now (receiver line.now count.now frame.now) (mover wide.now words.now small.now text.now)) }
{
    if address_in(address).is_ok()
        && image::is_line(line, count)
        && pose_read(wide, words, small).is_some()
    {
        0
    } else {
        BROKEN
    }
}
