// A controller's numbers in memory that the host keeps: each at its own width.
#![tactic(auto)]

pub mod progress;
pub mod receiver;
pub mod sound;

ghost use Rattle.std.specs.Prelude.{◌≡◌};
ghost use Rattle.line.specs.declared.Framing.TheVariants as F;
ghost use Rattle.line.specs.Wire.{data_byte};
ghost use Rattle.image.specs.Image.{held_in, line_in, is_line, LineWritten, collects, kept, collect_of, progress_at, settings_in, body_in, loops_in, course_in, pose_in, is_pose, idle, wide_of, words_of, small_of, PoseWritten};

use buffer::course::{Course, Loops, Mark, State};
use line::{Deed, Line};
use machine::step::Core;
use motion::Body;
use progress::Progress;
use receiver::Held;
use settings::{Detection, Settings};

// A device without its text.
#[derive(Clone, Copy)]
pub struct Pose {
    pub tip: bool,
    pub core: Core,
}

fn held_in(line: &[u8; 4], count: &[u32; 1]) -> Held
    ensures { result ≡ held_in line.now count.now }
{
    Held {
        tag: line[0],
        owner: line[1],
        sequence: line[2],
        sum: line[3],
        count: count[0],
    }
}

// The receiver's numbers, read.
#[tactic(auto, unfolding(crate::specs::Image::line_in))]
pub fn line_in(line: &[u8; 4], count: &[u32; 1]) -> Line
    ensures { result ≡ line_in line.now count.now }
{
    Line::from(held_in(line, count))
}

// Whether they are a receiver's.
#[tactic(auto, unfolding(crate::specs::Image::is_line, crate::specs::Image::line_in, crate::specs::Receiver::same_held))]
pub fn is_line(line: &[u8; 4], count: &[u32; 1]) -> bool
    ensures { result ≡ is_line line.now count.now }
{
    let held = held_in(line, count);
    Held::from(Line::from(held)) == held
}

// And written.
pub fn put_line(l: Line, line: &mut [u8; 4], count: &mut [u32; 1])
    ensures { LineWritten l line.new count.new }
{
    let held = Held::from(l);
    *line = [held.tag, held.owner, held.sequence, held.sum];
    *count = [held.count];
}

// A data byte, as a DT frame has them.
#[tactic(auto, unfolding(line::specs::Wire::data_byte))]
fn is_datum(b: u8) -> bool
    ensures { result ≡ data_byte F.Dt b }
{
    b != b'/' && line::printable(b)
}

#[tactic(auto, unfolding(crate::specs::Image::collects))]
fn collects(b: u8, line: &[u8; 4], count: &[u32; 1]) -> bool
    ensures { result ≡ collects b line.now count.now }
{
    line[0] == 2 && line[2] == 0 && line[3] == 0 && is_datum(b) && count[0] < 320
}

// What most bytes are, a data byte of a DT frame in hand: it is kept and counted.
#[tactic(auto, using(crate::proofs::Collecting::one_more_fits), unfolding(crate::specs::Image::collect_of, line::specs::Wire::keep_of))]
pub fn collect(b: u8, line: &mut [u8; 4], count: &mut [u32; 1], frame: &mut [u8; 320]) -> bool
    ensures { kept line.new count.new frame.new result ≡ collect_of b line.old count.old frame.old }
{
    if !collects(b, line, count) {
        return false;
    }
    let n = count[0];
    line::keep(frame, Deed::Keep(n as usize), b);
    *line = [2, line[1], 0, 0];
    *count = [n + 1];
    true
}

fn progress_at(words: &[u32; 26], small: &[u8; 4]) -> Progress
    ensures { result ≡ progress_at words.now small.now }
{
    Progress {
        tag: small[1],
        from: words[20],
        goal: words[21],
        speed: words[22],
        ticks: words[23],
        zero: words[24],
        count: words[25],
    }
}

fn settings_in(words: &[u32; 26]) -> Settings
    ensures { result ≡ settings_in words.now }
{
    Settings {
        top: words[1],
        start: words[2],
        cutoff: words[3],
        acceleration: words[4],
        deceleration: words[5],
        backlash: words[6],
        rate: words[7],
        detection: Detection {
            threshold: words[8],
            duration: words[9],
            place: words[10],
            speed: words[11],
            most: words[12],
            mode: words[13],
            interval: words[14],
        },
    }
}

fn body_in(wide: &[u64; 8], words: &[u32; 26], small: &[u8; 4]) -> Body
    ensures { result ≡ body_in wide.now words.now small.now }
{
    Body {
        plunger: words[0],
        exact: wide[0],
        initialised: 0 < small[0],
        settings: settings_in(words),
    }
}

fn loops_in(wide: &[u64; 8], words: &[u32; 26]) -> Loops
    ensures { result ≡ loops_in wide.now words.now }
{
    Loops {
        depth: wide[3] as usize,
        first: Mark {
            start: wide[4] as usize,
            passes: words[15],
        },
        second: Mark {
            start: wide[5] as usize,
            passes: words[16],
        },
        third: Mark {
            start: wide[6] as usize,
            passes: words[17],
        },
        fourth: Mark {
            start: wide[7] as usize,
            passes: words[18],
        },
    }
}

fn course_in(wide: &[u64; 8], words: &[u32; 26], small: &[u8; 4]) -> Course
    ensures { result ≡ course_in wide.now words.now small.now }
{
    Course {
        at: wide[1] as usize,
        len: wide[2] as usize,
        loops: loops_in(wide, words),
        state: State::from(progress_at(words, small)),
        error: small[2],
        misread: words[19],
    }
}

// The device's numbers, read.
#[tactic(auto, unfolding(crate::specs::Image::pose_in))]
pub fn pose_in(wide: &[u64; 8], words: &[u32; 26], small: &[u8; 4]) -> Pose
    ensures { result ≡ pose_in wide.now words.now small.now }
{
    Pose {
        tip: 0 < small[3],
        core: Core {
            body: body_in(wide, words, small),
            course: course_in(wide, words, small),
        },
    }
}

// Whether nothing runs, by the tag, with a tip of the last tick that is one.
#[tactic(auto, unfolding(crate::specs::Image::idle))]
pub fn is_idle(small: &[u8; 4]) -> bool
    ensures { result ≡ idle small.now }
{
    small[1] < 4 && small[3] <= 1
}

impl Pose {
    // Whether what it was read from are a device's numbers.
    #[tactic(auto, unfolding(crate::specs::Image::is_pose, crate::specs::Progress::same_progress))]
    pub fn is_written(self, words: &[u32; 26], small: &[u8; 4]) -> bool
        ensures { result ≡ is_pose self words.now small.now }
    {
        let just = Progress::from(self.core.course.state);
        just == progress_at(words, small)
            && small[0] <= 1
            && small[3] <= 1
            && sound::sound(self.core)
    }

    fn put_wide(self, wide: &mut [u64; 8])
        ensures { wide.new ≡ wide_of self }
    {
        let course = self.core.course;
        let loops = course.loops;
        *wide = [
            self.core.body.exact,
            course.at as u64,
            course.len as u64,
            loops.depth as u64,
            loops.first.start as u64,
            loops.second.start as u64,
            loops.third.start as u64,
            loops.fourth.start as u64,
        ];
    }

    fn put_words(self, words: &mut [u32; 26])
        ensures { words.new ≡ words_of self }
    {
        let Core { body, course } = self.core;
        let s = body.settings;
        let d = s.detection;
        let loops = course.loops;
        let g = Progress::from(course.state);
        *words = [
            body.plunger,
            s.top,
            s.start,
            s.cutoff,
            s.acceleration,
            s.deceleration,
            s.backlash,
            s.rate,
            d.threshold,
            d.duration,
            d.place,
            d.speed,
            d.most,
            d.mode,
            d.interval,
            loops.first.passes,
            loops.second.passes,
            loops.third.passes,
            loops.fourth.passes,
            course.misread,
            g.from,
            g.goal,
            g.speed,
            g.ticks,
            g.zero,
            g.count,
        ];
    }

    fn put_small(self, small: &mut [u8; 4])
        ensures { small.new ≡ small_of self }
    {
        let Core { body, course } = self.core;
        let g = Progress::from(course.state);
        *small = [
            u8::from(body.initialised),
            g.tag,
            course.error,
            u8::from(self.tip),
        ];
    }

    // And written.
    pub fn put(self, wide: &mut [u64; 8], words: &mut [u32; 26], small: &mut [u8; 4])
        ensures { PoseWritten self wide.new words.new small.new }
    {
        self.put_wide(wide);
        self.put_words(words);
        self.put_small(small);
    }
}
