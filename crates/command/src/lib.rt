// Commands: what stands at a place of a text, by 01's command table.
#![tactic(auto)]

pub mod refusal;

ghost use Rattle.std.specs.Prelude.{◌≡◌, ◌+◌, ◌^◌, ◌≤◌, ◌<◌};
ghost use Rattle.operand.specs.Number.{single_of};
ghost use Rattle.command.specs.Table.{letter_of, ranged_of, allowed, taken_of, whole_of, nanolitres_of, speed_of, flow_of, required, row_at, row_of, detail_of, aspect_of, volume_of, paced_of, slopes_of, compensation_of, command_of};
ghost use Rattle.command.specs.Command.{placed, command_at};

use operand::{Number, Pair};
use refusal::Misread;
use settings::{Aspect, Pace, Quantity, Range, Settings, Volume, units};

// A, P and D: to a place, up from here, down from here.
#[derive(Clone, Copy)]
pub enum Way {
    To,
    Up,
    Down,
}

#[derive(Clone, Copy)]
pub enum Command {
    // W: increments a second.
    Initialise(u16),
    Move(Way, Volume),
    // V, v and c: tenths of an increment a second.
    Speed(Pace, u32),
    // L.
    Slopes(u32, u32),
    // K.
    Backlash(u32),
    // b, and whether downwards.
    Compensate(u16, bool),
    // M: milliseconds.
    Delay(u32),
    // p: what is set, and to what.
    Set(Aspect, u16),
    // B, and whether it begins where the plunger is.
    Detect(bool),
    // E, and whether it does without a tip.
    Eject(bool),
    // g.
    Open,
    // G: passes, 0 for endless.
    Close(u32),
}

// A command and the place after it, or nothing where the text ends; or a refusal.
pub type Found = Result<Option<(Command, usize)>, Misread>;

// What a letter of the table stands for.
#[derive(Clone, Copy)]
pub enum Letter {
    Home,
    Volume(Way),
    Speed(Pace),
    Slopes,
    Backlash,
    Compensation,
    Delay,
    Aspect,
    Detect,
    Eject,
    Open,
    Close,
    Other,
}

// Why a letter and its operand text make no command.
#[derive(Clone, Copy)]
pub enum Malformed {
    NoLetter,
    // How many characters of the operand text were read.
    WrongOperand(usize),
}

impl From<u8> for Letter {
    ghost from_gives = { λ b l. l ≡ letter_of b };

    #[tactic(auto, unfolding(crate::specs::Table::letter_of))]
    fn from(b: u8) -> Letter
        ensures { result ≡ letter_of b }
    {
        match b {
            b'W' => Letter::Home,
            b'A' => Letter::Volume(Way::To),
            b'P' => Letter::Volume(Way::Up),
            b'D' => Letter::Volume(Way::Down),
            b'V' => Letter::Speed(Pace::Top),
            b'v' => Letter::Speed(Pace::Start),
            b'c' => Letter::Speed(Pace::Cutoff),
            b'L' => Letter::Slopes,
            b'K' => Letter::Backlash,
            b'b' => Letter::Compensation,
            b'M' => Letter::Delay,
            b'p' => Letter::Aspect,
            b'B' => Letter::Detect,
            b'E' => Letter::Eject,
            b'g' => Letter::Open,
            b'G' => Letter::Close,
            _ => Letter::Other,
        }
    }
}

// A number, if its range has it.
fn ranged(range: Range, n: u32) -> Option<u32>
    ensures { result ≡ ranged_of range n }
{
    if range.has(n) { Some(n) } else { None }
}

// A written number of at most k decimals, in units of the last of them.
#[tactic(auto, unfolding(crate::specs::Table::allowed))]
fn allow(k: usize, range: Range, thousandths: u32, decimals: usize) -> Option<u32>
    requires { k ≤ 3 }
    ensures { result ≡ allowed k range thousandths decimals }
{
    if k < decimals {
        return None;
    }
    let unit = 10u32.pow(3 - k as u32);
    ranged(range, thousandths / unit)
}

// A number of the table: the default where it is absent, else as written.
#[tactic(auto, unfolding(crate::specs::Table::taken_of))]
fn accept(k: usize, range: Range, usual: u32, n: Number) -> Option<u32>
    requires { k ≤ 3 }
    ensures { result ≡ taken_of k range usual n }
{
    match n {
        // 01: "An absent number takes its default without a range check."
        Number::Absent => Some(usual),
        Number::Is {
            thousandths,
            decimals,
        } => allow(k, range, thousandths, decimals),
        Number::Wrong(_) => None,
    }
}

// A number without a point.
// `whole`, `speed` and `detail` each hand one table of 01 to `accept`, by an index of its own; a trait over the three would be longer than they are.
#[tactic(auto, unfolding(crate::specs::Table::whole_of))]
fn whole(of: Quantity, n: Number) -> Option<u32>
    ensures { result ≡ whole_of of n }
{
    accept(0, Settings::range(of), Settings::usual(of), n)
}

// A volume in µL, as nL.
#[tactic(auto, unfolding(crate::specs::Table::nanolitres_of))]
fn nanolitres(n: Number) -> Option<u32>
    ensures { result ≡ nanolitres_of n }
{
    let of = Quantity::Nanolitres;
    accept(3, Settings::range(of), Settings::usual(of), n)
}

// A speed in increments a second, as tenths.
#[tactic(auto, unfolding(crate::specs::Table::speed_of))]
fn speed(of: Pace, n: Number) -> Option<u32>
    ensures { result ≡ speed_of of n }
{
    accept(1, Settings::speeds(of), Settings::usual_speed(of), n)
}

// A speed in µL a second, as tenths of an increment a second.
#[tactic(auto, unfolding(crate::specs::Table::flow_of, crate::specs::Table::in_tenths))]
fn flow(of: Pace, n: Number) -> Option<u32>
    ensures { result ≡ flow_of of n }
{
    match n {
        Number::Absent => Some(Settings::usual_speed(of)),
        Number::Is {
            thousandths,
            decimals,
        } => allow(3, Settings::flows(of), thousandths, decimals).map(units::tenths),
        Number::Wrong(_) => None,
    }
}

// The one number of a command.
fn single(of: Quantity, t: &[u8]) -> Result<u32, Malformed>
    ensures { result ≡ required (single_of t.now).read (whole_of of (single_of t.now).number) }
{
    let only = operand::only(t);
    whole(of, only.number).ok_or(Malformed::WrongOperand(only.read))
}

// A, P and D.
#[tactic(auto, unfolding(crate::specs::Table::volume_of, crate::specs::Table::in_unit, crate::specs::Table::made))]
fn volume(way: Way, pair: Pair) -> Result<Command, Malformed>
    ensures { result ≡ volume_of way pair }
{
    let wrong = Malformed::WrongOperand(pair.read);
    let micro = whole(Quantity::Choice, pair.second).ok_or(wrong)?;
    let volume = if micro == 0 {
        Volume::Increments(whole(Quantity::Increments, pair.first).ok_or(wrong)?)
    } else {
        Volume::Nanolitres(nanolitres(pair.first).ok_or(wrong)?)
    };
    Ok(Command::Move(way, volume))
}

// V, v and c.
#[tactic(auto, unfolding(crate::specs::Table::paced_of, crate::specs::Table::in_unit, crate::specs::Table::made))]
fn paced(pace: Pace, pair: Pair) -> Result<Command, Malformed>
    ensures { result ≡ paced_of pace pair }
{
    let wrong = Malformed::WrongOperand(pair.read);
    let micro = whole(Quantity::Choice, pair.second).ok_or(wrong)?;
    let tenths = if micro == 0 {
        speed(pace, pair.first)
    } else {
        flow(pace, pair.first)
    };
    Ok(Command::Speed(pace, tenths.ok_or(wrong)?))
}

// L.
#[tactic(auto, unfolding(crate::specs::Table::slopes_of, crate::specs::Table::both))]
fn slopes(pair: Pair) -> Result<Command, Malformed>
    ensures { result ≡ slopes_of pair }
{
    let wrong = Malformed::WrongOperand(pair.read);
    let up = whole(Quantity::Slope, pair.first).ok_or(wrong)?;
    let down = whole(Quantity::Slope, pair.second).ok_or(wrong)?;
    Ok(Command::Slopes(up, down))
}

// b.
#[tactic(auto, unfolding(crate::specs::Table::compensation_of, crate::specs::Table::both))]
fn compensation(pair: Pair) -> Result<Command, Malformed>
    ensures { result ≡ compensation_of pair }
{
    let wrong = Malformed::WrongOperand(pair.read);
    let by = whole(Quantity::Compensation, pair.first).ok_or(wrong)?;
    let way = whole(Quantity::Choice, pair.second).ok_or(wrong)?;
    Ok(Command::Compensate(by as u16, way == 1))
}

// p0 to p6.
#[tactic(auto, unfolding(crate::specs::Table::row_at))]
fn row_at(n: u32) -> Option<Aspect>
    ensures { result ≡ row_at n }
{
    match n {
        0 => Some(Aspect::Threshold),
        1 => Some(Aspect::Duration),
        2 => Some(Aspect::Place),
        3 => Some(Aspect::Speed),
        4 => Some(Aspect::Most),
        5 => Some(Aspect::Mode),
        6 => Some(Aspect::Interval),
        _ => None,
    }
}

// The first number of p: a whole one, and never absent.
#[tactic(auto, unfolding(crate::specs::Table::row_of))]
fn row_for(n: Number) -> Option<Aspect>
    ensures { result ≡ row_of n }
{
    match n {
        Number::Is {
            thousandths,
            decimals: 0,
        } => row_at(thousandths / 1000),
        _ => None,
    }
}

// Its second number.
#[tactic(auto, unfolding(crate::specs::Table::detail_of))]
fn detail(of: Aspect, n: Number) -> Option<u32>
    ensures { result ≡ detail_of of n }
{
    accept(0, Settings::aspects(of), Settings::usual_aspect(of), n)
}

// p.
#[tactic(auto, using(crate::proofs::Within::small_detail), unfolding(crate::specs::Table::aspect_of, crate::specs::Table::set_by, crate::specs::Table::made))]
fn aspect(pair: Pair) -> Result<Command, Malformed>
    ensures { result ≡ aspect_of pair }
{
    let wrong = Malformed::WrongOperand(pair.read);
    let of = row_for(pair.first).ok_or(wrong)?;
    let n = detail(of, pair.second).ok_or(wrong)?;
    Ok(Command::Set(of, n as u16))
}

// g takes no operand.
#[tactic(auto, unfolding(crate::specs::Table::command_of))]
fn opened(t: &[u8]) -> Result<Command, Malformed>
    ensures { result ≡ command_of Letter.Open t.now }
{
    if t.is_empty() {
        return Ok(Command::Open);
    }
    Err(Malformed::WrongOperand(0))
}

// What a letter and its operand text make: one match, since a closure for each letter would have to be named here too.
#[tactic(auto, unfolding(crate::specs::Table::command_of, crate::specs::Table::made))]
fn form(letter: Letter, t: &[u8]) -> Result<Command, Malformed>
    ensures { result ≡ command_of letter t.now }
{
    match letter {
        Letter::Home => Ok(Command::Initialise(single(Quantity::Home, t)? as u16)),
        Letter::Volume(way) => volume(way, operand::two(t)),
        Letter::Speed(pace) => paced(pace, operand::two(t)),
        Letter::Slopes => slopes(operand::two(t)),
        Letter::Backlash => Ok(Command::Backlash(single(Quantity::Backlash, t)?)),
        Letter::Compensation => compensation(operand::two(t)),
        Letter::Delay => Ok(Command::Delay(single(Quantity::Delay, t)?)),
        Letter::Aspect => aspect(operand::two(t)),
        Letter::Detect => Ok(Command::Detect(single(Quantity::Choice, t)? == 1)),
        Letter::Eject => Ok(Command::Eject(single(Quantity::Choice, t)? == 1)),
        Letter::Open => opened(t),
        Letter::Close => Ok(Command::Close(single(Quantity::Passes, t)?)),
        Letter::Other => Err(Malformed::NoLetter),
    }
}

// Where what is malformed stands, its letter being at `at`.
#[tactic(auto, unfolding(crate::specs::Command::placed))]
fn misread(at: usize, why: Malformed) -> Misread
    requires { at + 1 < 2 ^ 64 }
    ensures { Err result ≡ placed at 0 (Err why) }
{
    match why {
        Malformed::NoLetter => Misread::Letter(at),
        Malformed::WrongOperand(read) => Misread::Operand {
            place: at + 1,
            read,
        },
    }
}

// The command at a place of a text.
#[tactic(auto, unfolding(crate::specs::Command::command_at, crate::specs::Command::found_in, crate::specs::Command::placed))]
pub fn command_at(s: &[u8], at: usize) -> Found
    ensures { result ≡ command_at s.now at }
{
    if s.len() <= at {
        return Ok(None);
    }
    let from = at + 1;
    let next = from + operand::extent(&s[from..]);
    match form(Letter::from(s[at]), &s[from..next]) {
        Ok(command) => Ok(Some((command, next))),
        Err(why) => Err(misread(at, why)),
    }
}
