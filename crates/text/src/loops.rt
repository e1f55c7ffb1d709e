// Loops of a text, counted.
ghost use Rattle.std.specs.Prelude.{◌≡◌};
ghost use Rattle.text.specs.Text.{read_of};
ghost use Rattle.text.specs.Loops.{part_of, level_of, level_read, loops_in};

use command::Command;

// How many loops are open behind a command, with so many open before it; or that it breaks the rules.
#[tactic(auto, unfolding(crate::specs::Loops::level_of))]
fn level_after(open: usize, c: Command) -> Option<usize>
    ensures { result ≡ level_of «open» (part_of c) }
{
    match c {
        Command::Open if open < 4 => Some(open + 1),
        Command::Open => None,
        Command::Close(_) => open.checked_sub(1),
        _ => Some(open),
    }
}

// Behind a whole text.
fn level_behind(t: &[u8], open: usize) -> Option<usize>
    ensures { result ≡ level_read (read_of t.now) «open» }
{
    let mut at = 0;
    let mut level = open;
    while let Some((c, next)) = command::command_at(t, at).ok()? {
        level = level_after(level, c)?;
        at = next;
    }
    Some(level)
}

// Whether the loops of a text in two parts are right.
pub fn loops_ok(a: &[u8], b: &[u8]) -> bool
    ensures { result ≡ loops_in (read_of a.now) (read_of b.now) }
{
    let Some(between) = level_behind(a, 0) else {
        return false;
    };
    match level_behind(b, between) {
        Some(left) => left == 0,
        None => false,
    }
}
