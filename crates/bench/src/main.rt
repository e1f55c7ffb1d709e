// The bench program.
#![tactic(auto)]

use desk::Desk;

fn main(rt: HostRuntime) {
    console::serve(Desk::Bench, &mut rt.stdin(), &mut rt.stdout());
}
