// The training rig.
#![tactic(auto)]

use desk::Desk;

fn main(rt: HostRuntime) {
    console::serve(Desk::Rig, &mut rt.stdin(), &mut rt.stdout());
}
