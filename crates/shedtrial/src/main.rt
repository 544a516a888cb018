// The trial program: lines of the trial's language on standard input, their answers on standard output.
#![tactic(auto)]

mod lines;

fn main(rt: HostRuntime) {
    lines::serve(&rt, &mut rt.stdin());
}
