// The cases at the edges, run through the real functions: those that crate `check_cases` proves of the definitions, those that are only run,
// and every refusal.
#![tactic(auto)]

mod calls;
mod lent;

use std::io;

fn main(rt: HostRuntime) -> io::Result<()> {
    check_steps::run(&rt)?;
    let mut memory = check_steps::filled();
    let mut head = trial::unstarted().head;
    let mut room = check_steps::room();
    let steps = check_steps::all_steps(&mut room);
    for step in steps.as_slice() {
        let tried = lent::tried(&rt, step, step.fault.made(head), &mut memory)?;
        head = check_steps::tell(&rt, step, head, &tried)?;
    }
    Ok(())
}
