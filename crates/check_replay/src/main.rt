// Runs the lists of calls on standard input through `fair_replay::replay`. An R line begins a list; each line `W label from to` runs
// it from a start at the R line's rates, with that sender's record watched, or overflow's, and the calls from `from` to before
// `to` as the run, and says the totals, whether the last call of the run was answered over share, the page that the reports
// of the list left, and the report of the state left. tools/make_replay_list.py makes the lists and, with the Rust oracle,
// what must be said.
#![tactic(auto)]

mod list;
mod runs;

use std::io;

fn main(rt: HostRuntime) -> io::Result<()> {
    list::run_all(&rt, &mut rt.stdin())
}
