// Runs parcels over a week file with arithmetic, and prints what comes of each.
#![tactic(auto)]

use planning::run;
use std::env;

fn main(rt: HostRuntime) -> anyhow::Result<()> {
    let words: Vec<String> = env::args(&rt)?.skip(1).collect(rt.alloc())?;
    run(&rt, &words)
}
