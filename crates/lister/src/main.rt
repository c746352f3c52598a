// Reads one parcel from standard input, as far as its verdict needs, and prints one line: the
// verdict over the fixed week file.
#![tactic(auto)]

use listing::{list, read_parcel};

fn main(rt: HostRuntime) -> anyhow::Result<()> {
    let parcel = read_parcel(rt.alloc(), rt.stdin())?;
    let verdict = list(rt.alloc(), &parcel)?;
    println!(rt; "{verdict}")?;
    Ok(())
}
