// Makes the checks of a spare module, and prints each reading and a summary. A bad reading is a failure.
#![tactic(auto)]

use checks::Summary;

fn run(rt: &HostRuntime) -> anyhow::Result<()> {
    let readings = checks::all(rt.alloc())?;
    for reading in &readings {
        println!(rt; "{reading}")?;
    }
    let summary = Summary::of(&readings);
    println!(rt; "{summary}")?;
    summary.verdict()?;
    Ok(())
}

fn main(rt: HostRuntime) -> anyhow::Result<()> {
    run(&rt)
}
