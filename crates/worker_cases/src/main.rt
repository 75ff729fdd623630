//! Tries workers over devices in memory. Each line of the input is a case, and each line of the output says how its run
//! ended.
#![tactic(auto)]

mod case;
mod gate;
mod run;

use anyhow::Result;
use case::Case;
use run::told;

fn main(rt: HostRuntime) -> Result<()> {
    let alloc = rt.alloc();
    for line in rt.lines(alloc) {
        let case = Case::read(line?.as_str())?;
        let told = told(&rt, alloc, case)?;
        println!(rt; "{told}")?;
    }
    Ok(())
}
