//! How long a tree takes to be made and to be met by rays, in a proved release program: with the word 'measure' it
//! prints the times.
#![tactic(auto)]

mod measure;
mod rays;

use std::env;

fn main(rt: HostRuntime) -> anyhow::Result<()> {
    let is_wanted = env::args(&rt)?
        .skip(1)
        .any(|word| word.as_str() == "measure");
    if is_wanted {
        measure::all(&rt, rt.alloc())?;
    } else {
        println!(rt; "The word 'measure' prints the times of trees of boxes.")?;
    }
    Ok(())
}
