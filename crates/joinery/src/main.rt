// The joinery environment: opened, described, its converters registered, and damaged in sixteen ways that opening refuses.
#![tactic(auto)]

mod build;
mod converters;
mod damage;
mod describe;
mod environment;
mod names;
mod results;

use converters::Definitions;
use elaborate::open;
use environment::joinery;

/// The whole environment is opened, with definitions of converters behind it, and elaborated as far as the calls go.
fn elaborate(rt: &(impl Print + AllocGlobal)) -> anyhow::Result<()> {
    println!(rt; "the joinery environment:")?;
    let mut builder = joinery(rt.alloc())?;
    let definitions = Definitions::new(&mut builder)?;
    match open(builder.tables) {
        Ok(opening) => {
            println!(rt; "opened")?;
            describe::environment(rt, opening.tables())?;
            converters::run(rt, opening, definitions)
        }
        Err((_tables, refusal)) => Ok(println!(rt; "refused {refusal}")?),
    }
}

fn run(rt: &(impl Print + AllocGlobal)) -> anyhow::Result<()> {
    elaborate(rt)?;
    damage::try_all(rt)
}

fn main(rt: HostRuntime) -> anyhow::Result<()> {
    run(&rt)
}
