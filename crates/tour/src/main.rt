// A guided tour of the library: each chapter takes a task from start to finish and prints each action with its answer.
#![tactic(auto)]

// `rt` is a parameter of every `tell`: a struct of it and of what is told would be made at each call.

mod chapter_algebras;
mod chapter_derivations;
mod chapter_formulas;
mod chapter_weighing;
mod words;

fn main(rt: HostRuntime) -> anyhow::Result<()> {
    tell(&rt)
}

fn tell(rt: &HostRuntime) -> anyhow::Result<()> {
    chapter_formulas::tell(rt)?;
    chapter_algebras::tell(rt)?;
    chapter_derivations::tell(rt)?;
    chapter_weighing::tell_excluded_middle(rt)
}
