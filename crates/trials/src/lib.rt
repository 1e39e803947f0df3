// Trials of the library on the edges of its limits, and against tables computed by the definitions. Each is proved to end, and then run.
#![tactic(auto)]

#[cfg(test)]
mod algebras_trials;
#[cfg(test)]
mod formulas_trials;
