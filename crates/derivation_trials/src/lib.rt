// Trials of derivations: on the edges of their limits, and by derivations out of textbooks. Each is proved to end, and then run.
#![tactic(auto)]

#[cfg(test)]
mod forcing_trials;
#[cfg(test)]
mod limits_trials;
#[cfg(test)]
mod small_frames;
#[cfg(test)]
mod step_trials;
#[cfg(test)]
mod textbook;
#[cfg(test)]
mod textbook_trials;
#[cfg(test)]
mod verdict_trials;
#[cfg(test)]
mod weighing_trials;
#[cfg(test)]
mod writing;
