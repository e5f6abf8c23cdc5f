// Tests of the calls on a task graph.
#![tactic(auto)]

#[cfg(test)]
mod adding;
#[cfg(test)]
mod closing;
#[cfg(test)]
mod job_words;
#[cfg(test)]
mod linking;
#[cfg(test)]
mod support;
