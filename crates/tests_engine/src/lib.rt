// Trials of runs over a week file with arithmetic.
#![tactic(auto)]

#[cfg(test)]
mod classes;
#[cfg(test)]
mod counting;
#[cfg(test)]
mod refusals;
#[cfg(test)]
mod turns;
#[cfg(test)]
mod worlds;
