// Tests of the arithmetic layer over week files.
#![tactic(auto)]

#[cfg(test)]
mod numbers;
#[cfg(test)]
mod passing;
#[cfg(test)]
mod worlds;
