// Tests of the values, of the stack, of the faults and of the host over a week file, on examples.
#![tactic(auto)]

#[cfg(test)]
mod values_held;
#[cfg(test)]
mod week_files;
