// Tests of the check and of the listing, on examples.
#![tactic(auto)]

#[cfg(test)]
mod bench;
#[cfg(test)]
mod drafts;
#[cfg(test)]
mod encodings;
#[cfg(test)]
mod headers;
#[cfg(test)]
mod heights;
#[cfg(test)]
mod lists;
#[cfg(test)]
mod literals;
#[cfg(test)]
mod opcodes;
#[cfg(test)]
mod orders;
#[cfg(test)]
mod tables;
#[cfg(test)]
mod tried;
