// Tests of small crates, and of reading, writing and validating modules and the names that they carry. Nothing but tests stands
// here, so no crate is proved twice for them.
#![tactic(auto)]

#[cfg(test)]
mod bodies;
#[cfg(test)]
mod checking;
#[cfg(test)]
mod disks;
#[cfg(test)]
mod encoding;
#[cfg(test)]
mod files;
#[cfg(test)]
mod making;
#[cfg(test)]
mod names;
#[cfg(test)]
mod numbers;
#[cfg(test)]
mod outside;
#[cfg(test)]
mod parts;
#[cfg(test)]
mod remaps;
#[cfg(test)]
mod saving;
#[cfg(test)]
mod stacks;
#[cfg(test)]
mod texts;
#[cfg(test)]
mod traces;
#[cfg(test)]
mod trees;
#[cfg(test)]
mod values;
