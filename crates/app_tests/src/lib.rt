// Tests of hooks, information, rewriting, exports and analyses, and of the program's one call. Nothing but tests stands here, so
// no crate is proved twice for them.
#![tactic(auto)]

#[cfg(test)]
mod commands;
#[cfg(test)]
mod counting;
#[cfg(test)]
mod exports;
#[cfg(test)]
mod faults;
#[cfg(test)]
mod feeding;
#[cfg(test)]
mod files;
#[cfg(test)]
mod following;
#[cfg(test)]
mod growths;
#[cfg(test)]
mod hook_calls;
#[cfg(test)]
mod hooks;
#[cfg(test)]
mod made_outputs;
#[cfg(test)]
mod places;
#[cfg(test)]
mod reports;
#[cfg(test)]
mod shadows;
#[cfg(test)]
mod together;
