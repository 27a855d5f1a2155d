#![tactic(auto)]

// Tests of a table of entries at the edges of its memory and of its states. They stand in a crate of
// their own, since a crate with tests is proved twice.

#[cfg(test)]
mod memory;
#[cfg(test)]
mod samples;
#[cfg(test)]
mod states;
