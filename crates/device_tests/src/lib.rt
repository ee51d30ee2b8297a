//! Tests of devices, of a memory and of spellings: of what no program and no script of a laboratory can show.
#![tactic(auto)]

#[cfg(test)]
mod accesses;
#[cfg(test)]
mod devices;
#[cfg(test)]
mod memory;
#[cfg(test)]
mod spellings;
