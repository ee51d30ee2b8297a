//! Tests of the whole program, over files, an output and a store in memory that fail where they are told to, with
//! workers that wait for each other, and of its words and its exit code.
#![tactic(auto)]

#[cfg(test)]
mod bench;
#[cfg(test)]
mod edge;
#[cfg(test)]
mod outside;
#[cfg(test)]
mod rounds;
#[cfg(test)]
mod snapshots;
#[cfg(test)]
mod workers;
