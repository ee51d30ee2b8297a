//! What no script shows of instructions, boards and their plans.
#![tactic(auto)]

#[cfg(test)]
mod assembler;
#[cfg(test)]
mod boards;
#[cfg(test)]
mod half_words;
#[cfg(test)]
mod memory;
#[cfg(test)]
mod parts;
#[cfg(test)]
mod plans;
#[cfg(test)]
mod refused;
#[cfg(test)]
mod regions;
#[cfg(test)]
mod turns;
#[cfg(test)]
mod words;
