//! Tests of laboratories and of the text of their logs.
#![tactic(auto)]

#[cfg(test)]
mod laboratories;
#[cfg(test)]
mod logs;
