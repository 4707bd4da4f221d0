//! The tests of the engine and of what stands beside it that no command shows: a step by itself,
//! what a follower asks for, and which names and values an expression has. All others are rows of
//! `bench/commands`. A crate with tests is proved twice, so they stand in a crate of their own,
//! which has nothing else.
#![tactic(auto)]

#[cfg(test)]
mod tests;
