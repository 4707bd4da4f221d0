//! The tests of `ix_manage` that need devices in memory: each call of a serve fails in turn, by
//! itself or with all behind it. All others are rows of bench/commands. A crate with tests is
//! proved twice: so these stand in a crate of their own, which has nothing else.
#![tactic(auto)]

#[cfg(test)]
mod tests;
