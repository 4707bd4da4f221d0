//! The tests of `ix_client` over a manager in memory. bench/link tries the program over it.
#![tactic(auto)]

#[cfg(test)]
mod tests;
