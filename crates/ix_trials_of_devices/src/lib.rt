//! The tests of devices in memory, `ix_memory`, of files in blocks, `ix_blocks`, and of scans of a
//! journal, `ix_journal`.
#![tactic(auto)]

#[cfg(test)]
mod tests;
