//! Tests of what no clause says and no case can show: files, streams and random numbers of the
//! machine, and marks that are begun again and again.
//!
//! They stand in one crate, since each crate with tests is proved twice over all that stands below
//! it.
#![tactic(auto)]

#[cfg(test)]
mod tests;
