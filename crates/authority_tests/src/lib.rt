//! Examples of walks over authorities, which are the tests of the library `authority_walk`. Their reader reads a table.
#![tactic(auto)]

#[cfg(test)]
mod table;
#[cfg(test)]
mod walks;
