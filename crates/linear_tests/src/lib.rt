// Tests of `linear` against arithmetic on plain numbers that shares no code with it.
#![tactic(auto)]

pub mod plain;
#[cfg(test)]
mod tests;
