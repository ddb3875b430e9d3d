// Tests of several sites: two desks brought together, every rung, every refusal, and full lists.
#![tactic(auto)]

#[cfg(test)]
mod asking;
#[cfg(test)]
mod pairs;
