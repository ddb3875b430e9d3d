// Tests of the reader: worked rows, every refusal, all explanations at two small primes, and long lists.
#![tactic(auto)]

#[cfg(test)]
mod large;
#[cfg(test)]
mod refused;
#[cfg(test)]
mod rows;
#[cfg(test)]
mod small;
#[cfg(test)]
mod worked;
