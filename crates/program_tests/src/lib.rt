//! Tests of the program, over sources and sinks in memory.
#![tactic(auto)]

#[cfg(test)]
mod answers;
#[cfg(test)]
mod augments;
#[cfg(test)]
mod deliveries;
#[cfg(test)]
mod failures;
#[cfg(test)]
mod graphs;
#[cfg(test)]
mod growths;
#[cfg(test)]
mod long_texts;
#[cfg(test)]
mod runs;
#[cfg(test)]
mod unions;
#[cfg(test)]
mod words;
