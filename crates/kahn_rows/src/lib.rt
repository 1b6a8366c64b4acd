//! Tests of runs by several workers, of readers and writers that fail, and of the words of faults.
#![tactic(auto)]

#[cfg(test)]
mod faults;
#[cfg(test)]
mod gate;
#[cfg(test)]
mod gates;
#[cfg(test)]
mod held;
#[cfg(test)]
mod programs;
#[cfg(test)]
mod streams;
