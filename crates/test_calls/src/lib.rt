//! Tests of calls that no run of the program can show: which call of its files, its sink or its
//! disk fails, how many calls there are, files and a sink that never fail, two sessions that meet
//! the publisher. No other crate uses this one.
#![tactic(auto)]

#[cfg(test)]
mod calls;
#[cfg(test)]
mod disks;
#[cfg(test)]
mod gates;
#[cfg(test)]
mod keeping;
#[cfg(test)]
mod meeting;
#[cfg(test)]
mod runs;
#[cfg(test)]
mod sure;
#[cfg(test)]
mod writing;
