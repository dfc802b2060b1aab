//! Tests of public calls that no run of the program makes: expressions over one row, all
//! combinations of two bags, scans that state their rows and groups, written decimals, and files
//! with a lower limit. No other crate uses this one.
#![tactic(auto)]

#[cfg(test)]
mod combinations;
#[cfg(test)]
mod expressions;
#[cfg(test)]
mod limits;
#[cfg(test)]
mod scans;
#[cfg(test)]
mod single_calls;
