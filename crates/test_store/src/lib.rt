//! Tests of the machine, of refreshes that are compared, of snapshots that are held while others
//! are published, of two senders through a queue of one place, and of journals on disks that fail
//! or crash, through public calls. No other crate uses this one.
#![tactic(auto)]

#[cfg(test)]
mod crashes;
#[cfg(test)]
mod files;
#[cfg(test)]
mod machine;
#[cfg(test)]
mod one_place;
#[cfg(test)]
mod plain;
#[cfg(test)]
mod real_file;
#[cfg(test)]
mod same;
#[cfg(test)]
mod snapshots;
