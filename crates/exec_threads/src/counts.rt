//! How many parts a piece of work has: the one place that decides it.
ghost use Rattle.std.specs.Prelude.{◌<◌};

use std::thread::{Threads, available_parallelism};

// Fewer pieces or batches than this are not worth a thread.
const LEAST_BATCHES: usize = 4;

// Fewer rows than this are not worth threads.
const LEAST_ROWS: usize = 16384;

// Keys never go to more parts than this.
const MOST_KEY_PARTS: usize = 64;

/// How many of `count` pieces or batches a thread takes: an equal part for each processor, and no
/// fewer than are worth a thread.
pub fn part_len<R: Threads>(rt: &R, count: usize) -> usize
    ensures { 0 < result }
{
    if count <= LEAST_BATCHES {
        return LEAST_BATCHES;
    }
    match available_parallelism(rt) {
        Ok(threads) => count.div_ceil(threads.get()).max(LEAST_BATCHES),
        Err(_) => count,
    }
}

/// How many of a side's batches, which have this number of rows together, a thread takes: as
/// `part_len` says, but that one thread takes all where there are few rows.
pub fn thread_share<R: Threads>(rt: &R, batches: usize, rows: usize) -> usize
    ensures { 0 < result }
{
    if rows < LEAST_ROWS {
        return batches.max(LEAST_BATCHES);
    }
    part_len(rt, batches)
}

/// To how many parts keys go by their hashes: a power of two, one for each processor or a few more.
pub fn part_count<R: Threads>(rt: &R) -> usize
    ensures { 0 < result }
{
    match available_parallelism(rt) {
        Ok(threads) => threads.get().min(MOST_KEY_PARTS).next_power_of_two(),
        Err(_) => 1,
    }
}
