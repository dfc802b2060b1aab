//! Calls at the parts of a slice, by several threads.
ghost use Rattle.std.specs.Prelude.{◌≡◌, ℕ, ◌<◌, ◌*◌, ◌+◌, ◌/◌, ◌%◌, min, length, IfOk};
ghost use Rattle.std.specs.Fork.{IsChunk, AcceptsChunks, GivesChunk, GivesChunks};

use rayon::prelude::*;
use std::alloc::{AllocError, Global};
use std::thread::Threads;

// How many parts of `size` elements there are; the last one may be shorter.
fn count_of_parts(len: usize, size: usize) -> usize
    requires { 0 < size }
    ensures is { result ≡ len / size + min 1 (len % size) }
    ensures inside { (n : ℕ) → n < result → n * size < len }
{
    len.div_ceil(size)
}

// The part of that number.
fn part_at<T>(s: &[T], size: usize, n: usize) -> &[T]
    requires size { 0 < size }
    requires inside { n * size < length s.now }
    ensures { IsChunk s.now size (n * size) result.now }
{
    let (_, rest) = s.split_at(n * size);
    let (part, _) = rest.split_at(size.min(rest.len()));
    part
}

/// What `f` gives at each part of `size` elements and the place at which it begins, in the order of
/// the parts: several threads take parts. `par_chunks` would not tell `f` that place, and it gives
/// the last thread up to twice the others' share.
pub fn map_parts<R: Threads + Sync, T: Sync, X: Send + Drop, F: Fn(usize, &[T]) -> X + Sync>(
    rt: &R,
    alloc: Global,
    s: &[T],
    size: usize,
    f: &F,
) -> Result<Vec<X>, AllocError>
    requires size { 0 < size }
    requires accepts { AcceptsChunks F.Fn f.now size s.now }
    ensures len { IfOk result
        (λ v. length v.items ≡ length s.now / size + min 1 (length s.now % size)) }
    ensures each { IfOk result (λ v. GivesChunks F.Fn f.now size s.now v.items) }
{
    let count = count_of_parts(s.len(), size);
    let made = (0..count)
        .into_par_iter()
        .with_min_len(1)
        .map(
            |n: usize| -> X
                requires { (0 < size) × (n * size < length s.now)
                    × AcceptsChunks F.Fn f.now size s.now }
                ensures { GivesChunk F.Fn f.entry.now size s.entry.now n result }
            { f(n * size, part_at(s, size, n)) },
        )
        .collect(rt, alloc)?;
    Ok(made)
}
