//! Which rows INTERSECT and EXCEPT take, by numbers of identical rows.
ghost use Rattle.std.specs.Prelude.{◌≡◌, ◌<◌, ◌≤◌, ◌^◌, ◌++◌, length, replicate, IfOk, OnOk};
ghost use Rattle.std.specs.List.{All};
ghost use Rattle.base_set_rows.specs.Numbered.{times, AreTimes, numbers_taken};

use crate::kind::{ClassKind, copies};
use std::alloc::{AllocError, Global};

// For each of `count` numbers, how often it stands in the list.
fn counts(alloc: Global, numbers: &[u32], count: usize) -> Result<Vec<u32>, AllocError>
    requires numbers { All (λ n. n < count) numbers.now }
    requires small { length numbers.now < 2 ^ 32 }
    ensures { IfOk result (λ v. AreTimes numbers.now count v.items) }
{
    let mut counts = vec![in alloc; 0u32; count]?;
    for i in 0..numbers.len() {
        let number = numbers[i] as usize;
        counts[number] += 1;
    }
    Ok(counts)
}

// Puts a number so many times after others.
fn put_copies(numbers: &mut Vec<u32>, number: u32, times: u32) -> Result<(), AllocError>
    ensures { OnOk result (numbers.new.items ≡ numbers.old.items ++ replicate times number) }
{
    for _ in 0..times {
        numbers.push(number)?;
    }
    Ok(())
}

/// The numbers of the rows that INTERSECT or EXCEPT takes, each as often as its class gives rows.
/// `numbers` are those of the rows of both sides, the first `split` of them the left side's;
/// identical rows have the same of `count` numbers.
pub fn numbers_taken(
    alloc: Global,
    kind: ClassKind,
    all: bool,
    numbers: &[u32],
    split: usize,
    count: u32,
) -> Result<Vec<u32>, AllocError>
    requires split { split ≤ length numbers.now }
    requires numbers { All (λ n. n < count) numbers.now }
    requires small { length numbers.now < 2 ^ 32 }
    ensures numbers { IfOk result (λ v. v.items
        ≡ numbers_taken kind all split numbers.now count) }
    ensures below { IfOk result (λ v. All (λ n. n < count) v.items) }
{
    let left = counts(alloc, &numbers[..split], count as usize)?;
    let right = counts(alloc, &numbers[split..], count as usize)?;
    let mut taken = Vec::new(alloc);
    for n in 0..count {
        let times = copies(kind, all, left[n as usize], right[n as usize]);
        put_copies(&mut taken, n, times)?;
    }
    Ok(taken)
}
