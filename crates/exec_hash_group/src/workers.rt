//! Who makes groups: one thread, or several.
ghost use Rattle.std.specs.Prelude.{◌≡◌, ◌<◌, ◌^◌, ◌++◌, map, length, IfOk, OnOk, ⊤};
ghost use denote.Param.Send.{IsSync};
ghost use Rattle.std.specs.Ordering.{int_eq};
ghost use Rattle.base_row_laws.specs.Numbers.{numbers_of};
ghost use Rattle.base_key_tables.specs.Distinct.{first_places};
ghost use Rattle.base_key_tables.specs.Keys.{same_two};
ghost use Rattle.base_columns.specs.Lists.{AreBelow};
ghost use Rattle.exec_hash_group.specs.Grouping.{aggregate_column};

use crate::by_threads::aggregate_columns;
use crate::group_by::put_aggregates;
use base_columns::{Bag, Column};
use base_key_tables::{Numbered, numbers};
use exec_key_parts::numbers_in_parts;
use plan_algebra::Aggregate;
use std::alloc::{AllocError, Global};
use std::thread::Threads;

/// Who numbers keys and makes the aggregates of groups.
pub(crate) trait Workers {
    /// What they ask, as that threads may share what they use.
    ghost ready: { Self → Type 0 };

    /// The number of each key, and where each number first stands. They come in any order.
    fn table_numbers(&self, alloc: Global, keys: &[i64]) -> Result<Numbered, AllocError>
        requires ready { ready self.now }
        requires small { length keys.now < 2 ^ 32 }
        ensures numbers { IfOk result (λ n. n.numbers.items ≡ numbers_of int_eq keys.now) }
        ensures firsts { IfOk result (λ n. n.firsts.items ≡ first_places int_eq keys.now) };

    /// `table_numbers` of keys that are pairs of numbers.
    fn pair_numbers(&self, alloc: Global, keys: &[(i64, i64)]) -> Result<Numbered, AllocError>
        requires ready { ready self.now }
        requires small { length keys.now < 2 ^ 32 }
        ensures numbers { IfOk result (λ n. n.numbers.items ≡ numbers_of same_two keys.now) }
        ensures firsts { IfOk result (λ n. n.firsts.items ≡ first_places same_two keys.now) };

    /// The aggregates of each group, as further columns.
    fn put_aggregates(
        &self,
        alloc: Global,
        columns: &mut Vec<Column>,
        rows: &Bag,
        numbers: &[u32],
        count: usize,
        aggregates: &[Aggregate],
    ) -> Result<(), AllocError>
        requires ready { ready self.now }
        requires rows { length numbers.now ≡ length rows.now.rows }
        requires small { length numbers.now < 2 ^ 32 }
        requires numbers { AreBelow count numbers.now }
        ensures { OnOk result (columns.new.items
            ≡ columns.old.items ++ map (aggregate_column rows.now.rows numbers.now count)
            aggregates.now) };
}

/// One thread.
pub(crate) struct OneThread;

impl Workers for OneThread {
    ghost ready = { λ _. ⊤ };

    fn table_numbers(&self, alloc: Global, keys: &[i64]) -> Result<Numbered, AllocError> {
        let numbered = numbers(alloc, keys)?;
        Ok(numbered)
    }

    fn pair_numbers(&self, alloc: Global, keys: &[(i64, i64)]) -> Result<Numbered, AllocError> {
        let numbered = numbers(alloc, keys)?;
        Ok(numbered)
    }

    fn put_aggregates(
        &self,
        alloc: Global,
        columns: &mut Vec<Column>,
        rows: &Bag,
        numbers: &[u32],
        count: usize,
        aggregates: &[Aggregate],
    ) -> Result<(), AllocError> {
        put_aggregates(alloc, columns, rows, numbers, count, aggregates)?;
        Ok(())
    }
}

/// Several threads: for keys as many as there are processors, and one for each aggregate.
#[derive(Drop)]
pub(crate) struct SeveralThreads<'a, R: Threads + Sync> {
    pub(crate) rt: &'a R,
}

impl<'a, R: Threads + Sync> Workers for SeveralThreads<'a, R> {
    ghost ready = { λ _. IsSync R.row };

    fn table_numbers(&self, alloc: Global, keys: &[i64]) -> Result<Numbered, AllocError> {
        let numbered = numbers_in_parts(self.rt, alloc, keys)?;
        Ok(numbered)
    }

    fn pair_numbers(&self, alloc: Global, keys: &[(i64, i64)]) -> Result<Numbered, AllocError> {
        let numbered = numbers_in_parts(self.rt, alloc, keys)?;
        Ok(numbered)
    }

    fn put_aggregates(
        &self,
        alloc: Global,
        columns: &mut Vec<Column>,
        rows: &Bag,
        numbers: &[u32],
        count: usize,
        aggregates: &[Aggregate],
    ) -> Result<(), AllocError> {
        let mut made = aggregate_columns(self.rt, alloc, rows, numbers, count, aggregates)?;
        columns.append(&mut made)?;
        Ok(())
    }
}
