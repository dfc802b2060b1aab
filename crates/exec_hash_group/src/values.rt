//! A list of values that are read one by one, as those of a column.
ghost use Rattle.std.specs.Prelude.{◌≡◌, ◌<◌, List, length, map, replicate, slice_get, Some, IfOk};
ghost use Rattle.std.specs.Prelude.{IfSome};
ghost use Rattle.base_value.specs.declared.value.Value.{Value as Datum};
ghost use Rattle.base_value.specs.declared.value.Value.TheVariants.{Null, Number};

use base_columns::Column;
use base_decimal::Scale;
use base_value::Value;
use std::alloc::{AllocError, Global};

/// Values in a row, as those of a column.
pub trait ValueList {
    /// The values.
    ghost shown: { Self → List Datum };

    /// The value at a place.
    fn value(&self, i: usize) -> Result<Value, AllocError>
        requires { i < length (shown self.now) }
        ensures { IfOk result (λ v. slice_get (shown self.now) i ≡ Some v) };

    /// The coefficients and their scale, where it keeps all values as numbers of 64 bits.
    fn as_numbers(&self) -> Option<(Scale, &[i64])>
        ensures { IfSome result (λ p. shown self.now ≡ map (Number p.0) p.1.now) };
}

/// The values of a slice.
pub struct SliceValues<'a> {
    values: &'a [Value],
}

impl<'a> SliceValues<'a> {
    /// These values.
    pub fn new(values: &'a [Value]) -> SliceValues<'a>
        ensures { ⟦<SliceValues<'a> as ValueList>⟧.shown result ≡ values.now }
    {
        SliceValues { values }
    }
}

impl<'a> ValueList for SliceValues<'a> {
    ghost shown = { λ s. s.values.now };

    fn value(&self, i: usize) -> Result<Value, AllocError> {
        self.values[i].clone()
    }

    fn as_numbers(&self) -> Option<(Scale, &[i64])> {
        None
    }
}

/// The values of a column.
#[derive(Drop)]
pub struct ColumnValues<'a> {
    alloc: Global,
    column: &'a Column,
}

impl<'a> ColumnValues<'a> {
    /// These values.
    pub fn new(alloc: Global, column: &'a Column) -> ColumnValues<'a>
        ensures { ⟦<ColumnValues<'a> as ValueList>⟧.shown result ≡ column.now }
    {
        ColumnValues { alloc, column }
    }
}

impl<'a> ValueList for ColumnValues<'a> {
    ghost shown = { λ s. s.column.now };

    fn value(&self, i: usize) -> Result<Value, AllocError> {
        self.column.at(self.alloc, i)
    }

    fn as_numbers(&self) -> Option<(Scale, &[i64])> {
        self.column.as_numbers()
    }
}

/// Numbers of one scale.
#[derive(Drop)]
pub struct NumberValues<'a> {
    scale: Scale,
    numbers: &'a [i64],
}

impl<'a> NumberValues<'a> {
    /// The numbers of these coefficients.
    pub fn new(scale: Scale, numbers: &'a [i64]) -> NumberValues<'a>
        ensures { ⟦<NumberValues<'a> as ValueList>⟧.shown result ≡ map (Number scale) numbers.now }
    {
        NumberValues { scale, numbers }
    }
}

impl<'a> ValueList for NumberValues<'a> {
    ghost shown = { λ s. map (Number s.scale) s.numbers.now };

    fn value(&self, i: usize) -> Result<Value, AllocError> {
        Ok(Value::Number(self.scale, i128::from(self.numbers[i])))
    }

    fn as_numbers(&self) -> Option<(Scale, &[i64])> {
        Some((self.scale, self.numbers))
    }
}

/// A number of nulls.
#[derive(Drop)]
pub struct Nulls {
    count: usize,
}

impl Nulls {
    /// That many.
    pub fn new(count: usize) -> Nulls
        ensures { ⟦<Nulls as ValueList>⟧.shown result ≡ replicate count Null }
    {
        Nulls { count }
    }
}

impl ValueList for Nulls {
    ghost shown = { λ s. replicate s.count Null };

    fn value(&self, _i: usize) -> Result<Value, AllocError> {
        Ok(Value::Null)
    }

    fn as_numbers(&self) -> Option<(Scale, &[i64])> {
        None
    }
}
