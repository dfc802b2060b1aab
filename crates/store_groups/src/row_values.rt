//! The values of a row put into cells, one into each, or taken out of them.
ghost use Rattle.std.specs.Prelude.{◌≡◌, false, IsTrue, OnOk, length, map};
ghost use Rattle.store_groups.specs.Groups.{HaveValues, with_values, without_values};
ghost use Rattle.store_groups.specs.Stored.{cell_in};

use crate::cell::Cell;
use crate::small_cell::SmallCell;
use base_value::Value;
use std::alloc::AllocError;

/// Puts the values of a row into their cells, if all of these stay small. Otherwise nothing is
/// changed.
pub(crate) fn put_small(cells: &mut [SmallCell], values: &[Value]) -> bool
    requires { length values.now ≡ length cells.old }
    ensures put { IsTrue result → cells.new ≡ with_values cells.old values.now }
    ensures as_before { result ≡ false → cells.new ≡ cells.old }
{
    if cells.len() == 0 {
        return true;
    }
    let Some(more) = cells[0].with(&values[0]) else {
        return false;
    };
    if !put_small(&mut cells[1..], &values[1..]) {
        return false;
    }
    cells[0] = more;
    true
}

/// Puts the values of a row into their cells.
pub(crate) fn put_large(cells: &mut [Cell], values: &[Value]) -> Result<(), AllocError>
    requires { length values.now ≡ length cells.old }
    ensures { OnOk result (map cell_in cells.new
        ≡ with_values (map cell_in cells.old) values.now) }
{
    if cells.len() == 0 {
        return Ok(());
    }
    cells[0].put(&values[0])?;
    put_large(&mut cells[1..], &values[1..])?;
    Ok(())
}

/// Takes the values of a row out of their cells.
pub(crate) fn remove_small(cells: &mut [SmallCell], values: &[Value])
    requires long { length values.now ≡ length cells.old }
    requires have { HaveValues cells.old values.now }
    ensures { cells.new ≡ without_values cells.old values.now }
{
    if cells.len() == 0 {
        return;
    }
    cells[0].remove(&values[0]);
    remove_small(&mut cells[1..], &values[1..]);
}

/// Takes the values of a row out of their cells.
pub(crate) fn remove_large(cells: &mut [Cell], values: &[Value])
    requires long { length values.now ≡ length cells.old }
    requires have { HaveValues (map cell_in cells.old) values.now }
    ensures { map cell_in cells.new ≡ without_values (map cell_in cells.old) values.now }
{
    if cells.len() == 0 {
        return;
    }
    cells[0].remove(&values[0]);
    remove_large(&mut cells[1..], &values[1..]);
}
