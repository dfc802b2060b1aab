//! Rows cut into pieces.
ghost use Rattle.std.specs.Prelude.{◌≡◌, ◌<◌, ◌==◌, [], length, slice_index_or};
ghost use Rattle.store_machine.specs.Machine.{pieces_of, total};

use base_value::Row;

/// Whether lengths add up to a number of rows.
pub(crate) fn adds_up(lengths: &[usize], count: u64) -> bool
    ensures { result ≡ (total lengths.now == count) }
{
    let mut left = count;
    for n in lengths {
        let n = *n as u64;
        if n > left {
            return false;
        }
        left -= n;
    }
    left == 0
}

/// The piece of a number among the pieces of these lengths; past the end of the rows it is shorter.
pub(crate) fn piece<'a>(rows: &'a [Row], lengths: &[usize], number: usize) -> &'a [Row]
    requires { number < length lengths.now }
    ensures { result.now ≡ slice_index_or (pieces_of lengths.now rows.now) number [] }
{
    let (first, rest) = rows.split_at(lengths[0].min(rows.len()));
    if number == 0 {
        first
    } else {
        piece(rest, &lengths[1..], number - 1)
    }
}
