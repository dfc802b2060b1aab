//! Which keys the rows so far have.
ghost use Rattle.std.specs.Prelude.{◌≡◌, ◌<◌, ◌++◌, ◌∷◌, [], ◌&&◌, true, IsTrue, not, map, length};
ghost use Rattle.std.specs.Prelude.{IfOk, OnErr, if◌then◌else◌, slice_index_or};
ghost use Rattle.base_value.specs.declared.value.Value.TheVariants.{Null};
ghost use Rattle.std.specs.List.{All, list_any};
ghost use Rattle.base_columns.specs.Fields.{field_value};
ghost use Rattle.base_schema.specs.LineForm.{file_form, fits, RowsFit};
ghost use Rattle.store_file_reader.specs.File.{is_taken};
ghost use Rattle.store_file_reader.specs.Key.{key_number, row_key, is_above, comes_after, same_key};
ghost use Rattle.store_file_reader.specs.Key.{SameKeys, AreKeys};

use base_columns::{Field, RowsBuilder};
use base_key_tables::KeySet;
use base_schema::DataFile;
use std::alloc::{AllocError, Global};

/// The numbers of a row's key; the second is 0 if the key has one column.
#[derive(Clone, Copy, PartialEq, Eq, Hash)]
pub struct Key {
    first: i64,
    second: i64,
}

impl Key {
    // The key of a row of a file.
    fn of(file: DataFile, row: &[Field<'_>]) -> Key
        ensures { result ≡ row_key (file_form file) (map field_value row.now) }
    {
        let places = file.key_columns();
        Key {
            first: number_in(row, places, 0),
            second: number_in(row, places, 1),
        }
    }

    // The key of the row at a place among those of a file.
    fn at(file: DataFile, rows: &RowsBuilder, i: usize) -> Key
        requires row { i < length rows.now.rows }
        requires width { rows.now.width ≡ length (file_form file).columns }
        ensures { result ≡ row_key (file_form file) (slice_index_or rows.now.rows i []) }
    {
        let places = file.key_columns();
        Key {
            first: number_at(rows, i, places, 0),
            second: number_at(rows, i, places, 1),
        }
    }

    // Whether this key is above the last one, if there is one.
    fn comes_after(&self, last: Option<Key>) -> bool
        ensures { result ≡ comes_after self.now last }
    {
        match last {
            Some(last) => self.is_above(&last),
            None => true,
        }
    }

    // Whether this key is above the other: by the first numbers, or by the second ones where it
    // isn't below.
    fn is_above(&self, other: &Key) -> bool
        ensures { result ≡ is_above self.now other.now }
    {
        self.first > other.first || self.first >= other.first && self.second > other.second
    }
}

// The number of a row in a key's column.
fn number_in(row: &[Field<'_>], places: &[usize], k: usize) -> i64
    ensures { result ≡ key_number
        (slice_index_or (map (λ place. slice_index_or (map field_value row.now) place Null)
        places.now) k Null) }
{
    match places.get(k) {
        Some(place) => match row.get(*place) {
            Some(field) => key_number(field),
            None => 0,
        },
        None => 0,
    }
}

// The number of a key's field; 0 where it is none.
#[tactic(auto, using(crate::proofs::Keys::small_is))]
fn key_number(field: &Field<'_>) -> i64
    ensures { result ≡ key_number (field_value field.now) }
{
    match field {
        Field::Number(_, number) => *number,
        Field::Date(_) | Field::Text(_) | Field::Null => 0,
    }
}

// The number of an earlier row in a key's column.
fn number_at(rows: &RowsBuilder, i: usize, places: &[usize], k: usize) -> i64
    requires row { i < length rows.now.rows }
    requires inside { All (λ place. place < rows.now.width) places.now }
    ensures { result ≡ key_number
        (slice_index_or (map (λ place.
        slice_index_or (slice_index_or rows.now.rows i []) place Null) places.now) k Null) }
{
    match places.get(k) {
        Some(place) => rows.number(i, *place).unwrap_or(0),
        None => 0,
    }
}

/// What is kept of the keys of the rows so far.
pub enum Keys {
    /// The last key, if there is one; each key was above the one before it.
    Ascending(Option<Key>),
    /// The set of all keys.
    Hashed(KeySet<Key>),
    /// Nothing, since memory ran out when a row was to be added.
    Lost,
}

impl Drop for Keys {
    #[inline]
    fn drop(self) {
        match self {
            Keys::Ascending(kept) => drop(kept),
            Keys::Hashed(kept) => drop(kept),
            Keys::Lost => {}
        }
    }
}

// Puts a key after the others, if none of them is the same; whether it was put there.
fn insert_key(keys: &mut KeySet<Key>, key: Key) -> Result<bool, AllocError>
    ensures added { IfOk result (λ added. added ≡ not (list_any (same_key key) keys.old)) }
    ensures keys { IfOk result
        (λ added. keys.new ≡ (if added then keys.old ++ key ∷ [] else keys.old)) }
    ensures err { OnErr result (keys.new ≡ keys.old) }
{
    let added = keys.insert(key)?;
    Ok(added)
}

// The set of the keys of these rows.
#[tactic(auto, using(crate::proofs::Keys::sets))]
fn keys_of_rows(
    alloc: Global,
    file: DataFile,
    rows: &RowsBuilder,
) -> Result<KeySet<Key>, AllocError>
    requires { rows.now.width ≡ length (file_form file).columns }
    ensures { IfOk result (λ set.
        SameKeys set (map (row_key (file_form file)) rows.now.rows)) }
{
    let mut set = KeySet::new(alloc);
    for i in 0..rows.len() {
        insert_key(&mut set, Key::at(file, rows, i))?;
    }
    Ok(set)
}

// Notes the key of one row more, unless one of these rows has it; whether none has.
#[tactic(auto, using(crate::proofs::Keys::sets))]
fn note_key(
    alloc: Global,
    keys: &mut Keys,
    file: DataFile,
    rows: &RowsBuilder,
    key: Key,
) -> Result<bool, AllocError>
    requires width { rows.now.width ≡ length (file_form file).columns }
    requires keys { AreKeys keys.old (map (row_key (file_form file)) rows.now.rows) }
    ensures new { IfOk result
        (λ new. new ≡ not (list_any (same_key key)
        (map (row_key (file_form file)) rows.now.rows))) }
    ensures noted { IfOk result
        (λ new. AreKeys keys.new
        (if new then map (row_key (file_form file)) rows.now.rows
        ++ key ∷ [] else map (row_key (file_form file)) rows.now.rows)) }
    ensures err { OnErr result (AreKeys keys.new (map (row_key (file_form file)) rows.now.rows)) }
{
    match keys {
        Keys::Ascending(last) => {
            if key.comes_after(*last) {
                *last = Some(key);
                return Ok(true);
            }
        }
        Keys::Hashed(set) => return insert_key(set, key),
        Keys::Lost => return Err(AllocError),
    }
    let mut set = keys_of_rows(alloc, file, rows)?;
    let new = insert_key(&mut set, key)?;
    *keys = Keys::Hashed(set);
    Ok(new)
}

/// Notes the key of one row more, where keys must differ and none of these rows has it; whether the
/// row may be put after them.
#[tactic(auto, using(crate::proofs::Keys::keyed))]
pub fn note_row(
    alloc: Global,
    keys: &mut Keys,
    file: DataFile,
    rows: &RowsBuilder,
    row: &[Field<'_>],
) -> Result<bool, AllocError>
    requires keys { (file_form file).unique ≡ true
        → AreKeys keys.old (map (row_key (file_form file)) rows.now.rows) }
    requires width { rows.now.width ≡ length (file_form file).columns }
    requires rows { RowsFit (file_form file) rows.now.rows }
    requires row { IsTrue (fits (file_form file) (map field_value row.now)) }
    ensures new { IfOk result
        (λ new. new ≡ not ((file_form file).unique && is_taken (file_form file) rows.now.rows
        (map field_value row.now))) }
    ensures noted { IfOk result
        (λ new. (file_form file).unique ≡ true
        → AreKeys keys.new (map (row_key (file_form file))
        (if new then rows.now.rows ++ map field_value row.now ∷ [] else rows.now.rows))) }
    ensures err { OnErr result
        ((file_form file).unique ≡ true
        → AreKeys keys.new (map (row_key (file_form file)) rows.now.rows)) }
{
    if !file.refuses_duplicates() {
        return Ok(true);
    }
    let new = note_key(alloc, keys, file, rows, Key::of(file, row))?;
    Ok(new)
}
