//! A part of a table.
ghost use Rattle.std.specs.Prelude.{◌≡◌, false, ◌<◌, ◌≤◌, ◌++◌, ◌∷◌, ◌||◌, [], if◌then◌else◌, not};
ghost use Rattle.std.specs.Prelude.{IfNone, IfOk, IfSome, OnOk, length, slice_index_or};
ghost use Rattle.std.specs.List.Sorted.{IsNonDecreasing};
ghost use Rattle.base_columns.specs.Lists.{AreBelow, gathered};
ghost use Rattle.store_state.specs.Found.{TellsKeys, TellsLines};
ghost use Rattle.store_state.specs.Keys.{has_key, line_key, line_keys, order_key, order_keys};
ghost use Rattle.store_state.specs.Moves.{with_keys};
ghost use Rattle.store_state.specs.Parts.{AreNear, HasNone, IsLeft, IsWith, IsWithout, has_place};
ghost use Rattle.store_state.specs.Parts.{left_rows};
ghost use Rattle.store_state.specs.Refresh.{without_keys};

use crate::key_range::KeyRange;
use crate::keys::{LastKey, LineKey, number_at};
use crate::search::{put_lines_of, put_orders_of};
use base_columns::Segment;
use base_key_tables::KeySet;
use base_value::Row;
use std::alloc::{AllocError, Global};
use std::marker::Model;
use std::sync::Arc;

/// A share of a stored segment without the rows at deleted places, seen as the list of the rows
/// that are left.
#[derive(Drop)]
pub struct Part {
    segment: Segment,
    /// Between which keys the orders of the segment's rows lie, and whether they ascend.
    range: KeyRange,
    /// The places of the deleted rows, ascending.
    deleted: Arc<Vec<u32>>,
}

impl Model for Part {
    ghost use Rattle.std.specs.Prelude.{List};
    ghost use Rattle.std.specs.Arc.{arc_value};
    ghost use Rattle.base_value.specs.declared.value.Value.{Value as Datum};
    ghost use Rattle.store_state.specs.Parts.{IsStoredPart, left_rows};

    ghost Value = { List (List Datum) };

    ghost view = { λ p. left_rows (arc_value p.deleted).items p.segment };

    ghost invariant = { λ p.
        IsStoredPart (arc_value p.deleted).items p.range.least p.range.greatest p.range.ascends
        p.segment };
}

/// Whether a place is one of these, which ascend.
pub(crate) fn has_place(places: &[u32], place: u32) -> bool
    requires { IsNonDecreasing places.now }
    ensures { result ≡ has_place places.now place }
{
    places.binary_search(&place).is_ok()
}

/// The key of the lineitem in a row.
fn line_key(segment: &Segment, i: usize) -> LineKey
    requires { i < length segment.now }
    ensures { result ≡ line_key (slice_index_or segment.now i []) }
{
    (number_at(segment, i, 0), number_at(segment, i, 3))
}

/// One place more, if its row is deleted already or of an order of these keys.
fn put_place(
    segment: &Segment,
    deleted: &[u32],
    keys: &KeySet<i64>,
    near: &[i64],
    last: &mut LastKey,
    i: usize,
    places: &mut Vec<u32>,
) -> Result<(), AllocError>
    requires up { IsNonDecreasing deleted.now }
    requires near { AreNear keys.now near.now segment.now }
    requires last { last.old.is_there ≡ has_key keys.now last.old.key }
    requires within { i < length segment.now }
    requires short { i < 4096 }
    ensures places { OnOk result (places.new.items
        ≡ (if has_place deleted.now i || has_key keys.now
        (order_key (slice_index_or segment.now i [])) then places.old.items
        ++ i ∷ [] else places.old.items)) }
    ensures last { last.new.is_there ≡ has_key keys.now last.new.key }
{
    let is_wanted = last.has(keys, near, number_at(segment, i, 0));
    if is_wanted || has_place(deleted, i as u32) {
        places.push(i as u32)?;
    }
    Ok(())
}

/// The deleted places with those of the rows of orders of these keys.
fn places_without(
    alloc: Global,
    segment: &Segment,
    deleted: &[u32],
    keys: &KeySet<i64>,
    near: &[i64],
) -> Result<Vec<u32>, AllocError>
    requires up { IsNonDecreasing deleted.now }
    requires near { AreNear keys.now near.now segment.now }
    ensures { IfOk result (λ places. IsWithout keys.now deleted.now segment.now places.items) }
{
    let mut places = Vec::new(alloc);
    let mut last = LastKey::first(keys);
    for i in 0..segment.len() {
        put_place(segment, deleted, keys, near, &mut last, i, &mut places)?;
    }
    Ok(places)
}

/// The places of all rows but those of orders of these keys that are not deleted yet.
fn places_of_others(
    alloc: Global,
    segment: &Segment,
    deleted: &[u32],
    keys: &KeySet<i64>,
    near: &[i64],
) -> Result<Vec<u32>, AllocError>
    requires up { IsNonDecreasing deleted.now }
    requires near { AreNear keys.now near.now segment.now }
    ensures { IfOk result (λ places. IsWith keys.now deleted.now segment.now places.items) }
{
    let mut places = Vec::with_capacity(alloc, segment.len())?;
    let mut last = LastKey::first(keys);
    for i in 0..segment.len() {
        put_other(segment, deleted, keys, near, &mut last, i, &mut places)?;
    }
    Ok(places)
}

/// One place more, unless its row is not deleted and of an order of these keys.
fn put_other(
    segment: &Segment,
    deleted: &[u32],
    keys: &KeySet<i64>,
    near: &[i64],
    last: &mut LastKey,
    i: usize,
    places: &mut Vec<u32>,
) -> Result<(), AllocError>
    requires up { IsNonDecreasing deleted.now }
    requires near { AreNear keys.now near.now segment.now }
    requires last { last.old.is_there ≡ has_key keys.now last.old.key }
    requires within { i < length segment.now }
    requires short { i < 4096 }
    ensures places { OnOk result (places.new.items
        ≡ (if has_place deleted.now i || not (has_key keys.now
        (order_key (slice_index_or segment.now i []))) then places.old.items
        ++ i ∷ [] else places.old.items)) }
    ensures last { last.new.is_there ≡ has_key keys.now last.new.key }
{
    let is_wanted = last.has(keys, near, number_at(segment, i, 0));
    if !is_wanted || has_place(deleted, i as u32) {
        places.push(i as u32)?;
    }
    Ok(())
}

/// Puts the key of the order in a row after others, unless it is deleted.
fn put_order_key(
    segment: &Segment,
    deleted: &[u32],
    i: usize,
    keys: &mut Vec<i64>,
) -> Result<(), AllocError>
    requires up { IsNonDecreasing deleted.now }
    requires within { i < length segment.now }
    requires short { i < 4096 }
    ensures { OnOk result (keys.new.items
        ≡ (if has_place deleted.now i then keys.old.items else keys.old.items
        ++ order_key (slice_index_or segment.now i []) ∷ [])) }
{
    if !has_place(deleted, i as u32) {
        keys.push(number_at(segment, i, 0))?;
    }
    Ok(())
}

/// Puts the keys of a segment's orders after others, but for the deleted ones.
fn put_order_keys(segment: &Segment, deleted: &[u32], keys: &mut Vec<i64>) -> Result<(), AllocError>
    requires { IsNonDecreasing deleted.now }
    ensures { OnOk result (keys.new.items
        ≡ keys.old.items ++ order_keys (left_rows deleted.now segment.now)) }
{
    for i in 0..segment.len() {
        put_order_key(segment, deleted, i, keys)?;
    }
    Ok(())
}

/// Puts the key of the lineitem in a row after others, unless it is deleted.
pub(crate) fn put_line_key(
    segment: &Segment,
    deleted: &[u32],
    i: usize,
    keys: &mut Vec<LineKey>,
) -> Result<(), AllocError>
    requires up { IsNonDecreasing deleted.now }
    requires within { i < length segment.now }
    requires short { i < 4096 }
    ensures { OnOk result (keys.new.items
        ≡ (if has_place deleted.now i then keys.old.items else keys.old.items
        ++ line_key (slice_index_or segment.now i []) ∷ [])) }
{
    if !has_place(deleted, i as u32) {
        keys.push(line_key(segment, i))?;
    }
    Ok(())
}

/// Puts the keys of a segment's lineitems after others, but for the deleted ones.
fn put_line_keys(
    segment: &Segment,
    deleted: &[u32],
    keys: &mut Vec<LineKey>,
) -> Result<(), AllocError>
    requires { IsNonDecreasing deleted.now }
    ensures { OnOk result (keys.new.items
        ≡ keys.old.items ++ line_keys (left_rows deleted.now segment.now)) }
{
    for i in 0..segment.len() {
        put_line_key(segment, deleted, i, keys)?;
    }
    Ok(())
}

/// Puts a row after others, unless it is deleted.
fn put_row(
    alloc: Global,
    segment: &Segment,
    deleted: &[u32],
    i: usize,
    rows: &mut Vec<Row>,
) -> Result<(), AllocError>
    requires up { IsNonDecreasing deleted.now }
    requires within { i < length segment.now }
    requires short { i < 4096 }
    ensures { OnOk result (rows.new.items
        ≡ (if has_place deleted.now i then rows.old.items else rows.old.items
        ++ slice_index_or segment.now i [] ∷ [])) }
{
    if !has_place(deleted, i as u32) {
        let row = Row::new(segment.row(alloc, i)?)?;
        rows.push(row)?;
    }
    Ok(())
}

/// Puts a segment's rows after others, but for the deleted ones.
fn put_rows(
    alloc: Global,
    segment: &Segment,
    deleted: &[u32],
    rows: &mut Vec<Row>,
) -> Result<(), AllocError>
    requires { IsNonDecreasing deleted.now }
    ensures { OnOk result (rows.new.items ≡ rows.old.items ++ left_rows deleted.now segment.now) }
{
    for i in 0..segment.len() {
        put_row(alloc, segment, deleted, i, rows)?;
    }
    Ok(())
}

/// Puts a place after others, unless it is deleted.
fn put_left(deleted: &[u32], place: u32, places: &mut Vec<u32>) -> Result<(), AllocError>
    requires { IsNonDecreasing deleted.now }
    ensures { OnOk result (places.new.items
        ≡ (if has_place deleted.now place then places.old.items else places.old.items
        ++ place ∷ [])) }
{
    if !has_place(deleted, place) {
        places.push(place)?;
    }
    Ok(())
}

/// The places of a segment's rows that are not deleted.
fn left_places(alloc: Global, segment: &Segment, deleted: &[u32]) -> Result<Vec<u32>, AllocError>
    requires { IsNonDecreasing deleted.now }
    ensures { IfOk result (λ places. IsLeft deleted.now segment.now places.items) }
{
    let mut places = Vec::with_capacity(alloc, segment.len())?;
    for i in 0..segment.len() {
        put_left(deleted, i as u32, &mut places)?;
    }
    Ok(places)
}

#[tactic(auto, using(crate::proofs::LeftRows::parts))]
impl Part {
    /// All rows of a segment.
    pub(crate) fn whole(alloc: Global, segment: Segment) -> Result<Part, AllocError>
        ensures { IfOk result (λ part. part ≡ segment) }
    {
        let range = KeyRange::of(&segment);
        let deleted = Arc::new(alloc, Vec::new(alloc))?;
        Ok(Part {
            segment,
            range,
            deleted,
        })
    }

    /// How many rows are left.
    pub fn len(&self) -> usize
        ensures count { result ≡ length self.now }
        ensures most { result ≤ 4096 }
    {
        self.segment.len() - self.deleted.len()
    }

    /// Whether a row may be of an order of these keys.
    pub(crate) fn may_have(&self, keys: &KeySet<i64>) -> bool
        ensures { result ≡ false → HasNone keys.now self.now }
    {
        self.range.has_one_of(keys.as_slice())
    }

    /// Puts the keys of the orders after others.
    pub(crate) fn put_order_keys(&self, keys: &mut Vec<i64>) -> Result<(), AllocError>
        ensures { OnOk result (keys.new.items ≡ keys.old.items ++ order_keys self.now) }
    {
        put_order_keys(&self.segment, self.deleted.as_slice(), keys)
    }

    /// Puts the keys of the lineitems after others.
    pub(crate) fn put_line_keys(&self, keys: &mut Vec<LineKey>) -> Result<(), AllocError>
        ensures { OnOk result (keys.new.items ≡ keys.old.items ++ line_keys self.now) }
    {
        put_line_keys(&self.segment, self.deleted.as_slice(), keys)
    }

    /// Keys, in place of others, that tell which of the wanted keys an order has. Where the keys of
    /// the orders ascend they are searched.
    pub(crate) fn tell_orders(
        &self,
        wanted: &KeySet<i64>,
        keys: &mut Vec<i64>,
    ) -> Result<(), AllocError>
        ensures { OnOk result (TellsKeys wanted.now (order_keys self.now) keys.new.items) }
    {
        keys.clear();
        let (segment, deleted) = (&self.segment, self.deleted.as_slice());
        if self.range.ascends() {
            put_orders_of(segment, deleted, self.range, wanted.as_slice(), keys)
        } else {
            put_order_keys(segment, deleted, keys)
        }
    }

    /// Keys, in place of others, that tell which lineitems of the wanted orders there are. Where
    /// the keys of the orders ascend they are searched.
    pub(crate) fn tell_lines(
        &self,
        wanted: &KeySet<i64>,
        lines: &mut Vec<LineKey>,
    ) -> Result<(), AllocError>
        ensures { OnOk result (TellsLines wanted.now (line_keys self.now) lines.new.items) }
    {
        lines.clear();
        let (segment, deleted) = (&self.segment, self.deleted.as_slice());
        if self.range.ascends() {
            put_lines_of(segment, deleted, self.range, wanted.as_slice(), lines)
        } else {
            put_line_keys(segment, deleted, lines)
        }
    }

    /// Puts the rows after others, each as a row of its own.
    pub(crate) fn put_rows(&self, alloc: Global, rows: &mut Vec<Row>) -> Result<(), AllocError>
        ensures { OnOk result (rows.new.items ≡ rows.old.items ++ self.now) }
    {
        put_rows(alloc, &self.segment, self.deleted.as_slice(), rows)
    }

    /// A share of the stored segment, and the places of the rows that are left of it, unless all
    /// are.
    pub fn stored(&self, alloc: Global) -> Result<(Segment, Option<Vec<u32>>), AllocError>
        ensures whole { IfOk result (λ stored. IfNone stored.1 (self.now ≡ stored.0)) }
        ensures below { IfOk result
            (λ stored. IfSome stored.1 (λ places. AreBelow (length stored.0) places.items)) }
        ensures left { IfOk result
            (λ stored. IfSome stored.1 (λ places. self.now ≡ gathered [] stored.0 places.items)) }
    {
        let segment = self.segment.clone()?;
        if self.len() == segment.len() {
            return Ok((segment, None));
        }
        let places = left_places(alloc, &self.segment, self.deleted.as_slice())?;
        Ok((segment, Some(places)))
    }

    /// The rows of none of the orders of these keys. Where no row has one, it is another share of
    /// the same places.
    pub(crate) fn without(&self, alloc: Global, keys: &KeySet<i64>) -> Result<Part, AllocError>
        ensures { IfOk result (λ part. part ≡ without_keys keys.now self.now) }
    {
        if !self.may_have(keys) {
            return self.clone();
        }
        let near = self.range.near(alloc, keys.as_slice())?;
        let deleted = self.deleted.as_slice();
        let places = places_without(alloc, &self.segment, deleted, keys, &near)?;
        if places.len() == self.deleted.len() {
            return self.clone();
        }
        let segment = self.segment.clone()?;
        let deleted = Arc::new(alloc, places)?;
        Ok(Part {
            segment,
            range: self.range,
            deleted,
        })
    }
}

impl Part {
    /// The rows of the orders of these keys, as another share of the segment.
    pub(crate) fn of_orders(&self, alloc: Global, keys: &KeySet<i64>) -> Result<Part, AllocError>
        ensures { IfOk result (λ part. part ≡ with_keys keys.now self.now) }
    {
        let near = self.range.near(alloc, keys.as_slice())?;
        let deleted = self.deleted.as_slice();
        let places = places_of_others(alloc, &self.segment, deleted, keys, &near)?;
        let segment = self.segment.clone()?;
        let deleted = Arc::new(alloc, places)?;
        Ok(Part {
            segment,
            range: self.range,
            deleted,
        })
    }
}

impl Clone for Part {
    ghost is_clone = { λ p q. q ≡ p };

    fn clone(&self) -> Result<Part, AllocError>
        ensures { IfOk result (λ part. part ≡ self.now) }
    {
        let segment = self.segment.clone()?;
        let deleted = Arc::try_clone(&self.deleted)?;
        Ok(Part {
            segment,
            range: self.range,
            deleted,
        })
    }
}
