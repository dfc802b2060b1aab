//! What a name stands for.
ghost use Rattle.std.specs.Prelude.{◌≡◌, IfOk};
ghost use Rattle.std.specs.Str.{bytes_eq};
ghost use Rattle.sql_binder_steps.specs.Steps.{Gives};
ghost use Rattle.sql_binder_steps.specs.Names.{sight_of, level_of, ends, is_met, means, key_of};
ghost use Rattle.sql_binder_steps.specs.Names.{placed, resolved, the_one};
ghost use Rattle.sql_binder_steps.specs.Names as spec;

use crate::fault::BindFault;
use crate::view::StatementViews;
use base_refusals::BindRefusal;
use expr_scalar::Kind;
use sql_ast::{Column, Name};
use sqlite_items::Items;
use std::alloc::AllocError;

/// A column of a FROM list: its item's name or alias, its own name, and what its values are.
#[derive(Drop)]
pub struct ScopeColumn {
    pub item: Name,
    pub name: Name,
    pub kind: Kind,
}

/// A query around an expression: the columns of its FROM list and, where its groups are read, the
/// places of its GROUP BY columns.
#[derive(Clone, Copy)]
pub struct Level<'a> {
    pub columns: &'a [ScopeColumn],
    pub keys: &'a Option<Items<u32>>,
}

/// What is in sight: the views; the queries around, from the innermost on; how many of these, from
/// the outermost, no name may use; and whether a subquery may stand here.
#[derive(Clone, Copy)]
pub struct Site<'a> {
    pub views: &'a StatementViews<'a>,
    pub levels: &'a [Level<'a>],
    pub hidden: usize,
    pub takes_subqueries: bool,
}

/// The place of a column in its FROM list, and its kind.
#[derive(Clone, Copy)]
pub struct Place {
    pub at: u32,
    pub kind: Kind,
}

/// A column by its levels out and its place there.
#[derive(Clone, Copy)]
pub struct ColumnAt {
    pub level: u32,
    pub at: u32,
    pub kind: Kind,
}

/// A number of columns or levels. More than 2^32 of them count as memory that was refused.
pub fn narrow(n: usize) -> Result<u32, AllocError>
    ensures { IfOk result (λ m. m ≡ n) }
{
    u32::try_from(n).map_err(|_| AllocError)
}

/// Whether two names have the same bytes.
pub fn same_name(a: &Name, b: &Name) -> bool
    ensures { result ≡ bytes_eq a.now b.now }
{
    a.bytes() == b.bytes()
}

/// Whether the search for a name ends at a query with this column.
#[tactic(auto, unfolding(crate::specs::Names::is_met))]
fn is_met(wanted: &Column, c: &ScopeColumn) -> bool
    ensures { result ≡ is_met wanted.now c.now }
{
    match &wanted.item {
        None => same_name(&c.name, &wanted.name),
        Some(item) => same_name(&c.item, item),
    }
}

#[tactic(auto, unfolding(crate::specs::Names::ends))]
fn ends(wanted: &Column, columns: &[ScopeColumn]) -> bool
    ensures { result ≡ ends wanted.now columns.now }
{
    for c in columns {
        if is_met(wanted, c) {
            return true;
        }
    }
    false
}

/// Whether the name may stand for this column.
#[tactic(auto, unfolding(crate::specs::Names::means))]
fn means(wanted: &Column, c: &ScopeColumn) -> bool
    ensures { result ≡ means wanted.now c.now }
{
    is_met(wanted, c) && same_name(&c.name, &wanted.name)
}

/// The one column that the name means.
#[tactic(auto, unfolding(crate::specs::Names::the_one))]
pub fn the_one(wanted: &Column, columns: &[ScopeColumn]) -> Result<Place, BindFault>
    ensures { Gives (the_one wanted.now columns.now) result }
{
    let mut found = None;
    let mut at = 0;
    let mut left = columns;
    'columns: while let [c, rest @ ..] = left {
        if means(wanted, c) {
            if found.is_some() {
                return Err(BindFault::Refused(BindRefusal::AmbiguousColumn));
            }
            found = Some(Place {
                at: narrow(at)?,
                kind: c.kind,
            });
        }
        at += 1;
        left = rest;
    }
    match found {
        Some(place) => Ok(place),
        None => Err(BindFault::Refused(BindRefusal::UnknownColumn)),
    }
}

#[tactic(auto, unfolding(crate::specs::Names::key_of))]
fn key_of(keys: &[u32], at: u32) -> Option<usize>
    ensures { result ≡ key_of keys.now at }
{
    keys.iter().position(|key| *key == at)
}

fn key_at(key: Option<usize>) -> Result<u32, BindFault>
    ensures { Gives (spec.key_at key) result }
{
    match key {
        Some(key) => Ok(narrow(key)?),
        None => Err(BindFault::Refused(BindRefusal::NotGrouped)),
    }
}

/// A column's place in a row, or, where the groups are read, among the GROUP BY columns.
pub fn placed(keys: &Option<Items<u32>>, at: u32) -> Result<u32, BindFault>
    ensures { Gives (placed keys.now at) result }
{
    match keys {
        None => Ok(at),
        Some(keys) => key_at(key_of(keys.as_slice(), at)),
    }
}

#[tactic(auto, unfolding(crate::specs::Names::found))]
fn found(wanted: &Column, level: &Level<'_>, out: usize, seen: usize) -> Result<ColumnAt, BindFault>
    ensures { Gives (spec.found wanted.now (level_of level.now) out seen) result }
{
    let place = the_one(wanted, level.columns)?;
    if out >= seen {
        return Err(BindFault::Refused(BindRefusal::LateralReference));
    }
    let at = placed(level.keys, place.at)?;
    let level = narrow(out)?;
    Ok(ColumnAt {
        level,
        at,
        kind: place.kind,
    })
}

/// The column that a name stands for.
#[tactic(auto, unfolding(crate::specs::Names::resolved))]
pub fn resolved(site: &Site<'_>, wanted: &Column) -> Result<ColumnAt, BindFault>
    ensures { Gives (resolved (sight_of site.now) wanted.now) result }
{
    let seen = site.levels.len().saturating_sub(site.hidden);
    let mut out = 0;
    let mut levels = site.levels;
    'levels: while let [level, rest @ ..] = levels {
        if ends(wanted, level.columns) {
            return found(wanted, level, out, seen);
        }
        out += 1;
        levels = rest;
    }
    Err(BindFault::Refused(BindRefusal::UnknownColumn))
}
