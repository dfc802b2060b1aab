//! Lists of names: aliases, column lists, and the columns of tables and queries.
ghost use Rattle.std.specs.Prelude.{◌≡◌, map, unwrap_or, IfOk};
ghost use Rattle.std.specs.List.{list_any};
ghost use Rattle.std.specs.Str.{bytes_eq};
ghost use Rattle.sql_binder_steps.specs.Steps.{Gives};
ghost use Rattle.sql_binder_steps.specs.Parts as spec;
ghost use Rattle.sql_binder_steps.specs.declared.view.View.{View};

use crate::fault::BindFault;
use crate::scope::{ScopeColumn, same_name};
use crate::view::{Header, View};
use base_refusals::BindRefusal;
use base_schema::{ColumnKind, TableName};
use base_text::Text;
use sql_ast::Name;
use sql_bound_query::kind_of_column;
use sqlite_items::Items;
use std::alloc::{AllocError, Global};

/// A share of a name.
pub fn share(name: &Name) -> Result<Name, AllocError>
    ensures { IfOk result (λ n. n ≡ name.now) }
{
    let shared = name.clone()?;
    Ok(shared)
}

/// The alias, where one stands, else the name.
pub fn alias_of<'a>(name: &'a Name, alias: &'a Option<Name>) -> &'a Name
    ensures { result.now ≡ unwrap_or alias.now name.now }
{
    match alias {
        Some(alias) => alias,
        None => name,
    }
}

// A column of the schema. Names of the schema are printable, so that only memory can be wanted.
fn schema_header(alloc: Global, name: &str, kind: ColumnKind) -> Result<Header, AllocError>
    ensures { IfOk result (λ h. h ≡ spec.schema_header name.now kind) }
{
    match Text::new(alloc, name.as_bytes()) {
        Ok(name) => Ok(Header {
            name,
            kind: kind_of_column(kind),
        }),
        Err(_) => Err(AllocError),
    }
}

/// The columns of a table.
#[tactic(auto, unfolding(crate::specs::Parts::table_headers))]
pub fn table_headers(alloc: Global, table: TableName) -> Result<Items<Header>, AllocError>
    ensures { IfOk result (λ all. all ≡ spec.table_headers table) }
{
    let mut all = Items::new(alloc);
    let mut names = table.column_names();
    let mut kinds = table.kinds();
    'columns: while let [name, more_names @ ..] = names {
        let [kind, more_kinds @ ..] = kinds else {
            return Ok(all);
        };
        all.push(schema_header(alloc, name, *kind)?)?;
        names = more_names;
        kinds = more_kinds;
    }
    Ok(all)
}

fn is_item(mut left: &[ScopeColumn], alias: &Name) -> bool
    ensures { result ≡ spec.is_item left.entry.now alias.now }
{
    'left: while let [c, rest @ ..] = left {
        if same_name(&c.item, alias) {
            return true;
        }
        left = rest;
    }
    false
}

/// No item to the left has that name.
#[tactic(auto, unfolding(crate::specs::Parts::unused))]
pub fn unused(left: &[ScopeColumn], alias: &Name) -> Result<(), BindFault>
    ensures { Gives (spec.unused left.now alias.now) result }
{
    if is_item(left, alias) {
        Err(BindFault::Refused(BindRefusal::DuplicateAlias))
    } else {
        Ok(())
    }
}

#[tactic(auto, unfolding(crate::specs::Parts::column_of))]
fn column_of(item: &Name, h: &Header) -> Result<ScopeColumn, AllocError>
    ensures { IfOk result (λ c. c ≡ spec.column_of item.now h.now) }
{
    let item = share(item)?;
    let name = share(&h.name)?;
    Ok(ScopeColumn {
        item,
        name,
        kind: h.kind,
    })
}

/// The columns of an item of FROM.
pub fn columns_of(
    alloc: Global,
    item: &Name,
    headers: &[Header],
) -> Result<Items<ScopeColumn>, AllocError>
    ensures { IfOk result (λ all. all ≡ map (spec.column_of item.now) headers.now) }
{
    let mut all = Items::new(alloc);
    for h in headers {
        let c = column_of(item, h)?;
        all.push(c)?;
    }
    Ok(all)
}

fn stands_in(mut names: &[Name], name: &Name) -> bool
    ensures { result ≡ spec.stands_in name.now names.entry.now }
{
    'names: while let [n, rest @ ..] = names {
        if same_name(n, name) {
            return true;
        }
        names = rest;
    }
    false
}

fn has_twice(mut names: &[Name]) -> bool
    ensures { result ≡ spec.has_twice names.entry.now }
{
    'names: while let [n, rest @ ..] = names {
        if stands_in(rest, n) {
            return true;
        }
        names = rest;
    }
    false
}

/// The names of a column list differ.
#[tactic(auto, unfolding(crate::specs::Parts::distinct_names))]
pub fn distinct_names(names: &[Name]) -> Result<(), BindFault>
    ensures { Gives (spec.distinct_names names.now) result }
{
    if has_twice(names) {
        Err(BindFault::Refused(BindRefusal::DuplicateAlias))
    } else {
        Ok(())
    }
}

fn is_name_of(mut views: &[View], name: &Name) -> bool
    ensures { result ≡ list_any (λ (v : View). bytes_eq v.name name.now) views.entry.now }
{
    'views: while let [v, rest @ ..] = views {
        if same_name(&v.name, name) {
            return true;
        }
        views = rest;
    }
    false
}

/// No query of WITH before has that name.
pub fn new_name(name: &Name, done: &[View]) -> Result<(), BindFault>
    ensures { Gives (spec.new_name name.now done.now) result }
{
    if is_name_of(done, name) {
        Err(BindFault::Refused(BindRefusal::DuplicateAlias))
    } else {
        Ok(())
    }
}

fn under_names(
    alloc: Global,
    names: &[Name],
    headers: &[Header],
) -> Result<Items<Header>, AllocError>
    ensures { IfOk result (λ all. all ≡ spec.under_names names.now headers.now) }
{
    let mut all = Items::new(alloc);
    let mut names_left = names;
    let mut left = headers;
    'names: while let [name, more_names @ ..] = names_left {
        let [h, more @ ..] = left else {
            return Ok(all);
        };
        let name = share(name)?;
        all.push(Header { name, kind: h.kind })?;
        names_left = more_names;
        left = more;
    }
    Ok(all)
}

/// Columns under the names of a column list, where one stands.
#[tactic(auto, unfolding(crate::specs::Parts::renamed_headers))]
pub fn renamed_headers(
    alloc: Global,
    names: &[Name],
    headers: Items<Header>,
) -> Result<Items<Header>, BindFault>
    ensures { Gives (spec.renamed_headers names.now headers) result }
{
    match names {
        [] => Ok(headers),
        _ => {
            if names.len() != headers.len() {
                return Err(BindFault::Refused(BindRefusal::SubqueryColumns));
            }
            Ok(under_names(alloc, names, headers.as_slice())?)
        }
    }
}

/// The columns of a derived table, whose column list stands after its query.
#[tactic(auto, unfolding(crate::specs::Parts::listed_headers))]
pub fn listed_headers(
    alloc: Global,
    names: &[Name],
    headers: Items<Header>,
) -> Result<Items<Header>, BindFault>
    ensures { Gives (spec.listed_headers names.now headers) result }
{
    distinct_names(names)?;
    let headers = renamed_headers(alloc, names, headers)?;
    Ok(headers)
}
