//! How many rows each table of a version has.
ghost use Rattle.std.specs.Prelude.{◌≡◌, ◌++◌, OnOk};
ghost use Rattle.std.specs.List.{flat_map};
ghost use Rattle.store_versions.specs.Trials.{tables_of};
ghost use Rattle.app_sessions.specs.Counts.{count_line, counts_text};

use base_schema::{TABLES, TableName};
use itoa::Buffer;
use plan_algebra::Tables;
use std::alloc::AllocError;
use store_snapshots::Snapshot;
use store_versions::Attachment;

/// Appends the line of a table.
fn push_count<A: Attachment>(
    text: &mut Vec<u8>,
    snapshot: &Snapshot<A>,
    table: TableName,
) -> Result<(), AllocError>
    ensures { OnOk result (text.new.items
        ≡ text.old.items ++ count_line (tables_of snapshot.now) table) }
{
    let mut buffer = Buffer::new();
    text.extend_from_slice(table.name().as_bytes())?;
    text.extend_from_slice(b" rows ")?;
    text.extend_from_slice(buffer.format(snapshot.count(table)).as_bytes())?;
    text.push(b'\n')?;
    Ok(())
}

/// Appends the lines of these tables.
fn push_lines<A: Attachment>(
    text: &mut Vec<u8>,
    snapshot: &Snapshot<A>,
    tables: &[TableName],
) -> Result<(), AllocError>
    ensures { OnOk result (text.new.items
        ≡ text.old.items ++ flat_map (count_line (tables_of snapshot.now)) tables.now) }
{
    for table in tables {
        push_count(text, snapshot, *table)?;
    }
    Ok(())
}

/// Appends a line for each table of the version: its name, and how many rows it has.
pub fn push_counts<A: Attachment>(
    text: &mut Vec<u8>,
    snapshot: &Snapshot<A>,
) -> Result<(), AllocError>
    ensures { OnOk result (text.new.items
        ≡ text.old.items ++ counts_text (tables_of snapshot.now)) }
{
    push_lines(text, snapshot, &TABLES)
}
