//! Reading the eight tables of a folder.
ghost use Rattle.std.specs.Prelude.{◌≡◌, ◌++◌, IfOk, length, true};
ghost use Rattle.std.specs.String.{string_bytes};
ghost use Rattle.std.specs.Vec.{vec_items};
ghost use Rattle.store_state.specs.Lists.{IsOfKinds, state_of};
ghost use Rattle.base_schema.specs.Kinds.{RowsAreOf};
ghost use Rattle.base_schema.specs.Tables.{all_tables};
ghost use Rattle.app_inputs.specs.Lists.{TablesHaveKinds};
ghost use Rattle.app_inputs.specs.FilesAfter.{FilesAfterInput};
ghost use Rattle.app_inputs.specs.Inputs.{lists_in, state_in, table_file, table_in};
ghost use Rattle.app_inputs.specs.TableFile.{IsRowsOf};
ghost use Rattle.app_inputs.specs.Views.{Reads};

use crate::data_file::{DataReader, read_data_file};
use crate::input_error::{InputError, InputFault, ReadError, refusal_of};
use base_columns::Rows;
use base_io::{Files, Open};
use base_schema::{TABLES, TableName};
use std::alloc::{AllocError, Global};
use store_file_reader::TableReader;
use store_state::State;

/// The name of a table's file in a folder.
fn file_name(alloc: Global, folder: &str, table: TableName) -> Result<String, AllocError>
    ensures { IfOk result (λ name. string_bytes name ≡ table_file folder.now table) }
{
    let mut name = String::from_str(alloc, folder)?;
    name.push_str("/")?;
    name.push_str(table.name())?;
    name.push_str(".tbl")?;
    Ok(name)
}

/// The rows of the open file, which is a table's and has that name. It is read no further than its
/// first bad line's piece.
fn read_rows<F: Files>(
    alloc: Global,
    files: &mut F,
    name: &str,
    table: TableName,
) -> Result<Rows, InputError>
    requires { F.is_open files.old ≡ true }
    ensures rows { IsRowsOf table name.now (F.left files.old) result }
    ensures kinds { IfOk result (RowsAreOf table) }
    ensures files { FilesAfterInput F.held F.faults F.misses result files.old files.new }
{
    let reader = TableReader::new(alloc, table)?;
    match read_data_file(files, DataReader::Table(reader))? {
        Ok(rows) => Ok(rows),
        Err(first) => Err(refusal_of(alloc, name, InputFault::Line(first))),
    }
}

/// The rows of the table in the folder.
fn read_table<F: Files>(
    alloc: Global,
    files: &mut F,
    folder: &str,
    table: TableName,
) -> Result<Rows, InputError>
    ensures input { Reads (λ rows. rows) (F.held files.old) (table_in folder.now table) result }
    ensures kinds { IfOk result (RowsAreOf table) }
    ensures files { FilesAfterInput F.held F.faults F.misses result files.old files.new }
{
    let name = file_name(alloc, folder, table)?;
    match files.open(&name) {
        Open::Failed => Err(InputError::Unread(ReadError::Fault)),
        Open::Absent => Err(refusal_of(alloc, &name, InputFault::Absent)),
        Open::Opened => read_rows(alloc, files, &name, table),
    }
}

/// The rows of each of the tables in the folder.
fn read_tables<F: Files>(
    alloc: Global,
    files: &mut F,
    folder: &str,
    names: &[TableName],
) -> Result<Vec<Rows>, InputError>
    ensures input { Reads vec_items (F.held files.old) (lists_in folder.now names.now) result }
    ensures length { IfOk result (λ tables. length tables.items ≡ length names.now) }
    ensures kinds { IfOk result (λ tables. TablesHaveKinds names.now tables.items) }
    ensures files { FilesAfterInput F.held F.faults F.misses result files.old files.new }
{
    let mut tables = Vec::new(alloc);
    for name in names {
        let rows = read_table(alloc, files, folder, *name)?;
        tables.push(rows)?;
    }
    Ok(tables)
}

/// The tables of the folder.
pub fn read_state<F: Files>(alloc: Global, files: &mut F, folder: &str) -> Result<State, InputError>
    ensures input { Reads (λ state. state) (F.held files.old) (state_in folder.now) result }
    ensures files { FilesAfterInput F.held F.faults F.misses result files.old files.new }
{
    let tables = read_tables(alloc, files, folder, &TABLES)?;
    let state = State::new(alloc, tables)?;
    Ok(state)
}
