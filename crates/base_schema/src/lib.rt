//! The schema of the eight tables: columns, kinds, primary keys, the files of rows,
//! and what it is for a row to be of a table.
#![tactic(auto)]

mod column;
mod file;
mod table;

pub use column::{ColumnKind, LineColumn};
pub use file::DataFile;
pub use table::{TABLES, TableName};
