//! Columns of values, batches of rows kept column by column, and the rows of a table as shared
//! batches.
#![tactic(auto)]

mod bag;
mod batch;
mod batch_builder;
mod batch_columns;
mod codes;
mod column;
mod column_builder;
mod conversion;
mod dictionary;
mod field;
mod form;
mod marked_form;
mod marked_pushes;
mod nulls;
mod padding;
mod places;
mod pushes;
mod rows;
mod rows_builder;
mod segment;
mod standings;
mod texts;

pub use bag::Bag;
pub use batch::Batch;
pub use batch_builder::BatchBuilder;
pub use column::Column;
pub use column_builder::{ColumnBuilder, ColumnForm};
pub use conversion::stored_rows;
pub use dictionary::{DICTIONARY_TEXTS, Dictionary};
pub use field::Field;
pub use rows::Rows;
pub use rows_builder::RowsBuilder;
pub use segment::{SEGMENT_ROWS, Segment};
