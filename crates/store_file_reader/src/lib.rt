//! The rows of a file, a table's or one of a refresh set, read in pieces however they are cut.
//!
//! A line ends at LF or at the file's end, and one CR directly before either is dropped. Its fields
//! are parted by bars, of which one may stand after the last field. The first bad line refuses the
//! file.
#![tactic(auto)]

mod error;
mod field;
mod key;
mod keyed;
pub mod laws;
mod line;
mod lines;
mod pieces;
mod plain;
mod reader;
mod refresh_reader;
mod table_reader;

pub use error::TableError;
pub use pieces::read_pieces;
pub use reader::MOST_BYTES;
pub use refresh_reader::RefreshReader;
pub use table_reader::TableReader;
