//! What the program reads and writes beside its answers: the words of the command line, the files
//! that they name, and the line of a refused input. A script, a job, the eight tables and the
//! refresh files are read here, each refused at its first fault.
#![tactic(auto)]

mod data_file;
mod input;
mod input_error;
mod job_file;
mod output;
mod refreshes;
mod refusal_line;
mod script;
mod script_refusal;
mod set_files;
mod status;
mod tables;
pub mod word_laws;
mod words;

pub use input::read_file;
pub use input_error::{InputError, InputFault, ReadError, RefusedInput, refusal_of};
pub use job_file::read_job_file;
pub use output::write_text;
pub use refreshes::{mentions_of, read_refreshes};
pub use refusal_line::line_of_refusal;
pub use script::read_statements;
pub use status::Status;
pub use tables::read_state;
pub use words::{Command, read_words};
