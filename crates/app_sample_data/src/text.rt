//! A text with the name of its file.

/// A file of the data.
#[derive(Drop)]
pub struct NamedText {
    /// The file's name, without a folder.
    pub name: String,
    /// All of its bytes.
    pub bytes: Vec<u8>,
}
