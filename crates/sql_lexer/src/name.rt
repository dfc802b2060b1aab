//! Names outside a script.
ghost use Rattle.std.specs.Prelude.{◌≡◌, IfOk};
ghost use Rattle.sql_lexer.specs.Bytes as byte;
ghost use Rattle.sql_lexer.specs.Forms as forms;
ghost use Rattle.sql_lexer.specs.Names.{is_whole_word, name_of};

use crate::content::word;
use crate::front::{is_letter, is_word};
use crate::token::Content;
use base_text::Text;
use std::alloc::{AllocError, Global};

/// Whether each byte can stand in a word.
fn are_word(bytes: &[u8]) -> bool
    ensures { result ≡ forms.all_are byte.is_word bytes.now }
{
    bytes.iter().all(|b| is_word(*b))
}

/// Whether the bytes are a word.
fn is_whole_word(bytes: &[u8]) -> bool
    ensures { result ≡ is_whole_word bytes.now }
{
    match bytes {
        [first, ..] => is_letter(*first) && are_word(bytes),
        [] => false,
    }
}

/// The name that bytes are, in lower case, where they are a word that isn't reserved.
pub fn name_of(alloc: Global, bytes: &[u8]) -> Result<Option<Text>, AllocError>
    ensures { IfOk result (λ name. name ≡ name_of bytes.now) }
{
    if !is_whole_word(bytes) {
        return Ok(None);
    }
    let (_, content) = word(alloc, bytes)?;
    match content {
        Content::Text(name) => Ok(Some(name)),
        _ => Ok(None),
    }
}
