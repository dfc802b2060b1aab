//! The words of the command line.
ghost use Rattle.std.specs.Prelude.{◌≡◌, ℕ, MatchOption, map};
ghost use Rattle.std.specs.String.{string_bytes};
ghost use Rattle.make_data.specs.Words.{Asks, AsksNothing, IsNumber};

use itoa::Buffer;

/// What the words ask for.
#[derive(Clone, Copy, Debug)]
pub struct Request<'w> {
    /// The number that data is made for, from 1 to 1000.
    pub number: u64,
    /// The folder that it is written into.
    pub folder: &'w str,
}

/// The number from 1 to 1000 that a word writes in decimal digits, without a sign or a leading
/// zero.
fn number_of(word: &str) -> Option<u64>
    ensures { MatchOption result ((n : ℕ) → ¬ IsNumber word.now n) (λ n. IsNumber word.now n) }
{
    let Ok(number) = word.parse::<u64>() else {
        return None;
    };
    let mut buffer = Buffer::new();
    let is_plain = buffer.format(number).as_bytes() == word.as_bytes();
    if is_plain && 1 <= number && number <= 1000 {
        return Some(number);
    }
    None
}

/// What the words ask for, if they are a number and a folder.
pub fn read_words(words: &[String]) -> Option<Request<'_>>
    ensures { MatchOption result (AsksNothing (map string_bytes words.now))
        (λ request. Asks (map string_bytes words.now) request.number request.folder.now) }
{
    let [number, folder] = words else {
        return None;
    };
    let number = number_of(number.as_str())?;
    let folder = folder.as_str();
    Some(Request { number, folder })
}
