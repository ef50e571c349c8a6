//! The id of a conversation on a command line.

ghost use Rattle.scrib_script_reader.specs.Fields.{Finds, IsNumberText};

// The most digits of an id.
const MAX_DIGITS: usize = 10;

/// Parses the id of a conversation: 1 to 10 decimal digits, at most 4,294,967,295. Returns `None` for other words.
pub fn id_of(word: &str) -> Option<u32>
    ensures { Finds (IsNumberText word.now) result }
{
    let bytes = word.as_bytes();
    if bytes.is_empty() || bytes.len() > MAX_DIGITS {
        return None;
    }
    // `parse` accepts a plus.
    if bytes[0] == b'+' {
        return None;
    }
    word.parse::<u32>().ok()
}
