//! The keys of the fields behind a word.

ghost use Rattle.std.specs.Prelude.{◌≡◌, map, option_map};
ghost use Rattle.scrib_objects.specs.Objects as spec;

/// Returns the keys of the fields behind the word, in the order of the line. None where no line has this word.
pub(crate) fn keys_of(word: &str) -> Option<&'static [&'static str]>
    ensures { option_map (λ keys. map (λ key. key.now) keys.now) result ≡ spec.keys_of word.now }
{
    match word {
        "withdraw" => Some(&["module"]),
        "profile" => Some(&["profile"]),
        "open" => Some(&["id", "protocol"]),
        "join" => Some(&["id", "role"]),
        "send" | "recv" => Some(&["id", "from", "to", "message"]),
        "turn" | "ask" | "close" => Some(&["id"]),
        "sweep" => Some(&[]),
        _ => None,
    }
}
