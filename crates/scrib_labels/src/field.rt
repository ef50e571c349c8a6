//! The fields of a line, one by one.

ghost use Rattle.std.specs.Prelude.{◌≡◌, ◌≤◌, ◌∷◌, [], MatchOption, length};
ghost use Rattle.std.specs.List.{position_or_len};
ghost use Rattle.scrib_script_reader.specs.Fields.{fields, is_blank};
ghost use Rattle.scrib_labels.specs.SessionLines.{BeginsField};

/// Returns the first field of the line, and what is behind it, if the line has a field.
pub fn next_field(line: &[u8]) -> Option<(&[u8], &[u8])>
    ensures { MatchOption result (fields line.now ≡ []) (λ cut. fields line.now ≡ cut.0.now ∷ fields cut.1.now) }
{
    let bytes = without_blanks(line);
    if bytes.is_empty() {
        return None;
    }
    let end = field_len(bytes);
    let (field, rest) = bytes.split_at(end);
    Some((field, rest))
}

// The line without the blanks and tabs that it begins with.
fn without_blanks(line: &[u8]) -> &[u8]
    ensures same { fields result.now ≡ fields line.now }
    ensures begins { BeginsField result.now }
{
    for at in 0..line.len() {
        if !is_blank(line[at]) {
            return &line[at..];
        }
    }
    &[]
}

/// Returns the number of bytes before the first blank or tab.
pub(crate) fn field_len(bytes: &[u8]) -> usize
    ensures is { result ≡ position_or_len is_blank bytes.now }
    ensures within { result ≤ length bytes.now }
{
    for at in 0..bytes.len() {
        if is_blank(bytes[at]) {
            return at;
        }
    }
    bytes.len()
}

fn is_blank(byte: u8) -> bool
    ensures { result ≡ is_blank byte }
{
    byte == b' ' || byte == b'\t'
}
