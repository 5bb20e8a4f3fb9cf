// The kinds of lines.

/// What a line is.
#[derive(Clone, Copy)]
pub(crate) enum Line<'a> {
    /// Empty, or a comment.
    Nothing,
    /// A line of a text.
    Piece,
    /// A key and its value.
    Part(&'a str, &'a str),
    /// None of these.
    Stray,
}

/// The kind of the line.
pub(crate) fn line_of(text: &str) -> Line<'_> {
    match text.as_bytes() {
        [] | [b'#', ..] => Line::Nothing,
        [b'|' | b'+' | b'*', ..] => Line::Piece,
        _ => part_of(text),
    }
}

fn part_of(text: &str) -> Line<'_> {
    match text.split_once(':') {
        Some((key, value)) => Line::Part(key, value.trim()),
        None => Line::Stray,
    }
}

/// The name of the row that the line begins.
pub(crate) fn row_name(text: &str) -> Option<&str> {
    match line_of(text) {
        Line::Part(key, name) if key == "row" => Some(name),
        _ => None,
    }
}
