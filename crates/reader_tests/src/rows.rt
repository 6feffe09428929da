//! The sides of a row, which stand apart by ` => `, and the number of a text.

/// The left side and the right side of a row; `-` is an empty one.
pub fn sides(row: &str) -> (&str, &str) {
    let (left, right) = row.split_once(" => ").unwrap_or((row, "none"));
    (filled(left), filled(right))
}

fn filled(text: &str) -> &str {
    if text == "-" { "" } else { text }
}

/// The number of a text, or one that no row has.
pub fn number_of(text: &str) -> u32 {
    text.parse::<u32>().unwrap_or(7777)
}
