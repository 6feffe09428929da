//! The lines of a text.

ghost use Rattle.std.specs.Prelude.{◌≡◌, ◌∷◌, ◌<◌, ◌≤◌, [], MatchOption, length, nat_eq, not};
ghost use Rattle.std.specs.List.{prefix_len};
ghost use Rattle.trace_text.specs.Texts.{lines_of};

/// The first line of a text, without its line break, and the text behind it. None where the text is empty.
#[tactic(auto, using(crate::proofs::LineLaws::first_lines))]
pub fn first_line(text: &[u8]) -> Option<(&[u8], &[u8])>
    ensures lines { MatchOption result (lines_of text.now ≡ []) (λ l. lines_of text.now ≡ l.0.now ∷ lines_of l.1.now) }
    ensures shorter { MatchOption result (Unit {0}) (λ l. length l.1.now < length text.now) }
{
    let size = line_len(text);
    if size < text.len() {
        return Some((&text[..size], &text[size + 1..]));
    }
    if size == 0 {
        return None;
    }
    Some((text, &text[size..]))
}

/// The number of bytes before the first line break.
fn line_len(text: &[u8]) -> usize
    ensures value { result ≡ prefix_len (λ b. not (nat_eq b 10)) text.now }
    ensures bound { result ≤ length text.now }
{
    text.iter().take_while(|byte| **byte != b'\n').count()
}
