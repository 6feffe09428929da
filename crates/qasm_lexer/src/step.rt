//! One lexeme of a text after the other.

ghost use Rattle.std.specs.Prelude.{◌≡◌, ◌+◌, ◌≤◌, ◌<◌, ◌^◌, drop, length};
ghost use Rattle.qasm_lexer.specs.Lexed.{lexed_from};
ghost use Rattle.qasm_lexer.specs.Steps.{IsLexemeAt};
ghost use Rattle.qasm_lexer.specs.Lexemes.{is_out_of_range};

use crate::lexeme::{after, front, is_blank, is_number, is_space, kind_of, lexeme_len};
use crate::number::has_value;
use crate::plain::plain_token;
use crate::{LexFault, Token};

/// A token, or nothing for white space and comments, and the place behind it.
#[derive(Clone, Copy)]
pub struct Lexeme {
    pub token: Option<Token>,
    pub to: usize,
}

/// Whether a lexeme is a number whose value is not kept.
fn is_out_of_range(lexeme: &[u8]) -> bool
    requires { length lexeme.now < 2 ^ 32 }
    ensures { result ≡ is_out_of_range lexeme.now }
{
    is_number(lexeme) && !has_value(lexeme)
}

/// The lexeme at a place, of any form.
fn form_at(text: &[u8], place: usize) -> Result<Lexeme, LexFault>
    requires within { place < length text.now }
    requires short { length text.now < 2 ^ 32 }
    ensures lexeme { IsLexemeAt text.now place result }
{
    let from = place as u32;
    let rest = after(text, place);
    let len = lexeme_len(rest);
    if len == 0 {
        return Err(LexFault::BadByte { place: from });
    }
    let lexeme = front(rest, len);
    let to = place + len;
    if is_blank(lexeme) {
        return Ok(Lexeme { token: None, to });
    }
    if is_out_of_range(lexeme) {
        return Err(LexFault::Number { place: from });
    }
    let token = Token {
        kind: kind_of(lexeme),
        from,
        to: to as u32,
    };
    Ok(Lexeme {
        token: Some(token),
        to,
    })
}

/// The lexeme at a place, told by its first byte where that is enough.
#[inline]
pub fn lexeme_at(text: &[u8], place: usize) -> Result<Lexeme, LexFault>
    requires within { place < length text.now }
    requires short { length text.now < 2 ^ 32 }
    ensures lexeme { IsLexemeAt text.now place result }
{
    let Some(plain) = plain_token(after(text, place)) else {
        return form_at(text, place);
    };
    let to = place + plain.len;
    let token = Token {
        kind: plain.kind,
        from: place as u32,
        to: to as u32,
    };
    Ok(Lexeme {
        token: Some(token),
        to,
    })
}

/// The first place from this one on at which no white space stands.
#[inline]
pub fn past_space(text: &[u8], place: usize) -> usize
    requires within { place ≤ length text.now }
    requires short { length text.now < 2 ^ 32 }
    ensures same { lexed_from result (drop result text.now) ≡ lexed_from place (drop place text.now) }
    ensures further { place ≤ result }
    ensures bound { result ≤ length text.now }
{
    let mut at = place;
    'spaces: while at < text.len() && is_space(text[at]) {
        at += 1;
    }
    at
}
