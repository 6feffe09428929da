//! Tokens as the grammar sees them.

ghost use Rattle.std.specs.Prelude.{◌≡◌, ◌<◌, ◌^◌, ◌∷◌, [], List, length};
ghost use Rattle.std.specs.Str.{bytes_eq};
ghost use Rattle.qasm_parser.specs.Symbols.{function_of, keyword_of, mark_of, sign_of, symbol_by, unquoted, word_symbol, mark_symbol, symbol_of, value_of, first_value, Symbol as SpecSymbol};
ghost use Rattle.qasm_lexer.specs.Tokens.{IsTokenOf};
ghost use Rattle.angle_fraction.specs.Fraction.{Fraction};
ghost use Rattle.qasm_parser.specs.Views.{begins_reserved, may_be_reserved, symbol};

use angle_fraction::{Binary, Frac, Function};
use qasm_lexer::{Kind, Token, value};

/// The reserved words that are no function.
#[derive(Clone, Copy, Debug, PartialEq, Eq)]
pub enum Keyword {
    OpenQasm,
    Include,
    Qreg,
    Creg,
    Gate,
    Opaque,
    Measure,
    Reset,
    If,
    Barrier,
    Pi,
    U,
    Cx,
}

/// The signs that stand in no expression, and the parentheses.
#[derive(Clone, Copy, Debug, PartialEq, Eq)]
pub enum Mark {
    Semicolon,
    Comma,
    Open,
    Close,
    OpenBracket,
    CloseBracket,
    OpenBrace,
    CloseBrace,
    Arrow,
    Equals,
}

/// A token as the grammar sees it, a number without its value, a text without its quotes.
#[derive(Clone, Copy)]
pub enum Symbol<'a> {
    Word(Keyword),
    Function(Function),
    Name(&'a [u8]),
    Whole,
    Real,
    Quoted(&'a [u8]),
    Mark(Mark),
    Sign(Binary),
    Other,
}

/// Whether these are the bytes of a spelling, told by the first byte where it is another.
fn spells(bytes: &[u8], spelling: &[u8]) -> bool
    ensures { result ≡ bytes_eq bytes.now spelling.now }
{
    let [first, ..] = bytes else {
        return bytes == spelling;
    };
    let [other, ..] = spelling else {
        return bytes == spelling;
    };
    if *first != *other {
        return false;
    }
    bytes == spelling
}

/// The reserved word that these bytes spell.
fn keyword_of(word: &[u8]) -> Option<Keyword>
    ensures { result ≡ keyword_of word.now }
{
    let keyword = if spells(word, b"OPENQASM".as_slice()) {
        Keyword::OpenQasm
    } else if spells(word, b"include".as_slice()) {
        Keyword::Include
    } else if spells(word, b"qreg".as_slice()) {
        Keyword::Qreg
    } else if spells(word, b"creg".as_slice()) {
        Keyword::Creg
    } else if spells(word, b"gate".as_slice()) {
        Keyword::Gate
    } else if spells(word, b"opaque".as_slice()) {
        Keyword::Opaque
    } else if spells(word, b"measure".as_slice()) {
        Keyword::Measure
    } else if spells(word, b"reset".as_slice()) {
        Keyword::Reset
    } else if spells(word, b"if".as_slice()) {
        Keyword::If
    } else if spells(word, b"barrier".as_slice()) {
        Keyword::Barrier
    } else if spells(word, b"pi".as_slice()) {
        Keyword::Pi
    } else if spells(word, b"U".as_slice()) {
        Keyword::U
    } else if spells(word, b"CX".as_slice()) {
        Keyword::Cx
    } else {
        return None;
    };
    Some(keyword)
}

/// The function that these bytes spell.
fn function_of(word: &[u8]) -> Option<Function>
    ensures { result ≡ function_of word.now }
{
    let function = if spells(word, b"sin".as_slice()) {
        Function::Sin
    } else if spells(word, b"cos".as_slice()) {
        Function::Cos
    } else if spells(word, b"tan".as_slice()) {
        Function::Tan
    } else if spells(word, b"exp".as_slice()) {
        Function::Exp
    } else if spells(word, b"ln".as_slice()) {
        Function::Ln
    } else if spells(word, b"sqrt".as_slice()) {
        Function::Sqrt
    } else {
        return None;
    };
    Some(function)
}

/// The sign that these bytes spell, where it stands in no expression or is a parenthesis.
fn mark_of(sign: &[u8]) -> Option<Mark>
    ensures { result ≡ mark_of sign.now }
{
    let mark = if spells(sign, b";".as_slice()) {
        Mark::Semicolon
    } else if spells(sign, b",".as_slice()) {
        Mark::Comma
    } else if spells(sign, b"(".as_slice()) {
        Mark::Open
    } else if spells(sign, b")".as_slice()) {
        Mark::Close
    } else if spells(sign, b"[".as_slice()) {
        Mark::OpenBracket
    } else if spells(sign, b"]".as_slice()) {
        Mark::CloseBracket
    } else if spells(sign, b"{".as_slice()) {
        Mark::OpenBrace
    } else if spells(sign, b"}".as_slice()) {
        Mark::CloseBrace
    } else if spells(sign, b"->".as_slice()) {
        Mark::Arrow
    } else if spells(sign, b"==".as_slice()) {
        Mark::Equals
    } else {
        return None;
    };
    Some(mark)
}

/// The sign between two parts that these bytes spell.
fn sign_of(sign: &[u8]) -> Option<Binary>
    ensures { result ≡ sign_of sign.now }
{
    let binary = if spells(sign, b"+".as_slice()) {
        Binary::Add
    } else if spells(sign, b"-".as_slice()) {
        Binary::Sub
    } else if spells(sign, b"*".as_slice()) {
        Binary::Mul
    } else if spells(sign, b"/".as_slice()) {
        Binary::Div
    } else if spells(sign, b"^".as_slice()) {
        Binary::Pow
    } else {
        return None;
    };
    Some(binary)
}

/// Whether a reserved word begins with these two bytes.
#[inline]
fn begins_reserved(first: u8, second: u8) -> bool
    ensures { result ≡ begins_reserved first second }
{
    match first {
        b'b' | b'g' | b't' => second == b'a',
        b'c' => second == b'o' || second == b'r',
        b'e' => second == b'x',
        b'i' => second == b'f' || second == b'n',
        b'l' => second == b'n',
        b'm' | b'r' => second == b'e',
        b'o' => second == b'p',
        b'p' => second == b'i',
        b'q' => second == b'r',
        b's' => second == b'i' || second == b'q',
        b'C' => second == b'X',
        b'O' => second == b'P',
        _ => false,
    }
}

/// Whether a word is worth a look at the reserved words: most names are told apart from them by their first two bytes.
#[inline]
#[tactic(auto, unfolding(crate::specs::Views::may_be_reserved))]
fn may_be_reserved(word: &[u8]) -> bool
    ensures { result ≡ may_be_reserved word.now }
{
    match word {
        [] => false,
        [only] => *only == b'U',
        [first, second, ..] => begins_reserved(*first, *second),
    }
}

/// The symbol of a word that isn't told apart from the reserved words by its first two bytes. Most such words are `pi`.
#[tactic(auto, unfolding(crate::specs::Symbols::word_symbol), using(crate::proofs::ReservedLaws::pi_word))]
fn looked_up(word: &[u8]) -> Symbol<'_>
    ensures { (v : Fraction) → symbol result v ≡ word_symbol word.now (keyword_of word.now) }
{
    if spells(word, b"pi".as_slice()) {
        return Symbol::Word(Keyword::Pi);
    }
    match keyword_of(word) {
        Some(keyword) => Symbol::Word(keyword),
        None => match function_of(word) {
            Some(function) => Symbol::Function(function),
            None => Symbol::Name(word),
        },
    }
}

/// The symbol of a word.
#[inline]
#[tactic(auto, using(crate::proofs::ReservedLaws::name_symbol))]
fn word_symbol(word: &[u8]) -> Symbol<'_>
    ensures { (v : Fraction) → symbol result v ≡ word_symbol word.now (keyword_of word.now) }
{
    if may_be_reserved(word) {
        looked_up(word)
    } else {
        Symbol::Name(word)
    }
}

/// The symbol of a sign of one byte.
#[tactic(auto, unfolding(crate::specs::Symbols::mark_symbol))]
fn byte_symbol<'a>(byte: u8) -> Symbol<'a>
    ensures { (v : Fraction) → symbol result v ≡ mark_symbol (byte ∷ []) (mark_of (byte ∷ [])) }
{
    match byte {
        b';' => Symbol::Mark(Mark::Semicolon),
        b',' => Symbol::Mark(Mark::Comma),
        b'(' => Symbol::Mark(Mark::Open),
        b')' => Symbol::Mark(Mark::Close),
        b'[' => Symbol::Mark(Mark::OpenBracket),
        b']' => Symbol::Mark(Mark::CloseBracket),
        b'{' => Symbol::Mark(Mark::OpenBrace),
        b'}' => Symbol::Mark(Mark::CloseBrace),
        b'+' => Symbol::Sign(Binary::Add),
        b'-' => Symbol::Sign(Binary::Sub),
        b'*' => Symbol::Sign(Binary::Mul),
        b'/' => Symbol::Sign(Binary::Div),
        b'^' => Symbol::Sign(Binary::Pow),
        _ => Symbol::Other,
    }
}

#[tactic(auto, unfolding(crate::specs::Symbols::mark_symbol))]
fn mark_symbol(sign: &[u8]) -> Symbol<'_>
    ensures { (v : Fraction) → symbol result v ≡ mark_symbol sign.now (mark_of sign.now) }
{
    if let [byte] = sign {
        return byte_symbol(*byte);
    }
    match mark_of(sign) {
        Some(mark) => Symbol::Mark(mark),
        None => match sign_of(sign) {
            Some(binary) => Symbol::Sign(binary),
            None => Symbol::Other,
        },
    }
}

/// A text without its quotes.
#[tactic(auto, unfolding(crate::specs::Symbols::unquoted))]
fn unquoted(text: &[u8]) -> &[u8]
    ensures { result.now ≡ unquoted text.now }
{
    if text.len() < 2 {
        return &[];
    }
    &text[1..text.len() - 1]
}

/// The symbol of a token of a text.
#[inline]
#[tactic(auto, unfolding(crate::specs::Symbols::symbol_by))]
pub fn symbol_of<'a>(text: &'a [u8], token: &Token) -> Symbol<'a>
    requires short { length text.now < 2 ^ 32 }
    requires token { IsTokenOf text.now token.now }
    ensures value { symbol result (value_of text.now token.now) ≡ symbol_of text.now token.now }
{
    let bytes = &text[token.from as usize..token.to as usize];
    match token.kind {
        Kind::Word => word_symbol(bytes),
        Kind::Whole => Symbol::Whole,
        Kind::Real => Symbol::Real,
        Kind::Text => Symbol::Quoted(unquoted(bytes)),
        Kind::Sign => mark_symbol(bytes),
    }
}

/// The value of a token of a text, where it is a number; else 0.
#[tactic(auto, unfolding(crate::specs::Symbols::symbol_by), using(crate::proofs::SymbolLaws::firsts))]
pub fn number_of(text: &[u8], token: &Token) -> Frac
    requires short { length text.now < 2 ^ 32 }
    requires token { IsTokenOf text.now token.now }
    ensures value { (ts : List SpecSymbol) → result ≡ first_value (symbol_of text.now token.now ∷ ts) }
{
    match token.kind {
        Kind::Whole | Kind::Real => value(text, token),
        Kind::Word | Kind::Text | Kind::Sign => Frac::nought(),
    }
}
