//! What holds of every text, as functions whose contracts are the laws. They take nothing and do nothing.

ghost use Rattle.std.specs.Prelude.{◌≡◌, ◌≢◌, ◌⊎◌, ◌<◌, ◌≤◌, ◌+◌, ℕ, List, [], All, Ok, Err, drop, length, take};
ghost use Rattle.std.specs.Str.{IsAscii};
ghost use Rattle.qasm_lexer.specs.Forms.{Bytes};
ghost use Rattle.qasm_lexer.specs.Names.{IsName};
ghost use Rattle.qasm_lexer.specs.Lexemes.{lexeme_len};
ghost use Rattle.qasm_lexer.specs.Lexed.{lexed, lexed_from, with_lexeme};
ghost use Rattle.qasm_lexer.specs.Tokens.{AreTokens, IsLexFault, IsTokenOf};
ghost use Rattle.qasm_lexer.specs.declared.Token.{Token as LexToken};
ghost use Rattle.qasm_lexer.specs.declared.LexFault.{LexFault as Fault};
ghost use Rattle.qasm_lexer.specs.declared.LexFault.TheVariants.{NoMemory};

/// A text has at most one list of tokens.
pub fn lexed_once()
    ensures once { (text : Bytes) (a b : List LexToken) → AreTokens text a → AreTokens text b → a ≡ b }
{}

/// A text has one refusal at most.
pub fn refused_once()
    ensures once { (text : Bytes) (a b : Fault) → IsLexFault text a → IsLexFault text b → a ≢ NoMemory → b ≢ NoMemory → a ≡ b }
{}

/// A text that has tokens has no fault, so only want of memory is told of it.
pub fn accepted_has_no_fault()
    ensures no_fault { (text : Bytes) (tokens : List LexToken) (fault : Fault) → AreTokens text tokens → IsLexFault text fault → fault ≡ NoMemory }
{}

/// A text has tokens, or a fault.
pub fn lexed_or_refused()
    ensures either { (text : Bytes) → ((tokens : List LexToken) × AreTokens text tokens) ⊎ ((fault : Fault) × (fault ≢ NoMemory) × IsLexFault text fault) }
{}

/// Each token is one whole lexeme of the text, and there are no more tokens than bytes.
pub fn tokens_are_lexemes()
    ensures each { (text : Bytes) (tokens : List LexToken) → AreTokens text tokens → All (IsTokenOf text) tokens }
    ensures tokens_limit { (text : Bytes) (tokens : List LexToken) → AreTokens text tokens → length tokens ≤ length text }
{}

/// `lexed` gives the tokens of a text, or its fault, and both exactly.
pub fn lexed_exactly()
    ensures tokens { (text : Bytes) (tokens : List LexToken) → AreTokens text tokens → lexed text ≡ Ok tokens }
    ensures has_tokens { (text : Bytes) (tokens : List LexToken) → lexed text ≡ Ok tokens → AreTokens text tokens }
    ensures fault { (text : Bytes) (fault : Fault) → fault ≢ NoMemory → IsLexFault text fault → lexed text ≡ Err fault }
    ensures has_fault { (text : Bytes) (fault : Fault) → lexed text ≡ Err fault → IsLexFault text fault }
{}

/// `lexed_from` goes lexeme by lexeme: a text that is put together is read by its parts.
pub fn lexed_by_lexemes()
    ensures step { (text : Bytes) (place size : ℕ) → lexeme_len text ≡ size → 0 < size
        → lexed_from place text ≡ with_lexeme place (take size text) (lexed_from (place + size) (drop size text)) }
    ensures none { (text : Bytes) (place : ℕ) → length text ≡ 0 → lexed_from place text ≡ Ok [] }
{}

/// A name is ASCII.
pub fn names_are_ascii()
    ensures ascii { (name : Bytes) → IsName name → IsAscii name }
{}
