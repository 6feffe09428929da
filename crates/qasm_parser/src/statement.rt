//! Statements. Where an expression is deeper than the limit is told as for applications.

ghost use Rattle.std.specs.Prelude.{◌≡◌, ◌≤◌, ◌<◌, [], Some, None, map, IfOk, IfErr, OnOk, length};
ghost use Rattle.qasm_parser.specs.Misread.{IsMisread};
ghost use Rattle.qasm_parser.specs.Ways.{a_text, one, past, walk};
ghost use Rattle.qasm_parser.specs.Shapes.{conditional_shape, gate_shape, include_shape, listed_shape, names_shape, opaque_shape, params_shape, register_shape, statement_shape};
ghost use Rattle.qasm_parser.specs.Tree.{action, definition, most_depth, gate as gate_tree, opaque as opaque_tree, statement};
ghost use Rattle.qasm_parser.specs.Reading.{conditional_of, gate_of, include_of, listed_of, names_of, opaque_of, params_of, quoted_of, read, register_of, statement_of};

use crate::action::{action, barrier, body};
use crate::cursor::Cursor;
use crate::lists::{bracketed, expect, is_word, name, names, next_word, take, whole};
use crate::name::Name;
use crate::stop::ParseStop;
use crate::symbols::{Keyword, Mark, Symbol};
use crate::tree::{GateDef, Stmt};
use std::alloc::Global;

/// Names up to the end of the parenthesis.
#[tactic(auto, unfolding(crate::specs::Reading::listed_of, crate::specs::Shapes::listed_shape))]
fn listed(alloc: Global, cursor: &mut Cursor<'_>) -> Result<Vec<Name>, ParseStop>
    ensures ok { IfOk result (λ v. listed_of cursor.old ≡ Some (read v.items None cursor.new)) }
    ensures walked { OnOk result (walk listed_shape cursor.old ≡ past cursor.new) }
    ensures err { IfErr result (IsMisread (walk listed_shape cursor.old)) }
    ensures rest { OnOk result (length cursor.new ≤ length cursor.old) }
{
    let list = names(alloc, cursor)?;
    expect(cursor, Mark::Close)?;
    Ok(list)
}

/// A gate's parameters: in parentheses, or none.
#[tactic(auto, unfolding(crate::specs::Reading::params_of, crate::specs::Shapes::params_shape))]
fn params(alloc: Global, cursor: &mut Cursor<'_>) -> Result<Vec<Name>, ParseStop>
    ensures ok { IfOk result (λ v. params_of cursor.old ≡ Some (read v.items None cursor.new)) }
    ensures walked { OnOk result (walk params_shape cursor.old ≡ past cursor.new) }
    ensures err { IfErr result (IsMisread (walk params_shape cursor.old)) }
    ensures rest { OnOk result (length cursor.new ≤ length cursor.old) }
{
    if !take(cursor, Mark::Open) {
        return Ok(Vec::new(alloc));
    }
    if take(cursor, Mark::Close) {
        return Ok(Vec::new(alloc));
    }
    listed(alloc, cursor)
}

/// A gate's name, parameters and qubits.
#[derive(Drop)]
struct Heading {
    name: Name,
    params: Vec<Name>,
    qubits: Vec<Name>,
}

/// A gate up to its body.
#[tactic(auto, unfolding(crate::specs::Reading::names_of, crate::specs::Shapes::names_shape))]
fn names_of_gate(alloc: Global, cursor: &mut Cursor<'_>) -> Result<Heading, ParseStop>
    ensures ok { IfOk result (λ h. names_of cursor.old ≡ Some (read (definition h.name h.params.items h.qubits.items []) None cursor.new)) }
    ensures walked { OnOk result (walk names_shape cursor.old ≡ past cursor.new) }
    ensures err { IfErr result (IsMisread (walk names_shape cursor.old)) }
    ensures rest { OnOk result (length cursor.new ≤ length cursor.old) }
{
    let name = name(alloc, cursor)?;
    let params = params(alloc, cursor)?;
    let qubits = names(alloc, cursor)?;
    Ok(Heading {
        name,
        params,
        qubits,
    })
}

/// A gate of these names with this body.
fn declared(heading: Heading, body: Vec<Stmt>) -> Stmt
    ensures { statement result ≡ gate_tree (definition heading.name heading.params.items heading.qubits.items (map action body.items)) }
{
    Stmt::Gate(GateDef {
        name: heading.name,
        params: heading.params,
        qubits: heading.qubits,
        body,
    })
}

/// An opaque gate of these names.
fn undefined(heading: Heading, body: Vec<Stmt>) -> Stmt
    ensures { statement result ≡ opaque_tree (definition heading.name heading.params.items heading.qubits.items (map action body.items)) }
{
    Stmt::Opaque(GateDef {
        name: heading.name,
        params: heading.params,
        qubits: heading.qubits,
        body,
    })
}

/// A gate's declaration, from behind its word.
#[tactic(auto, unfolding(crate::specs::Reading::gate_of, crate::specs::Shapes::gate_shape))]
fn gate(alloc: Global, cursor: &mut Cursor<'_>) -> Result<(Stmt, Option<usize>), ParseStop>
    ensures ok { IfOk result (λ r. gate_of most_depth cursor.old ≡ Some (read (statement r.0) r.1 cursor.new)) }
    ensures walked { OnOk result (walk gate_shape cursor.old ≡ past cursor.new) }
    ensures err { IfErr result (IsMisread (walk gate_shape cursor.old)) }
    ensures rest { OnOk result (length cursor.new ≤ length cursor.old) }
{
    let heading = names_of_gate(alloc, cursor)?;
    expect(cursor, Mark::OpenBrace)?;
    let (body, deep) = body(alloc, cursor)?;
    Ok((declared(heading, body), deep))
}

/// An opaque gate's declaration, from behind its word.
#[tactic(auto, unfolding(crate::specs::Reading::opaque_of, crate::specs::Shapes::opaque_shape))]
fn opaque(alloc: Global, cursor: &mut Cursor<'_>) -> Result<Stmt, ParseStop>
    ensures ok { IfOk result (λ s. opaque_of cursor.old ≡ Some (read (statement s) None cursor.new)) }
    ensures walked { OnOk result (walk opaque_shape cursor.old ≡ past cursor.new) }
    ensures err { IfErr result (IsMisread (walk opaque_shape cursor.old)) }
    ensures rest { OnOk result (length cursor.new ≤ length cursor.old) }
{
    let heading = names_of_gate(alloc, cursor)?;
    expect(cursor, Mark::Semicolon)?;
    Ok(undefined(heading, Vec::new(alloc)))
}

/// A text without its quotes.
#[tactic(auto, unfolding(crate::specs::Reading::quoted_of))]
fn quoted(alloc: Global, cursor: &mut Cursor<'_>) -> Result<Name, ParseStop>
    ensures ok { IfOk result (λ n. quoted_of cursor.old ≡ Some (read n None cursor.new)) }
    ensures walked { OnOk result (walk (one a_text) cursor.old ≡ past cursor.new) }
    ensures err { IfErr result (IsMisread (walk (one a_text) cursor.old)) }
    ensures rest { OnOk result (length cursor.new ≤ length cursor.old) }
{
    let left = cursor.left();
    match cursor.peek() {
        Some(Symbol::Quoted(bytes)) => {
            cursor.advance();
            Ok(Name::copied(alloc, bytes)?)
        }
        _ => Err(ParseStop::Misfit { left }),
    }
}

/// An include, from behind its word.
#[tactic(auto, unfolding(crate::specs::Reading::include_of, crate::specs::Shapes::include_shape))]
fn include(alloc: Global, cursor: &mut Cursor<'_>) -> Result<Stmt, ParseStop>
    ensures ok { IfOk result (λ s. include_of cursor.old ≡ Some (read (statement s) None cursor.new)) }
    ensures walked { OnOk result (walk include_shape cursor.old ≡ past cursor.new) }
    ensures err { IfErr result (IsMisread (walk include_shape cursor.old)) }
    ensures rest { OnOk result (length cursor.new ≤ length cursor.old) }
{
    let file = quoted(alloc, cursor)?;
    expect(cursor, Mark::Semicolon)?;
    Ok(Stmt::Include { file })
}

/// A register, from behind its word.
#[tactic(auto, unfolding(crate::specs::Reading::register_of, crate::specs::Shapes::register_shape))]
fn register(alloc: Global, cursor: &mut Cursor<'_>, quantum: bool) -> Result<Stmt, ParseStop>
    ensures ok { IfOk result (λ s. register_of quantum cursor.old ≡ Some (read (statement s) None cursor.new)) }
    ensures walked { OnOk result (walk register_shape cursor.old ≡ past cursor.new) }
    ensures err { IfErr result (IsMisread (walk register_shape cursor.old)) }
    ensures rest { OnOk result (length cursor.new ≤ length cursor.old) }
{
    let name = name(alloc, cursor)?;
    expect(cursor, Mark::OpenBracket)?;
    let size = bracketed(cursor)?;
    expect(cursor, Mark::Semicolon)?;
    Ok(Stmt::Register {
        quantum,
        name,
        size,
    })
}

/// A conditional statement, from behind its word.
#[tactic(auto, unfolding(crate::specs::Reading::conditional_of, crate::specs::Shapes::conditional_shape))]
fn conditional(alloc: Global, cursor: &mut Cursor<'_>) -> Result<(Stmt, Option<usize>), ParseStop>
    ensures ok { IfOk result (λ r. conditional_of most_depth cursor.old ≡ Some (read (statement r.0) r.1 cursor.new)) }
    ensures walked { OnOk result (walk conditional_shape cursor.old ≡ past cursor.new) }
    ensures err { IfErr result (IsMisread (walk conditional_shape cursor.old)) }
    ensures rest { OnOk result (length cursor.new ≤ length cursor.old) }
{
    expect(cursor, Mark::Open)?;
    let name = name(alloc, cursor)?;
    expect(cursor, Mark::Equals)?;
    let value = whole(cursor)?;
    expect(cursor, Mark::Close)?;
    let (inner, deep) = action(alloc, cursor)?;
    let inner = Box::new(alloc, inner)?;
    Ok((Stmt::If { name, value, inner }, deep))
}

/// A statement.
#[tactic(auto, using(crate::proofs::CodeLaws::statements, crate::proofs::LoopLaws::beginnings))]
pub fn statement(alloc: Global, cursor: &mut Cursor<'_>) -> Result<(Stmt, Option<usize>), ParseStop>
    ensures ok { IfOk result (λ r. statement_of most_depth cursor.old ≡ Some (read (statement r.0) r.1 cursor.new)) }
    ensures walked { OnOk result (walk statement_shape cursor.old ≡ past cursor.new) }
    ensures err { IfErr result (IsMisread (walk statement_shape cursor.old)) }
    ensures rest { OnOk result (length cursor.new ≤ length cursor.old) }
{
    let word = next_word(cursor);
    if is_word(word, Keyword::Include) {
        cursor.advance();
        return Ok((include(alloc, cursor)?, None));
    }
    if is_word(word, Keyword::Qreg) {
        cursor.advance();
        return Ok((register(alloc, cursor, true)?, None));
    }
    if is_word(word, Keyword::Creg) {
        cursor.advance();
        return Ok((register(alloc, cursor, false)?, None));
    }
    if is_word(word, Keyword::Gate) {
        cursor.advance();
        return gate(alloc, cursor);
    }
    if is_word(word, Keyword::Opaque) {
        cursor.advance();
        return Ok((opaque(alloc, cursor)?, None));
    }
    if is_word(word, Keyword::If) {
        cursor.advance();
        return conditional(alloc, cursor);
    }
    if is_word(word, Keyword::Barrier) {
        cursor.advance();
        return Ok((barrier(alloc, cursor, false)?, None));
    }
    action(alloc, cursor)
}
