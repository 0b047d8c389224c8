//! Reads operands, token by token.
ghost use Rattle.std.specs.Prelude.{◌≡◌, ◌≤◌, List, [], ◌∷◌, ◌++◌, suc, Some, IfOk, option_map};
ghost use Rattle.ast_tree.specs.Tree.{filter_of};
ghost use Rattle.query_spec.specs.Parts as part;
ghost use Rattle.query_spec.specs.Query as query;
ghost use Rattle.query_spec.specs.Query.{height};
ghost use Rattle.query_spec.specs.declared.parts.Op.TheVariants.{Equal};
ghost use Rattle.query_spec.specs.declared.parts.Pattern.{Pattern};
ghost use Rattle.pql_spec.specs.Grammar as grammar;
ghost use Rattle.pql_spec.specs.declared.token.Token.TheVariants as token;
ghost use Rattle.pql_machine.specs.Machine as machine;
ghost use Rattle.pql_parts.specs.Levels.{frame_of};
ghost use Rattle.pql_parts.specs.Parts.{pending_of};
ghost use Rattle.pql_parts.specs.States.{column_of, head_of, mode_of, spot_step, Took};
ghost use Rattle.query_spec.specs.Limits.{most_depth};

use ast_tree::{Filter, Literal, Literals, Name, Op, Pattern, Place, Scalar, Selection};
use pql_parts::{
    Built, Column, Fault, Frame, Frames, Gone, Head, Mode, Pending, Right, Shown, Spot, State,
    column_step, field_named, fields_of, let_head_go, let_spot_go, let_token_go, more,
};
use pql_spec::Token;
use std::alloc::{AllocError, Global};

/// Ends an operand and adds it to its group.
pub(crate) fn finish(alloc: Global, spot: Spot, built: Built) -> Result<State, Fault>
    ensures { (fs : List machine.Frame) → Took fs result (Some
        (machine.finish (head_of spot.head) fs (pending_of spot.pending) spot.nots (filter_of built.filter))) }
{
    let Spot {
        head,
        pending,
        nots,
    } = spot;
    let pending = pending.with(alloc, nots, built)?;
    Ok(State::Done(head, pending))
}

/// Ends an operand if there was memory for it.
pub(crate) fn finish_of(
    alloc: Global,
    spot: Spot,
    built: Result<Built, AllocError>,
) -> Result<State, Fault>
    ensures { (fs : List machine.Frame) (f : query.Filter) → IfOk built (λ b. filter_of b.filter ≡ f)
        → Took fs result (Some (machine.finish (head_of spot.head) fs (pending_of spot.pending) spot.nots f)) }
{
    match built {
        Ok(built) => finish(alloc, spot, built),
        Err(_) => {
            let_spot_go(spot);
            Err(Fault::Memory)
        }
    }
}

// Continues within the operand if there was memory for it.
fn goes(spot: Spot, mode: Result<Mode, AllocError>) -> Result<State, Fault>
    ensures { (fs : List machine.Frame) (m : machine.Mode) → IfOk mode (λ k. mode_of k ≡ m)
        → Took fs result (Some (machine.within (head_of spot.head) fs (pending_of spot.pending) spot.nots m)) }
{
    match mode {
        Ok(mode) => Ok(State::Within(spot, mode)),
        Err(_) => {
            let_spot_go(spot);
            Err(Fault::Memory)
        }
    }
}

fn let_names_go(spot: Spot, _names: Vec<Name>) {
    let_spot_go(spot);
}

// Ends an operand that is a filter without inner filters.
fn finish_leaf(alloc: Global, spot: Spot, filter: Filter) -> Result<State, Fault>
    requires { height (filter_of filter) ≡ 1 }
    ensures { (fs : List machine.Frame) → Took fs result (Some (machine.finish (head_of spot.head) fs (pending_of spot.pending) spot.nots (filter_of filter))) }
{
    finish(alloc, spot, Built::leaf(filter))
}

/// Reads the first token of an operand.
pub(crate) fn operand_begins(
    alloc: Global,
    frames: &mut Frames,
    spot: Spot,
    token: Token,
) -> Result<State, Fault>
    requires { spot.nots ≤ most_depth }
    ensures { Took frames.new result (machine.operand_begins (head_of spot.head) frames.old (pending_of spot.pending) spot.nots token) }
{
    match token {
        Token::Word(name) => Ok(State::Within(spot, Mode::Named(name))),
        Token::OpenBracket(_) => Ok(State::Within(spot, Mode::LeftNext(Vec::new(alloc)))),
        Token::Bang => Ok(State::Within(negated(spot), Mode::Operand)),
        Token::OpenParen => {
            let Spot {
                head,
                pending,
                nots,
            } = spot;
            frames.push(Frame::Parens(pending, nots))?;
            let inside = Spot {
                head,
                pending: Pending::new(alloc),
                nots: 0,
            };
            Ok(State::Within(inside, Mode::Operand))
        }
        other => {
            let_spot_go(spot);
            let_token_go(other);
            Err(Fault::Bad)
        }
    }
}

fn negated(spot: Spot) -> Spot
    requires { spot.nots ≤ most_depth }
    ensures { result ≡ record spot { nots = suc spot.nots } }
{
    let Spot {
        head,
        pending,
        nots,
    } = spot;
    Spot {
        head,
        pending,
        nots: nots + 1,
    }
}

// Opens braces.
fn opened(frames: &mut Frames, head: Head, frame: Frame) -> Result<State, Fault>
    ensures { Took frames.new result (Some (machine.body (head_of head) (frame_of frame ∷ frames.old))) }
{
    match frames.push(frame) {
        Ok(()) => Ok(State::Body(head)),
        Err(_) => {
            let_head_go(head);
            Err(Fault::Memory)
        }
    }
}

// Opens braces after the name of an entity.
fn implicit(frames: &mut Frames, spot: Spot, name: Name) -> Result<State, Fault>
    ensures { Took frames.new result (spot_step frames.old spot (machine.named name) token.OpenBrace) }
{
    let Spot {
        head,
        pending,
        nots,
    } = spot;
    opened(frames, head, Frame::Implicit(name, pending, nots))
}

// The mode on the right side of `in` after a single name.
fn right_of(alloc: Global, name: Name) -> Result<Mode, AllocError>
    ensures { IfOk result (λ m. mode_of m ≡ machine.right (name ∷ [])) }
{
    Ok(Mode::Right(more(Vec::new(alloc), name)?))
}

// Reads a token after an operand's first word.
fn named(
    alloc: Global,
    frames: &mut Frames,
    spot: Spot,
    name: Name,
    token: Token,
) -> Result<State, Fault>
    ensures { Took frames.new result (spot_step frames.old spot (machine.named name) token) }
{
    match token {
        Token::Comparison(op) => Ok(State::Within(spot, Mode::CompareTo(name, op))),
        Token::Differs => Ok(State::Within(spot, Mode::DifferFrom(name))),
        Token::Tilde => Ok(State::Within(spot, Mode::MatchWith(name))),
        Token::Is => Ok(State::Within(spot, Mode::NullOrNot(name))),
        Token::In => goes(spot, right_of(alloc, name)),
        Token::OpenBrace => implicit(frames, spot, name),
        other => {
            let_spot_go(spot);
            let_token_go(other);
            Err(Fault::Bad)
        }
    }
}

fn compare_to(alloc: Global, spot: Spot, name: Name, op: Op, token: Token) -> Result<State, Fault>
    ensures { (fs : List machine.Frame) → Took fs result (spot_step fs spot (machine.compare_to name op) token) }
{
    match token {
        Token::Literal(literal) => {
            finish_leaf(alloc, spot, Filter::Compare(op, field_named(name), literal))
        }
        other => {
            let_spot_go(spot);
            let_token_go(other);
            Err(Fault::Bad)
        }
    }
}

// The filter of `!=`.
fn differing(alloc: Global, name: Name, literal: Literal) -> Result<Built, AllocError>
    ensures { IfOk result (λ b. filter_of b.filter ≡ query.negation (query.compare Equal (part.field_named name) literal)) }
{
    Built::leaf(Filter::Compare(Op::Equal, field_named(name), literal)).negated(alloc)
}

fn differ_from(alloc: Global, spot: Spot, name: Name, token: Token) -> Result<State, Fault>
    ensures { (fs : List machine.Frame) → Took fs result (spot_step fs spot (machine.differ_from name) token) }
{
    match token {
        Token::Literal(literal) => finish_of(alloc, spot, differing(alloc, name, literal)),
        other => {
            let_spot_go(spot);
            let_token_go(other);
            Err(Fault::Bad)
        }
    }
}

// The pattern, if the literal is a text.
fn pattern_of(literal: Literal) -> Option<Pattern>
    ensures { (k : Pattern → machine.State) → machine.with_text literal.value (λ s. k (grammar.pattern s literal.place)) ≡ option_map k result }
{
    let Literal { value, place } = literal;
    match value {
        Scalar::Text(text) => Some(Pattern { text, place }),
        Scalar::Num(_) => None,
        Scalar::Bool(_) => None,
    }
}

// Reads a literal after `~`. It must be a text, the pattern.
fn pattern_read(alloc: Global, spot: Spot, name: Name, literal: Literal) -> Result<State, Fault>
    ensures { (fs : List machine.Frame) → Took fs result (spot_step fs spot (machine.match_with name) (token.Literal literal)) }
{
    match pattern_of(literal) {
        Some(pattern) => finish_leaf(alloc, spot, Filter::Matches(field_named(name), pattern)),
        None => {
            let_spot_go(spot);
            Err(Fault::Bad)
        }
    }
}

fn match_with(alloc: Global, spot: Spot, name: Name, token: Token) -> Result<State, Fault>
    ensures { (fs : List machine.Frame) → Took fs result (spot_step fs spot (machine.match_with name) token) }
{
    match token {
        Token::Literal(literal) => pattern_read(alloc, spot, name, literal),
        other => {
            let_spot_go(spot);
            let_token_go(other);
            Err(Fault::Bad)
        }
    }
}

fn null_or_not(alloc: Global, spot: Spot, name: Name, token: Token) -> Result<State, Fault>
    ensures { (fs : List machine.Frame) → Took fs result (spot_step fs spot (machine.null_or_not name) token) }
{
    match token {
        Token::Null => finish_leaf(alloc, spot, Filter::IsNull(field_named(name), true)),
        Token::Not => Ok(State::Within(spot, Mode::NotNull(name))),
        other => {
            let_spot_go(spot);
            let_token_go(other);
            Err(Fault::Bad)
        }
    }
}

fn not_null(alloc: Global, spot: Spot, name: Name, token: Token) -> Result<State, Fault>
    ensures { (fs : List machine.Frame) → Took fs result (spot_step fs spot (machine.not_null name) token) }
{
    match token {
        Token::Null => finish_leaf(alloc, spot, Filter::IsNull(field_named(name), false)),
        other => {
            let_spot_go(spot);
            let_token_go(other);
            Err(Fault::Bad)
        }
    }
}

fn left_next(spot: Spot, names: Vec<Name>, token: Token) -> Result<State, Fault>
    ensures { (fs : List machine.Frame) → Took fs result (spot_step fs spot (machine.left_next names.items) token) }
{
    match token {
        Token::Word(name) => Ok(State::Within(spot, Mode::LeftBehind(names, name))),
        other => {
            let_names_go(spot, names);
            let_token_go(other);
            Err(Fault::Bad)
        }
    }
}

// Adds a name to the left side of `in`. Another name or the end follows.
fn left_more(names: Vec<Name>, name: Name) -> Result<Mode, AllocError>
    ensures { IfOk result (λ m. mode_of m ≡ machine.left_next (names.items ++ name ∷ [])) }
{
    Ok(Mode::LeftNext(more(names, name)?))
}

fn left_read(names: Vec<Name>, name: Name) -> Result<Mode, AllocError>
    ensures { IfOk result (λ m. mode_of m ≡ machine.in_expected (names.items ++ name ∷ [])) }
{
    Ok(Mode::InExpected(more(names, name)?))
}

fn left_behind(spot: Spot, names: Vec<Name>, name: Name, token: Token) -> Result<State, Fault>
    ensures { (fs : List machine.Frame) → Took fs result (spot_step fs spot (machine.left_behind names.items name) token) }
{
    match token {
        Token::Comma => goes(spot, left_more(names, name)),
        Token::CloseBracket => goes(spot, left_read(names, name)),
        other => {
            let_names_go(spot, names);
            let_token_go(other);
            Err(Fault::Bad)
        }
    }
}

fn in_expected(spot: Spot, names: Vec<Name>, token: Token) -> Result<State, Fault>
    ensures { (fs : List machine.Frame) → Took fs result (spot_step fs spot (machine.in_expected names.items) token) }
{
    match token {
        Token::In => Ok(State::Within(spot, Mode::Right(names))),
        other => {
            let_names_go(spot, names);
            let_token_go(other);
            Err(Fault::Bad)
        }
    }
}

fn right(alloc: Global, spot: Spot, names: Vec<Name>, token: Token) -> Result<State, Fault>
    ensures { (fs : List machine.Frame) → Took fs result (spot_step fs spot (machine.right names.items) token) }
{
    match token {
        Token::OpenBracket(place) => {
            let mode = Mode::LiteralNext(names, place, Literals::new(alloc));
            Ok(State::Within(spot, mode))
        }
        Token::Word(entity) => Ok(State::Within(spot, Mode::InnerBracket(names, entity))),
        other => {
            let_names_go(spot, names);
            let_token_go(other);
            Err(Fault::Bad)
        }
    }
}

fn literal_next(
    spot: Spot,
    names: Vec<Name>,
    place: Place,
    literals: Literals,
    token: Token,
) -> Result<State, Fault>
    ensures { (fs : List machine.Frame) → Took fs result (spot_step fs spot (machine.literal_next names.items place literals) token) }
{
    match token {
        Token::Literal(literal) => {
            let mode = Mode::LiteralBehind(names, place, literals, literal);
            Ok(State::Within(spot, mode))
        }
        other => {
            let_names_go(spot, names);
            let_token_go(other);
            Err(Fault::Bad)
        }
    }
}

// Adds a literal to the right side of `in`. Another literal or the end follows.
fn literals_more(
    names: Vec<Name>,
    place: Place,
    literals: Literals,
    last: Literal,
) -> Result<Mode, AllocError>
    ensures { IfOk result (λ m. mode_of m ≡ machine.literal_next names.items place (literals ++ last ∷ [])) }
{
    let mut literals = literals;
    literals.push(last)?;
    Ok(Mode::LiteralNext(names, place, literals))
}

fn literals_read(
    alloc: Global,
    names: Vec<Name>,
    place: Place,
    literals: Literals,
    last: Literal,
) -> Result<Built, AllocError>
    ensures { IfOk result (λ b. filter_of b.filter ≡ grammar.among names.items place (literals ++ last ∷ [])) }
{
    let mut literals = literals;
    literals.push(last)?;
    let fields = fields_of(alloc, names)?;
    Ok(Built::leaf(Filter::InList(fields, place, literals)))
}

fn literal_behind(
    alloc: Global,
    spot: Spot,
    names: Vec<Name>,
    place: Place,
    literals: Literals,
    last: Literal,
    token: Token,
) -> Result<State, Fault>
    ensures { (fs : List machine.Frame) → Took fs result (spot_step fs spot (machine.literal_behind names.items place literals last) token) }
{
    match token {
        Token::Comma => goes(spot, literals_more(names, place, literals, last)),
        Token::CloseBracket => {
            finish_of(
                alloc,
                spot,
                literals_read(alloc, names, place, literals, last),
            )
        }
        other => {
            let_names_go(spot, names);
            let_token_go(other);
            Err(Fault::Bad)
        }
    }
}

fn inner_bracket(
    alloc: Global,
    spot: Spot,
    names: Vec<Name>,
    entity: Name,
    token: Token,
) -> Result<State, Fault>
    ensures { (fs : List machine.Frame) → Took fs result (spot_step fs spot (machine.inner_bracket names.items entity) token) }
{
    match token {
        Token::OpenBracket(_) => {
            let mode = Mode::InnerColumns(names, entity, Shown::new(alloc), Column::Next);
            Ok(State::Within(spot, mode))
        }
        other => {
            let_names_go(spot, names);
            let_token_go(other);
            Err(Fault::Bad)
        }
    }
}

fn inner_columns(
    spot: Spot,
    names: Vec<Name>,
    entity: Name,
    shown: Shown,
    column: Column,
    token: Token,
) -> Result<State, Fault>
    ensures { (fs : List machine.Frame) → Took fs result (spot_step fs spot (machine.inner_columns names.items entity shown.list (column_of column)) token) }
{
    match column_step(shown, column, token) {
        Ok(Gone::Goes(shown, column)) => {
            let mode = Mode::InnerColumns(names, entity, shown, column);
            Ok(State::Within(spot, mode))
        }
        Ok(Gone::Ends(shown)) => Ok(State::Within(spot, Mode::InnerBrace(names, entity, shown))),
        Err(fault) => {
            let_names_go(spot, names);
            Err(fault)
        }
    }
}

fn inner_brace(
    frames: &mut Frames,
    spot: Spot,
    names: Vec<Name>,
    entity: Name,
    shown: Selection,
    token: Token,
) -> Result<State, Fault>
    ensures { Took frames.new result (spot_step frames.old spot (machine.inner_brace names.items entity shown) token) }
{
    match token {
        Token::OpenBrace => {
            let Spot {
                head,
                pending,
                nots,
            } = spot;
            let right = Right {
                left: names,
                entity,
                shown,
                pending,
                nots,
            };
            opened(frames, head, Frame::Inner(right))
        }
        other => {
            let_names_go(spot, names);
            let_token_go(other);
            Err(Fault::Bad)
        }
    }
}

/// Reads a token within an operand.
pub(crate) fn mode_step(
    alloc: Global,
    frames: &mut Frames,
    spot: Spot,
    mode: Mode,
    token: Token,
) -> Result<State, Fault>
    requires { spot.nots ≤ most_depth }
    ensures { Took frames.new result (spot_step frames.old spot (mode_of mode) token) }
{
    match mode {
        Mode::Operand => operand_begins(alloc, frames, spot, token),
        Mode::Named(name) => named(alloc, frames, spot, name, token),
        Mode::CompareTo(name, op) => compare_to(alloc, spot, name, op, token),
        Mode::DifferFrom(name) => differ_from(alloc, spot, name, token),
        Mode::MatchWith(name) => match_with(alloc, spot, name, token),
        Mode::NullOrNot(name) => null_or_not(alloc, spot, name, token),
        Mode::NotNull(name) => not_null(alloc, spot, name, token),
        Mode::LeftNext(names) => left_next(spot, names, token),
        Mode::LeftBehind(names, name) => left_behind(spot, names, name, token),
        Mode::InExpected(names) => in_expected(spot, names, token),
        Mode::Right(names) => right(alloc, spot, names, token),
        Mode::LiteralNext(names, place, literals) => {
            literal_next(spot, names, place, literals, token)
        }
        Mode::LiteralBehind(names, place, literals, last) => {
            literal_behind(alloc, spot, names, place, literals, last, token)
        }
        Mode::InnerBracket(names, entity) => inner_bracket(alloc, spot, names, entity, token),
        Mode::InnerColumns(names, entity, shown, column) => {
            inner_columns(spot, names, entity, shown, column, token)
        }
        Mode::InnerBrace(names, entity, shown) => {
            inner_brace(frames, spot, names, entity, shown, token)
        }
    }
}
