//! Reads the columns of a level, token by token.
ghost use Rattle.std.specs.Prelude.{◌≡◌, Some};
ghost use Rattle.pql_machine.specs.Machine as machine;
ghost use Rattle.pql_spec.specs.declared.token.Token.TheVariants.{OpenParen};
ghost use Rattle.pql_parts.specs.States.{column_of, TookColumn};

use crate::fault::{Fault, let_token_go};
use crate::shown::{Shown, function_named};
use ast_tree::{Function, Name, Selected, Selection};
use pql_spec::Token;

/// The state within the columns.
#[derive(Drop)]
pub enum Column {
    Next,
    Behind(Name),
    InFunction(Name, Function),
    InArgument(Name, Function, Name),
    Closed(Name, Selected),
}

/// The result of a token among columns: they continue or they end.
#[derive(Drop)]
pub enum Gone {
    Goes(Shown, Column),
    Ends(Selection),
}

/// Drops the columns and the one that is being read.
pub(crate) fn let_column_go(_shown: Shown, _column: Column) {}

fn ended(shown: Shown) -> Gone
    ensures { TookColumn (Ok result) (Some (machine.ends shown.list)) }
{
    let Shown { list, .. } = shown;
    Gone::Ends(list)
}

fn column_next(shown: Shown, token: Token) -> Result<Gone, Fault>
    ensures { TookColumn result (machine.column_step shown.list machine.column_next token) }
{
    match token {
        Token::Word(name) => {
            if shown.takes_column(&name) {
                Err(Fault::Bad)
            } else {
                Ok(Gone::Goes(shown, Column::Behind(name)))
            }
        }
        other => {
            let_token_go(other);
            Err(Fault::Bad)
        }
    }
}

// Reads `(` after a word. The word must be a function's name that no output has.
fn opens(shown: Shown, name: Name) -> Result<Gone, Fault>
    ensures { TookColumn result (machine.column_step shown.list (machine.column_behind name) OpenParen) }
{
    match function_named(name.text.as_str()) {
        None => Err(Fault::Bad),
        Some(function) => {
            if shown.takes_function(function) {
                Err(Fault::Bad)
            } else {
                Ok(Gone::Goes(shown, Column::InFunction(name, function)))
            }
        }
    }
}

fn column_behind(shown: Shown, name: Name, token: Token) -> Result<Gone, Fault>
    ensures { TookColumn result (machine.column_step shown.list (machine.column_behind name) token) }
{
    match token {
        Token::Comma => {
            let shown = shown.with(Selected::Column(name))?;
            Ok(Gone::Goes(shown, Column::Next))
        }
        Token::CloseBracket => {
            let shown = shown.with(Selected::Column(name))?;
            Ok(ended(shown))
        }
        Token::OpenParen => opens(shown, name),
        other => {
            let_token_go(other);
            Err(Fault::Bad)
        }
    }
}

// Reads `)` directly after `(`. Only `count()` is allowed, which counts rows.
fn counts_rows(shown: Shown, name: Name, function: Function) -> Result<Gone, Fault>
    ensures { TookColumn result (machine.counts_rows function shown.list name) }
{
    match function {
        Function::Count => Ok(Gone::Goes(shown, Column::Closed(name, Selected::Rows))),
        Function::Sum | Function::Min | Function::Max => Err(Fault::Bad),
    }
}

fn in_function(shown: Shown, name: Name, function: Function, token: Token) -> Result<Gone, Fault>
    ensures { TookColumn result (machine.column_step shown.list (machine.in_function name function) token) }
{
    match token {
        Token::Word(column) => { Ok(Gone::Goes(shown, Column::InArgument(name, function, column))) }
        Token::CloseParen => counts_rows(shown, name, function),
        other => {
            let_token_go(other);
            Err(Fault::Bad)
        }
    }
}

fn in_argument(
    shown: Shown,
    name: Name,
    function: Function,
    column: Name,
    token: Token,
) -> Result<Gone, Fault>
    ensures { TookColumn result (machine.column_step shown.list (machine.in_argument name function column) token) }
{
    match token {
        Token::CloseParen => {
            let item = Selected::Function(function, column);
            Ok(Gone::Goes(shown, Column::Closed(name, item)))
        }
        other => {
            let_token_go(other);
            Err(Fault::Bad)
        }
    }
}

fn column_closed(shown: Shown, name: Name, item: Selected, token: Token) -> Result<Gone, Fault>
    ensures { TookColumn result (machine.column_step shown.list (machine.column_closed name item) token) }
{
    match token {
        Token::Comma => {
            let shown = shown.with(item)?;
            Ok(Gone::Goes(shown, Column::Next))
        }
        Token::CloseBracket => {
            let shown = shown.with(item)?;
            Ok(ended(shown))
        }
        other => {
            let_token_go(other);
            Err(Fault::Bad)
        }
    }
}

/// Reads a token among columns.
pub fn column_step(shown: Shown, column: Column, token: Token) -> Result<Gone, Fault>
    ensures { TookColumn result (machine.column_step shown.list (column_of column) token) }
{
    match column {
        Column::Next => column_next(shown, token),
        Column::Behind(name) => column_behind(shown, name, token),
        Column::InFunction(name, function) => in_function(shown, name, function, token),
        Column::InArgument(name, function, column) => {
            in_argument(shown, name, function, column, token)
        }
        Column::Closed(name, item) => column_closed(shown, name, item, token),
    }
}
