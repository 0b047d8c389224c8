//! Says why a query is refused, and prints it.
ghost use Rattle.std.specs.Prelude.{◌≡◌, ◌++◌, IfOk, OnOk, ℕ, decimal};
ghost use Rattle.query_answer.specs.RefusalText.{refusal_text, path_text, dotted};

use ast_reader::json_tree::Bytes;
use ast_reader::query_spec::Path;
use itoa::Buffer;
use std::alloc::{AllocError, Global};

/// Why a query is refused. Faults are reported in the order of the variants. A path is the position of the faulty part. In the
/// AST it has the number of the element in each array, from the outermost inwards, from 0. In PQL it is the number of the token,
/// or of the first of several.
#[derive(Drop)]
pub enum QueryRefusal {
    /// The text has more than 1,048,576 bytes.
    TooLong,
    /// The text is no JSON text (RFC 8259), or nests more than 127 levels. The bytes before offset `at` begin a JSON text. The
    /// byte at `at` is wrong there or opens level 128, or the text ends there too early.
    NotJson { at: usize },
    /// The tokens before byte offset `at` begin a query in PQL, and no query continues with what follows.
    PqlBad { at: usize },
    /// No form of the AST allows the value at this path.
    NotQuery(Path),
    /// No entity that a query may name has this name.
    UnknownEntity(Path),
    /// The entity lacks this field, or the output lacks this column.
    UnknownField(Path),
    /// An operand of a comparison is invalid, the sides of `in` differ in number, or a shown column isn't grouped.
    BadOperand(Path),
    /// The pattern reader refused this pattern, the first refused one in preorder.
    BadPattern(Path),
    /// The sum of the column overflows 128 bits, in units of 10^-18.
    SumTooLarge(Path),
}

impl QueryRefusal {
    /// The printed text: the words of the refusal, followed by the numbers of its path joined by dots, or by the byte offset.
    pub fn text(&self, alloc: Global) -> Result<Bytes, AllocError>
        ensures { IfOk result (λ text. text ≡ refusal_text self.now) }
    {
        let mut out = Vec::new(alloc);
        put_refusal(&mut out, self)?;
        Ok(Bytes::from_vec(out))
    }
}

fn put_refusal(out: &mut Vec<u8>, refusal: &QueryRefusal) -> Result<(), AllocError>
    ensures { OnOk result (out.new.items ≡ out.old.items ++ refusal_text refusal.now) }
{
    match refusal {
        QueryRefusal::TooLong => put_words(out, b"too long"),
        QueryRefusal::NotJson { at } => put_number(out, b"not json at ", *at),
        QueryRefusal::PqlBad { at } => put_number(out, b"pql bad at ", *at),
        QueryRefusal::NotQuery(path) => put_path(out, b"not a query", path),
        QueryRefusal::UnknownEntity(path) => put_path(out, b"unknown entity", path),
        QueryRefusal::UnknownField(path) => put_path(out, b"unknown field", path),
        QueryRefusal::BadOperand(path) => put_path(out, b"bad operand", path),
        QueryRefusal::BadPattern(path) => put_path(out, b"bad pattern", path),
        QueryRefusal::SumTooLarge(path) => put_path(out, b"sum too large", path),
    }
}

fn put_words(out: &mut Vec<u8>, words: &[u8]) -> Result<(), AllocError>
    ensures { OnOk result (out.new.items ≡ out.old.items ++ words.now) }
{
    out.extend_from_slice(words)?;
    Ok(())
}

fn put_number(out: &mut Vec<u8>, words: &[u8], n: usize) -> Result<(), AllocError>
    ensures { OnOk result (out.new.items ≡ out.old.items ++ (words.now ++ decimal n)) }
{
    out.extend_from_slice(words)?;
    let mut buffer = Buffer::new();
    out.extend_from_slice(buffer.format(n).as_bytes())?;
    Ok(())
}

fn put_path(out: &mut Vec<u8>, words: &[u8], path: &Path) -> Result<(), AllocError>
    ensures { OnOk result (out.new.items ≡ out.old.items ++ (words.now ++ path_text path.now)) }
{
    out.extend_from_slice(words)?;
    put_numbers(out, path.as_slice())
}

// Appends a space and the numbers joined by dots, if there are any numbers.
fn put_numbers(out: &mut Vec<u8>, numbers: &[usize]) -> Result<(), AllocError>
    ensures { OnOk result (out.new.items ≡ out.old.items ++ path_text numbers.now) }
{
    match numbers {
        [] => Ok(()),
        [first, rest @ ..] => {
            put_number(out, b" ", *first)?;
            put_rest(out, rest)
        }
    }
}

fn put_rest(out: &mut Vec<u8>, numbers: &[usize]) -> Result<(), AllocError>
    ensures { OnOk result (out.new.items ≡ out.old.items ++ dotted numbers.now) }
{
    for number in numbers {
        put_number(out, b".", *number)?;
    }
    Ok(())
}
