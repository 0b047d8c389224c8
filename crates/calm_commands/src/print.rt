//! Prints the line of a status to standard error.
ghost use Rattle.std.specs.Prelude.{◌≡◌, ◌≢◌, ◌++◌, [], ◌∷◌, codes};
ghost use Rattle.query_answer.specs.RefusalText.{refusal_text, path_text};
ghost use Rattle.calm_commands.specs.StatusText.{status_line, printed_line};
ghost use Rattle.calm_commands.specs.Refused.{IsNumbered, numbers_line};
ghost use Rattle.calm_commands.specs.Told.{IsTold, stream};

use crate::status::Status;
use fleet_ports::{Sink, Wrote, write_all};
use itoa::Buffer;
use query_answer::QueryRefusal;
use query_spec::Path;

/// Prints the line of a status and a line end, up to the first fault. For `Done` it prints nothing. It takes no memory.
pub fn print_line<E: Sink + Drop>(status: &Status, errors: &mut E)
    ensures told { IsTold (printed_line status.now)
        (stream (E.held errors.old) (E.fault_count errors.old)) (stream (E.held errors.new) (E.fault_count errors.new)) }
    ensures quiet { status.now ≡ Status.Done → errors.new ≡ errors.old }
{
    match status {
        Status::Done => {}
        Status::QueryRefused(why) => print_refusal(why, errors),
        _ => print_text(status, errors),
    }
}

// Prints the line of a status that ends with a number or with nothing.
fn print_text<E: Sink + Drop>(status: &Status, errors: &mut E)
    requires { IsNumbered status.now }
    ensures { IsTold (status_line status.now ++ 10 ∷ [])
        (stream (E.held errors.old) (E.fault_count errors.old)) (stream (E.held errors.new) (E.fault_count errors.new)) }
{
    match status.number() {
        None => print_two(errors, status.front(), b"\n"),
        Some(number) => {
            let mut digits = Buffer::new();
            print_pieces(
                errors,
                status.front(),
                digits.format(number).as_bytes(),
                b"\n",
            );
        }
    }
}

// Prints why a query is refused.
fn print_refusal<E: Sink + Drop>(why: &QueryRefusal, errors: &mut E)
    ensures { IsTold (codes "query refused: " ++ (refusal_text why.now ++ 10 ∷ []))
        (stream (E.held errors.old) (E.fault_count errors.old)) (stream (E.held errors.new) (E.fault_count errors.new)) }
{
    if let Wrote::All = write_all(errors, b"query refused: ") {
        print_reason(why, errors);
    }
}

fn print_reason<E: Sink + Drop>(why: &QueryRefusal, errors: &mut E)
    ensures { IsTold (refusal_text why.now ++ 10 ∷ [])
        (stream (E.held errors.old) (E.fault_count errors.old)) (stream (E.held errors.new) (E.fault_count errors.new)) }
{
    match why {
        QueryRefusal::TooLong => print_two(errors, b"too long", b"\n"),
        QueryRefusal::NotJson { at } => {
            let mut digits = Buffer::new();
            print_pieces(
                errors,
                b"not json at ",
                digits.format(*at).as_bytes(),
                b"\n",
            );
        }
        QueryRefusal::PqlBad { at } => {
            let mut digits = Buffer::new();
            print_pieces(errors, b"pql bad at ", digits.format(*at).as_bytes(), b"\n");
        }
        QueryRefusal::NotQuery(path) => print_place(errors, b"not a query", path),
        QueryRefusal::UnknownEntity(path) => print_place(errors, b"unknown entity", path),
        QueryRefusal::UnknownField(path) => print_place(errors, b"unknown field", path),
        QueryRefusal::BadOperand(path) => print_place(errors, b"bad operand", path),
        QueryRefusal::BadPattern(path) => print_place(errors, b"bad pattern", path),
        QueryRefusal::SumTooLarge(path) => print_place(errors, b"sum too large", path),
    }
}

// Prints the text, followed by the position that it names.
fn print_place<E: Sink + Drop>(errors: &mut E, words: &[u8], path: &Path)
    ensures { IsTold ((words.now ++ path_text path.now) ++ 10 ∷ [])
        (stream (E.held errors.old) (E.fault_count errors.old)) (stream (E.held errors.new) (E.fault_count errors.new)) }
{
    if let Wrote::All = write_all(errors, words) {
        print_numbers(errors, b" ", path.as_slice());
    }
}

// Prints each number after a mark: the given one before the first number, a dot before the others. Then a line end.
fn print_numbers<E: Sink + Drop>(errors: &mut E, mark: &[u8], numbers: &[usize])
    ensures { IsTold (numbers_line mark.now numbers.now)
        (stream (E.held errors.old) (E.fault_count errors.old)) (stream (E.held errors.new) (E.fault_count errors.new)) }
{
    match numbers {
        [] => {
            let _ = write_all(errors, b"\n");
        }
        [first, rest @ ..] => {
            if let Wrote::All = write_all(errors, mark) {
                let mut digits = Buffer::new();
                if let Wrote::All = write_all(errors, digits.format(*first).as_bytes()) {
                    print_numbers(errors, b".", rest);
                }
            }
        }
    }
}

// Prints three pieces, one after the other, up to the first fault.
fn print_pieces<E: Sink + Drop>(errors: &mut E, first: &[u8], second: &[u8], third: &[u8])
    ensures { IsTold (first.now ++ (second.now ++ third.now))
        (stream (E.held errors.old) (E.fault_count errors.old)) (stream (E.held errors.new) (E.fault_count errors.new)) }
{
    if let Wrote::All = write_all(errors, first) {
        print_two(errors, second, third);
    }
}

fn print_two<E: Sink + Drop>(errors: &mut E, first: &[u8], second: &[u8])
    ensures { IsTold (first.now ++ second.now)
        (stream (E.held errors.old) (E.fault_count errors.old)) (stream (E.held errors.new) (E.fault_count errors.new)) }
{
    if let Wrote::All = write_all(errors, first) {
        let _ = write_all(errors, second);
    }
}
