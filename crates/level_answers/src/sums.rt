//! Computes sums and prints them.
ghost use Rattle.std.specs.Prelude.{◌≡◌, ◌++◌, ◌∷◌, ◌≤◌, ◌^◌, [], pos, int_lt, unsigned_abs, map, IfOk, OnOk, string_bytes, if◌then◌else◌};
ghost use Rattle.same_text.specs.text_spec.Stamp.{digits_text};
ghost use Rattle.fleet_tables.specs.fleet_rows.Cell.{cell_of};
ghost use Rattle.query_plan.specs.means_spec.Cells.{cell_in};
ghost use Rattle.query_plan.specs.means_spec.Groups.{scaled_in, scaled_numbers, scaled_text, trimmed, decimals};
ghost use Rattle.row_views.specs.Seen.{seen_value};
ghost use Rattle.level_answers.specs.Added.{IsAdded, IsSum, sum_cell};
ghost use Rattle.query_rows.specs.Referred.{rows_of};

use fleet_tables::fleet_rows::{Cell, Entity};
use itoa::Buffer;
use row_views::{Seen, View};
use same_text::json_tree::{Json, Number, Text};
use std::alloc::{AllocError, Global};

/// The number 1 in the units of sums, 10^-18.
const UNIT: u128 = 1_000_000_000_000_000_000;

/// The result of adding up numbers.
#[derive(Drop)]
pub(crate) enum Sum {
    /// Some partial sum overflows 128 bits.
    TooLarge,
    /// The sum in units of 10^-18; None if there was nothing to add.
    Of(Option<i128>),
}

fn scaled_in(seen: &Seen<'_>) -> Option<i128>
    ensures { result ≡ scaled_in (seen_value seen.now) }
{
    match seen {
        Seen::Cell(Cell::Plain(Json::Num(number))) => number.scaled(),
        Seen::Value(Json::Num(number)) => number.scaled(),
        _ => None,
    }
}

// Adds one number, or returns None on overflow.
fn added(total: Option<i128>, number: i128) -> Option<i128>
    ensures { IsAdded result total number }
{
    match total {
        Some(total) => total.checked_add(number),
        None => Some(number),
    }
}

/// The sum of a column over these rows.
pub(crate) fn sum_of(entity: Option<Entity>, name: &str, rows: &[&View<'_>]) -> Sum
    ensures { IsSum result (scaled_numbers (map (cell_in entity name.now) (rows_of rows.now))) }
{
    let mut total = None;
    for row in rows {
        if let Some(number) = scaled_in(&row.seen(entity, name)) {
            match added(total, number) {
                Some(sum) => total = Some(sum),
                None => return Sum::TooLarge,
            }
        }
    }
    Sum::Of(total)
}

/// The cell of a sum; null if there was nothing to add.
pub(crate) fn sum_cell(alloc: Global, sum: &Option<i128>) -> Result<Cell, AllocError>
    ensures { IfOk result (λ cell. cell_of cell ≡ sum_cell sum.now) }
{
    match sum {
        None => Ok(Cell::Plain(Json::Null)),
        Some(m) => Ok(Cell::Plain(Json::Num(number_of(alloc, m)?))),
    }
}

// The number m / 10^18.
fn number_of(alloc: Global, m: &i128) -> Result<Number, AllocError>
    ensures { IfOk result (λ number. number ≡ scaled_text m.now) }
{
    let text = Text::from_string(scaled_text(alloc, m)?);
    Ok(Number::of(text))
}

// m / 10^18 in decimal.
fn scaled_text(alloc: Global, m: &i128) -> Result<String, AllocError>
    ensures text { IfOk result (λ text. string_bytes text ≡ scaled_text m.now) }
    ensures bound { unsigned_abs m.now ≤ 2 ^ 127 }
{
    let value = *m;
    let size = value.unsigned_abs();
    let mut out = String::new(alloc);
    put_sign(&mut out, m)?;
    let mut buffer = Buffer::new();
    out.push_str(buffer.format(size / UNIT))?;
    put_decimals(&mut out, (size % UNIT) as u64)?;
    Ok(out)
}

fn put_sign(out: &mut String, m: &i128) -> Result<(), AllocError>
    ensures { OnOk result (string_bytes out.new ≡ string_bytes out.old ++ (if int_lt m.now (pos 0) then 45 ∷ [] else [])) }
{
    if *m < 0 {
        out.push('-')?;
    }
    Ok(())
}

// Appends the decimal fraction of n / 10^18.
fn put_decimals(out: &mut String, n: u64) -> Result<(), AllocError>
    ensures { OnOk result (string_bytes out.new ≡ string_bytes out.old ++ decimals n) }
{
    if n == 0 {
        return Ok(());
    }
    out.push('.')?;
    put_trimmed(out, 18, n)
}

// Appends the last `width` digits of n, without trailing zeros.
fn put_trimmed(out: &mut String, width: u8, n: u64) -> Result<(), AllocError>
    ensures { OnOk result (string_bytes out.new ≡ string_bytes out.old ++ trimmed width n) }
{
    if width == 0 {
        return Ok(());
    }
    if n % 10 == 0 {
        put_trimmed(out, width - 1, n / 10)
    } else {
        put_digits(out, width, n)
    }
}

// Appends the last `width` digits of n.
fn put_digits(out: &mut String, width: u8, n: u64) -> Result<(), AllocError>
    ensures { OnOk result (string_bytes out.new ≡ string_bytes out.old ++ digits_text width n) }
{
    if width == 0 {
        return Ok(());
    }
    put_digits(out, width - 1, n / 10)?;
    out.push((b'0' + (n % 10) as u8) as char)?;
    Ok(())
}
