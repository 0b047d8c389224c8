//! Reads decimal numbers, and the lifetimes that they give.
ghost use Rattle.std.specs.Prelude.{◌≡◌, ◌≤◌, ◌<◌, ◌^◌, ℕ, IfSome, Some, decimal};
ghost use Rattle.spool_spec.specs.fleet_rows.Lifetime.{IsReportCount};
ghost use Rattle.spool_spec.specs.fleet_rows.declared.settings.Ttls.{Ttls};
ghost use Rattle.program_words.specs.Words.{AreLifetimes};
ghost use Rattle.program_words.specs.Splitting.{plain_words};

use crate::told::Plain;
use itoa::Buffer;
use spool_spec::fleet_rows::Ttls;
use spool_spec::stamp_time::MOST_DAYS;

/// The lifetimes that these numbers give, in days, or the defaults if there are no numbers. None if they give none.
pub(crate) fn lifetimes_of<'a>(numbers: Plain<'a>) -> Option<Ttls>
    ensures some { IfSome result (AreLifetimes (plain_words numbers.entry)) }
    ensures every { (ttls : Ttls) → AreLifetimes (plain_words numbers.entry) ttls → result ≡ Some ttls }
{
    match numbers {
        Plain::Zero => Some(Ttls::default_lifetimes()),
        Plain::Three(node, purge, report) => with_days(node, purge, report, None),
        Plain::Four(node, purge, report, count) => {
            let count = number_in(count, 1_000_000)?;
            with_days(node, purge, report, Some(count))
        }
        Plain::One(_) | Plain::Two(_, _) => None,
    }
}

// The lifetimes in days, with this limit on the number of reports.
fn with_days(node: &str, purge: &str, report: &str, report_count: Option<u32>) -> Option<Ttls>
    requires count { IfSome report_count IsReportCount }
    ensures some { IfSome result (λ t. (node.now ≡ decimal t.node_days) × (purge.now ≡ decimal t.purge_days)
        × (report.now ≡ decimal t.report_days) × (t.report_count ≡ report_count)) }
    ensures every { (t : Ttls) → node.now ≡ decimal t.node_days → purge.now ≡ decimal t.purge_days
        → report.now ≡ decimal t.report_days → t.report_count ≡ report_count → result ≡ Some t }
{
    let node_days = number_in(node, MOST_DAYS)?;
    let purge_days = number_in(purge, MOST_DAYS)?;
    let report_days = number_in(report, MOST_DAYS)?;
    Some(Ttls {
        node_days,
        purge_days,
        report_days,
        report_count,
    })
}

/// The number from 1 to `greatest` that the argument writes in decimal, without a sign or a leading zero. None for any other
/// text.
pub(crate) fn number_in(word: &str, greatest: u32) -> Option<u32>
    ensures some { IfSome result (λ n. (1 ≤ n) × (n ≤ greatest) × (word.now ≡ decimal n)) }
    ensures every { (n : ℕ) → 1 ≤ n → n ≤ greatest → word.now ≡ decimal n → result ≡ Some n }
{
    match word.parse::<u32>() {
        Ok(n) if 1 <= n && n <= greatest && Buffer::new().format(n) == word => Some(n),
        _ => None,
    }
}

/// The number from 0 to `greatest` that the argument writes in decimal, without a sign or a leading zero.
pub(crate) fn number_up_to(word: &str, greatest: u32) -> Option<u32>
    ensures some { IfSome result (λ n. (n ≤ greatest) × (word.now ≡ decimal n)) }
    ensures every { (n : ℕ) → n ≤ greatest → word.now ≡ decimal n → result ≡ Some n }
{
    match word.parse::<u32>() {
        Ok(n) if n <= greatest && Buffer::new().format(n) == word => Some(n),
        _ => None,
    }
}

/// The number below 2^64 that the argument writes in decimal, without a sign or a leading zero.
pub(crate) fn whole_in(word: &str) -> Option<u64>
    ensures some { IfSome result (λ n. (n < 2 ^ 64) × (word.now ≡ decimal n)) }
    ensures every { (n : ℕ) → n < 2 ^ 64 → word.now ≡ decimal n → result ≡ Some n }
{
    match word.parse::<u64>() {
        Ok(n) if Buffer::new().format(n) == word => Some(n),
        _ => None,
    }
}
