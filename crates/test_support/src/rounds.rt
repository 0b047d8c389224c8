//! The scenarios of a text, and the rounds of each.
use crate::texts::{number_of, parted, replaced};
use itoa::Buffer;
use std::alloc::{AllocError, Global};

// The first number of a span such as `2..5` or `2`, and the one behind its last.
fn ends_of(span: &str) -> (u64, u64) {
    let (first, end) = parted(span, "..");
    let first = number_of(first);
    if end.is_empty() {
        (first, first.saturating_add(1))
    } else {
        (first, number_of(end))
    }
}

fn add_span(numbers: &mut Vec<u64>, span: &str) -> Result<(), AllocError> {
    let (first, end) = ends_of(span);
    for number in first..end {
        numbers.push(number)?;
    }
    Ok(())
}

// Appends the numbers of a list such as `0,2..5`, of which the end of a range is left out.
fn add_numbers(numbers: &mut Vec<u64>, list: &str) -> Result<(), AllocError> {
    let mut rest = list;
    'spans: for _ in 0..list.len() {
        let (span, more) = parted(rest, ",");
        add_span(numbers, span)?;
        if more.is_empty() {
            break;
        }
        rest = more;
    }
    Ok(())
}

// The list that the scenario gives this name, as ` <disk>=0..4`; nothing where it gives none.
fn list_of<'a>(scenario: &'a str, name: &str) -> &'a str {
    let (_, behind) = parted(scenario, name);
    let (line, _) = parted(behind, "\n");
    parted(line, " ").0
}

// The numbers of the list, and 0 alone where it has none.
fn numbers_of(alloc: Global, list: &str) -> Result<Vec<u64>, AllocError> {
    let mut numbers = Vec::new(alloc);
    add_numbers(&mut numbers, if list.is_empty() { "0" } else { list })?;
    Ok(numbers)
}

// The text with the number in the places of the mark.
fn filled(alloc: Global, text: &str, mark: &str, number: u64) -> Result<String, AllocError> {
    replaced(alloc, text, mark, Buffer::new().format(number))
}

// Appends the text once for each of the numbers, which stands in the places of the mark.
fn add_filled(
    alloc: Global,
    texts: &mut Vec<String>,
    text: &str,
    mark: &str,
    numbers: &[u64],
) -> Result<(), AllocError> {
    for number in numbers {
        texts.push(filled(alloc, text, mark, *number)?)?;
    }
    Ok(())
}

// Each of the texts with each of the numbers of the list in the places of the mark.
fn each_filled(
    alloc: Global,
    texts: &[String],
    list: &str,
    mark: &str,
) -> Result<Vec<String>, AllocError> {
    let numbers = numbers_of(alloc, list)?;
    let mut all = Vec::new(alloc);
    for text in texts {
        add_filled(alloc, &mut all, text.as_str(), mark, numbers.as_slice())?;
    }
    Ok(all)
}

/// The scenario once for each disk, call and image that it names, in this order.
pub fn rounds_of(alloc: Global, scenario: &str) -> Result<Vec<String>, AllocError> {
    let mut texts = Vec::new(alloc);
    texts.push(String::from_str(alloc, scenario)?)?;
    let disks = list_of(scenario, " <disk>=");
    let texts = each_filled(alloc, texts.as_slice(), disks, "<disk>")?;
    let calls = list_of(scenario, " <call>=");
    let texts = each_filled(alloc, texts.as_slice(), calls, "<call>")?;
    let images = list_of(scenario, " <image>=");
    each_filled(alloc, texts.as_slice(), images, "<image>")
}

// The head and the scenario.
fn under(alloc: Global, head: &str, scenario: &str) -> Result<String, AllocError> {
    let mut text = String::new(alloc);
    add_text(&mut text, head)?;
    text.push_str(scenario)?;
    Ok(text)
}

// Appends each scenario with each of the heads in front.
fn add_all(
    alloc: Global,
    all: &mut Vec<String>,
    heads: &str,
    scenarios: &str,
) -> Result<(), AllocError> {
    let mut rest = heads;
    'heads: for _ in 0..heads.len().saturating_add(1) {
        let (head, more) = parted(rest, "\n\n");
        add_scenarios(alloc, all, head, scenarios)?;
        if more.is_empty() {
            break;
        }
        rest = more;
    }
    Ok(())
}

// Appends each scenario with the head in front.
fn add_scenarios(
    alloc: Global,
    all: &mut Vec<String>,
    head: &str,
    scenarios: &str,
) -> Result<(), AllocError> {
    let mut rest = scenarios;
    'scenarios: for _ in 0..scenarios.len().saturating_add(1) {
        let (part, more) = parted(rest, "\n\n");
        all.push(under(alloc, head, part)?)?;
        if more.is_empty() {
            break;
        }
        rest = more;
    }
    Ok(())
}

/// The scenarios, which empty lines part, each with each of the heads in front, which are parted so too. A line that ends with a
/// backslash goes on in the next one.
///
/// A line may name numbers, as `each <disk>=0..4 <call>=1,8 <image>=0..4`: then the scenario is played once for each disk, call and
/// image, and these words stand for the numbers. Where its lines say `log`, each round has a log. The lines `outcome` are the
/// different logs, in the order in which they first come.
pub fn scenarios_of(
    alloc: Global,
    heads: &str,
    scenarios: &str,
) -> Result<Vec<String>, AllocError> {
    let heads = replaced(alloc, heads, "\\\n", "")?;
    let lines = replaced(alloc, scenarios, "\\\n", "")?;
    let mut all = Vec::new(alloc);
    add_all(alloc, &mut all, heads.as_str(), lines.as_str())?;
    Ok(all)
}

/// The lines once for each of the words that one of them names behind `for`, which stands for `<it>`; once where none does.
pub fn turns_of(alloc: Global, lines: &str) -> Result<Vec<String>, AllocError> {
    let mut turns = Vec::new(alloc);
    let (_, behind) = parted(lines, "\nfor ");
    let (words, _) = parted(behind, "\n");
    let mut rest = words;
    'words: for _ in 0..words.len().saturating_add(1) {
        let (word, more) = parted(rest, " ");
        turns.push(replaced(alloc, lines, "<it>", word)?)?;
        if more.is_empty() {
            break;
        }
        rest = more;
    }
    Ok(turns)
}

// The outcomes that the scenario lists.
fn listed(alloc: Global, scenario: &str) -> Result<String, AllocError> {
    let mut outcomes = String::new(alloc);
    let (_, mut rest) = parted(scenario, "\noutcome ");
    'outcomes: for _ in 0..scenario.len() {
        if rest.is_empty() {
            break;
        }
        let (text, more) = parted(rest, "\n");
        outcomes.push_str(text)?;
        outcomes.push('\n')?;
        rest = more.strip_prefix("outcome ").unwrap_or("");
    }
    Ok(outcomes)
}

// Whether the log is one of the outcomes.
fn is_listed(outcomes: &str, log: &str) -> bool {
    let mut rest = outcomes;
    'lines: for _ in 0..outcomes.len() {
        let (line, more) = parted(rest, "\n");
        if line == log {
            return true;
        }
        rest = more;
    }
    false
}

// Whether the outcomes are those that are listed. `any one` stands for a single outcome.
fn are_outcomes(outcomes: &str, listed: &str) -> bool {
    if listed == "any one\n" {
        let (line, more) = parted(outcomes, "\n");
        return more.is_empty() && !line.is_empty();
    }
    outcomes == listed
}

/// Appends the text and a line end.
pub fn add_text(text: &mut String, line: &str) -> Result<(), AllocError> {
    text.push_str(line)?;
    text.push('\n')
}

/// What came of the rounds.
#[derive(Drop)]
pub struct Rounds {
    alloc: Global,
    // The different logs of a scenario, a line each.
    outcomes: String,
    /// What is not as the scripts say.
    pub wrong: String,
}

impl Rounds {
    pub fn new(alloc: Global) -> Rounds {
        Rounds {
            alloc,
            outcomes: String::new(alloc),
            wrong: String::new(alloc),
        }
    }

    /// Adds the log of a round to the outcomes, where it isn't one of them.
    pub fn add_outcome(&mut self, log: &str) -> Result<(), AllocError> {
        if log.is_empty() || is_listed(self.outcomes.as_str(), log) {
            return Ok(());
        }
        add_text(&mut self.outcomes, log)
    }

    // Compares what the rounds came to with what is listed.
    fn compare(&mut self, scenario: &str, listed: &str) -> Result<(), AllocError> {
        if are_outcomes(self.outcomes.as_str(), listed) {
            return Ok(());
        }
        let wrong = &mut self.wrong;
        add_text(wrong, scenario)?;
        add_text(wrong, "the rounds came to:")?;
        wrong.push_str(self.outcomes.as_str())
    }

    /// Ends the rounds of this scenario: compares what they came to with what it lists.
    pub fn end(&mut self, scenario: &str) -> Result<(), AllocError> {
        let listed = listed(self.alloc, scenario)?;
        self.compare(scenario, listed.as_str())?;
        self.outcomes.clear();
        Ok(())
    }
}
