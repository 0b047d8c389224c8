//! Trials: a case is tried once, or with each call of a disk at which a fault may come.
use crate::faults::{Fault, NO_FAULT};
use crate::notes::{Notes, numbers_of};
use crate::texts::parted;
use std::alloc::{AllocError, Global};

/// What tries cases.
pub trait Trial {
    /// Tries a case of this kind. What the trial showed, a bit for each word that `tried` names.
    fn try_one(&self, notes: &mut Notes, kind: &str, script: &str, fault: Fault) -> u64;
}

// The fault of a trial. In the variants of `fails` further calls fail, in those of the others a crash leaves other images.
fn fault_of(word: &str, which: u64, call: u64, variant: u64) -> Fault {
    let mut fault = NO_FAULT;
    fault.which = which;
    match word {
        "fails" => {
            fault.first = call;
            fault.count = variant.saturating_add(1);
        }
        "weak" => {
            fault.first = call;
            fault.count = 1;
            fault.image = variant;
        }
        _ => {
            fault.stop = call;
            fault.image = variant;
        }
    }
    fault
}

/// What trials may show: a command got no receipt, or none did; all four ended; the core is down by its queue or its store; more is
/// found than was answered; a change is there whose settle had no answer; the keeper went down. `nothing` says that they show none of it.
static SHOWN: [&str; 8] = [
    " less", " silent", " whole", " queue", " store", " untold", " undone", " down",
];

// The words for these bits, each behind a blank.
fn words_of(alloc: Global, shown: u64) -> Result<String, AllocError> {
    let mut text = String::new(alloc);
    let mut left = shown;
    if shown == 0 {
        text.push_str(" nothing")?;
    }
    for word in SHOWN.iter() {
        if left % 2 == 1 {
            text.push_str(word)?;
        }
        left /= 2;
    }
    Ok(text)
}

// Tries the script at this call of the disk, in each variant. What the trials showed.
fn try_variants<T: Trial + Drop>(
    trial: &T,
    notes: &mut Notes,
    kind: &str,
    script: &str,
    word: &str,
    numbers: [u64; 3],
) -> u64 {
    let [which, call, variants] = numbers;
    let mut shown = 0;
    notes.call = call;
    'variants: for variant in 0..variants {
        notes.variant = variant;
        shown |= trial.try_one(notes, kind, script, fault_of(word, which, call, variant));
    }
    shown
}

// Tries it at each of these calls: the numbers of the head are the disk, the first call, the last call, and how many variants there are.
fn try_calls<T: Trial + Drop>(
    trial: &T,
    notes: &mut Notes,
    kind: &str,
    script: &str,
    word: &str,
    numbers: [u64; 4],
) -> u64 {
    let [which, first, last, variants] = numbers;
    let mut shown = 0;
    'calls: for call in first..last.saturating_add(1) {
        shown |= try_variants(trial, notes, kind, script, word, [which, call, variants]);
    }
    shown
}

// Compares what was shown.
fn compare_shown(notes: &mut Notes, shown: u64, wanted: &str) {
    match words_of(notes.alloc, shown) {
        Ok(words) => notes.compare(parted(words.as_str(), " ").1, wanted),
        Err(_) => notes.is_starved = true,
    }
}

// Tries the script as its head says, and compares what was shown.
fn try_each<T: Trial + Drop>(trial: &T, notes: &mut Notes, kind: &str, head: &str, script: &str) {
    let (word, rest) = parted(head, " ");
    let (numbers, wanted) = parted(rest, " = ");
    let shown = try_calls(trial, notes, kind, script, word, numbers_of(numbers));
    compare_shown(notes, shown, wanted);
}

// A case with a head of faults has a trial for each, any other is tried once. Behind `#` stands what cases are about.
fn try_case<T: Trial + Drop>(trial: &T, notes: &mut Notes, kind: &str, case: &str) {
    let (head, script) = parted(case, "/");
    let (word, _) = parted(head, " ");
    match word {
        "#" => {}
        "fails" | "weak" | "stops" => try_each(trial, notes, kind, head, script),
        _ => {
            let _ = trial.try_one(notes, kind, case, NO_FAULT);
        }
    }
}

/// Tries the cases of this kind, which the mark parts. What is another than a case has it, a line each.
pub fn tried<T: Trial + Drop>(
    trial: &T,
    alloc: Global,
    kind: &str,
    mark: &str,
    cases: &str,
) -> Result<String, AllocError> {
    let mut notes = Notes::new(alloc);
    let mut rest = cases;
    'cases: for at in 0..cases.len() {
        let (case, more) = parted(rest, mark);
        notes.case = at;
        try_case(trial, &mut notes, kind, case);
        if more.is_empty() {
            break;
        }
        rest = more;
    }
    if notes.is_starved {
        drop(notes);
        return Err(AllocError);
    }
    Ok(notes.text)
}
