//! Keepers of a store's records, over two files and in memory.
ghost use Rattle.std.specs.Prelude.{◌≡◌, false, IfOk};
ghost use Rattle.std.specs.List.{AllByRecursion};
ghost use Rattle.fleet_keeper.specs.record_spec.Store.{IsStoreRecord};

use fleet_keeper::store_records::read_store;
use fleet_keeper::{
    Keeper, Kept, LogKeeper, MemoryKeeper, Numbers, Side, Spelt, StoreRecord, StoreRecords,
    open_keeper,
};
use fleet_ports::Disk;
use port_memory::FuseDisk;
use std::alloc::{AllocError, Global};
use test_support::{
    Fault, NO_FAULT, Notes, count_of, crashed_disk, file, fused, gives, parted, parts_of,
    record_of, says, weak_disk,
};

// The change with this receipt.
fn applied(alloc: Global, digit: u8) -> Result<StoreRecord, AllocError>
    ensures { IfOk result IsStoreRecord }
{
    let bytes = record_of(alloc, b'C', digit)?;
    match read_store(alloc, bytes.as_slice())? {
        Some(rec) => Ok(rec),
        None => Err(AllocError),
    }
}

// Lifetimes and a base, both with the number 7.
fn sevens(alloc: Global) -> Result<StoreRecords, AllocError>
    ensures { IfOk result (λ r. AllByRecursion IsStoreRecord r) }
{
    let mut records = StoreRecords::new(alloc);
    records.push(StoreRecord::Settings(7, 1, 1))?;
    records.push(StoreRecord::Base(None, None, Some(7)))?;
    Ok(records)
}

// Keeps a change, unless the keeper is down. The record is dropped by a call, so that no proof opens its variants at each exit.
fn put<K: Keeper + Drop>(
    alloc: Global,
    keeper: &mut K,
    digit: u8,
) -> Result<Option<Kept>, AllocError>
    requires good { K.down keeper.old ≡ false → K.is_up keeper.old }
    ensures good { K.down keeper.new ≡ false → K.is_up keeper.new }
{
    let rec = applied(alloc, digit)?;
    if keeper.is_down() {
        drop(rec);
        return Ok(None);
    }
    let kept = keeper.keep(alloc, &rec);
    drop(rec);
    Ok(Some(kept))
}

// That change as it is spelt.
fn spelt(alloc: Global, digit: u8) -> Result<Spelt, AllocError> {
    let rec = applied(alloc, digit)?;
    let spelt = Spelt::of(alloc, &rec);
    drop(rec);
    spelt
}

// Keeps a change that was spelt beforehand, unless the keeper is down.
fn put_spelt<K: Keeper + Drop>(
    alloc: Global,
    keeper: &mut K,
    digit: u8,
) -> Result<Option<Kept>, AllocError>
    requires good { K.down keeper.old ≡ false → K.is_up keeper.old }
    ensures good { K.down keeper.new ≡ false → K.is_up keeper.new }
{
    let spelt = spelt(alloc, digit)?;
    if keeper.is_down() {
        return Ok(None);
    }
    Ok(Some(keeper.keep_spelt(alloc, &spelt)))
}

// Makes a checkpoint of the sevens, unless the keeper is down.
fn renew<K: Keeper + Drop>(alloc: Global, keeper: &mut K) -> Result<Option<Kept>, AllocError>
    requires good { K.down keeper.old ≡ false → K.is_up keeper.old }
    ensures good { K.down keeper.new ≡ false → K.is_up keeper.new }
{
    let records = sevens(alloc)?;
    if keeper.is_down() {
        return Ok(None);
    }
    Ok(Some(keeper.checkpoint(alloc, &records)))
}

// The number of a record, in the files of these tests.
fn digit_of(rec: &StoreRecord) -> u64 {
    match rec {
        StoreRecord::Settings(number, _, _) => u64::from(*number),
        StoreRecord::Base(_, _, Some(number)) => *number,
        StoreRecord::Applied(number, _) => *number,
        _ => 0,
    }
}

// The numbers of the records, as digits.
fn digits(records: &StoreRecords) -> u64 {
    let mut digits = 0u64;
    for rec in records.as_slice() {
        digits = digits.wrapping_mul(10).wrapping_add(digit_of(rec));
    }
    digits
}

// `kept` has the records by the last answer, as digits. `told` counts the faults in the answers, `faults` those that the keeper counted,
// and `counted` those of its disks. `left` has the digits that the last opening found, `second` says that it found them in the second file.
#[derive(Clone, Copy)]
struct Run {
    kept: u64,
    told: u64,
    faults: u64,
    counted: u64,
    left: u64,
    second: bool,
}

const UNOPENED: Run = Run {
    kept: 12,
    told: 0,
    faults: 0,
    counted: 0,
    left: 0,
    second: false,
};

// Notes an answer: about the sevens, or about a change with this number. Where memory lacked, nothing is noted of it here.
fn count(run: &mut Run, kept: &Result<Option<Kept>, AllocError>, number: Option<u64>) {
    match kept {
        Ok(Some(Kept::Ok)) => {
            run.kept = match number {
                Some(number) => run.kept.wrapping_mul(10).wrapping_add(number),
                None => 77,
            }
        }
        Ok(Some(Kept::Failed)) => run.told = run.told.saturating_add(1),
        Ok(Some(Kept::Down)) => run.told = run.told.saturating_add(2),
        _ => {}
    }
}

// `put` and `spelt` keep a change with this number, and `renew` makes a checkpoint.
fn kept_by<K: Keeper + Drop>(
    alloc: Global,
    keeper: &mut K,
    word: &str,
    digit: u8,
) -> Result<Option<Kept>, AllocError>
    requires good { K.down keeper.old ≡ false → K.is_up keeper.old }
    ensures good { K.down keeper.new ≡ false → K.is_up keeper.new }
{
    match word {
        "put" => put(alloc, keeper, digit),
        "spelt" => put_spelt(alloc, keeper, digit),
        "renew" => renew(alloc, keeper),
        _ => Ok(None),
    }
}

// One call, whose answer is counted and compared.
fn call<K: Keeper + Drop>(notes: &mut Notes, keeper: &mut K, run: &mut Run, text: &str)
    requires good { K.down keeper.old ≡ false → K.is_up keeper.old }
    ensures good { K.down keeper.new ≡ false → K.is_up keeper.new }
{
    let alloc = notes.alloc;
    let (what, wanted) = parted(text, " = ");
    let (word, digit) = parted(what, " ");
    let byte = digit.as_bytes().first().copied().unwrap_or(0);
    let kept = kept_by(alloc, keeper, word, byte);
    count(run, &kept, (word != "renew").then_some(count_of(digit)));
    gives(notes, kept, wanted);
}

// Up to four calls, with commas between them.
fn calls<K: Keeper + Drop>(notes: &mut Notes, keeper: &mut K, run: &mut Run, text: &str)
    requires good { K.down keeper.old ≡ false → K.is_up keeper.old }
{
    let ([first, second, third], fourth) = parts_of(text, ", ");
    call(notes, keeper, run, first);
    call(notes, keeper, run, second);
    call(notes, keeper, run, third);
    call(notes, keeper, run, fourth);
}

// Compares which file counts, and the numbers of its records.
fn found<D: Disk + Drop>(notes: &mut Notes, keeper: &LogKeeper<D>, run: &mut Run, wanted: &str) {
    let side = keeper.side();
    run.second = side == Side::B;
    says(notes, (side, run.left), wanted);
}

// Compares which file counts, whether the keeper is down, and its faults.
fn stood<D: Disk + Drop>(notes: &mut Notes, keeper: &LogKeeper<D>, run: &mut Run, wanted: &str) {
    run.faults = keeper.faults();
    says(notes, (keeper.side(), keeper.is_down(), run.faults), wanted);
}

// Opens a keeper, makes the calls and notes the run. Compared are which file counts and the numbers of its records, or why the files
// aren't opened; the answers; and which file counts then, whether the keeper is down, and its faults.
fn session<D: Disk + Drop>(notes: &mut Notes, disks: (D, D), run: &mut Run, text: &str) -> (D, D) {
    let ([wanted, words, state], _) = parts_of(text, "; ");
    run.left = 0;
    run.second = false;
    let (a, b) = disks;
    match open_keeper(notes.alloc, a, b) {
        Ok((keeper, records)) => {
            let mut keeper = keeper;
            run.left = digits(&records);
            drop(records);
            found(notes, &keeper, run, wanted);
            calls(notes, &mut keeper, run, words);
            stood(notes, &keeper, run, state);
            keeper.into_disks()
        }
        Err((why, a, b)) => {
            says(notes, why, wanted);
            (a, b)
        }
    }
}

// Whether the disk has exactly these bytes, at most 96.
fn has(disk: &mut FuseDisk, bytes: &[u8]) -> bool {
    let mut buffer = [0; 96];
    let count = bytes.len();
    match disk.len() {
        Ok(len) if len == count as u64 && count <= 96 => {
            disk.read_at(0, &mut buffer[..count]).is_ok() && &buffer[..count] == bytes
        }
        _ => false,
    }
}

// Compares the first disk, or the second one, with a file.
fn has_file(notes: &mut Notes, disks: &mut (FuseDisk, FuseDisk), text: &str) {
    let (place, names) = parted(text, " ");
    let bytes = file(notes, names);
    let same = if place == "a" {
        has(&mut disks.0, bytes.as_slice())
    } else {
        has(&mut disks.1, bytes.as_slice())
    };
    says(notes, same, "true");
}

// Whether the old records or the new ones are there, and the answers had the faults.
fn stands(run: &Run) -> bool {
    let is_there = if run.second {
        run.left == 77
    } else {
        run.left == run.kept || run.kept == 12 && run.left == 123
    };
    is_there && run.faults == run.told && run.faults <= run.counted
}

// The disks that a crash leaves.
fn crashed(
    alloc: Global,
    disks: (FuseDisk, FuseDisk),
    run: &mut Run,
    fault: Fault,
) -> (FuseDisk, FuseDisk) {
    let (a, b) = disks;
    run.counted = a.faults().saturating_add(b.faults());
    let mut next = NO_FAULT;
    next.image = fault.image;
    (
        crashed_disk(alloc, a, next, 0),
        crashed_disk(alloc, b, next, 1),
    )
}

// The disks, of which one is compared with a file.
fn compared(notes: &mut Notes, disks: (FuseDisk, FuseDisk), text: &str) -> (FuseDisk, FuseDisk) {
    let mut disks = disks;
    has_file(notes, &mut disks, text);
    disks
}

// Opens a keeper, and compares whether it stands as the run says.
fn standing(notes: &mut Notes, disks: (FuseDisk, FuseDisk), run: &mut Run) -> (FuseDisk, FuseDisk) {
    let mut found = *run;
    let disks = session(notes, disks, &mut found, "");
    run.left = found.left;
    run.second = found.second;
    says(notes, stands(run), "true");
    disks
}

fn part(
    notes: &mut Notes,
    disks: (FuseDisk, FuseDisk),
    run: &mut Run,
    text: &str,
    fault: Fault,
) -> (FuseDisk, FuseDisk) {
    let (word, rest) = parted(text, " ");
    match word {
        "" => disks,
        "crash" => crashed(notes.alloc, disks, run, fault),
        "has" => compared(notes, disks, rest),
        "stands" => standing(notes, disks, run),
        _ => session(notes, disks, run, text),
    }
}

// The disk of a file by the names of its records.
fn disk_of(notes: &mut Notes, names: &str, fault: Fault, place: u64) -> FuseDisk {
    let bytes = file(notes, names);
    let disk = weak_disk(notes.alloc, bytes.as_slice(), fault, place);
    fused(disk, fault, place)
}

// A trial shows that new records are there which no answer acknowledged, and that the keeper went down.
fn shown_by(run: &Run) -> u64 {
    let untold = if run.second && run.kept != 77 { 32 } else { 0 };
    if run.told == 2 { untold | 128 } else { untold }
}

/// Tries a script over two files, four parts at most: sessions of a keeper, `crash`, `has` with a file that a disk is to hold, and `stands`,
/// an opening that finds what was acknowledged, or a checkpoint that wasn't.
pub(crate) fn try_keeper(notes: &mut Notes, script: &str, fault: Fault) -> u64 {
    let ([files, first, second], rest) = parts_of(script, "/");
    let ([third, fourth, more], _) = parts_of(rest, "/");
    says(notes, more.is_empty(), "true");
    let mut run = UNOPENED;
    let (a, b) = parted(files, " ");
    let disks = (disk_of(notes, a, fault, 0), disk_of(notes, b, fault, 1));
    let disks = part(notes, disks, &mut run, first, fault);
    let disks = part(notes, disks, &mut run, second, fault);
    let disks = part(notes, disks, &mut run, third, fault);
    let disks = part(notes, disks, &mut run, fourth, fault);
    drop(disks);
    shown_by(&run)
}

// Two numbers of calls; 0 is the number of none. Where memory is short, there are fewer.
fn two_numbers(alloc: Global, list: &str) -> Numbers {
    let (first, second) = parted(list, " ");
    let mut numbers = Numbers::new(alloc);
    let _ = numbers.push(count_of(first));
    let _ = numbers.push(count_of(second));
    numbers
}

/// Tries a keeper in memory: the numbers of the calls that fail, the calls, and how many there were, the faults, and whether it is down.
pub(crate) fn try_memory(notes: &mut Notes, script: &str) {
    let ([list, words, wanted], _) = parts_of(script, "/");
    let mut keeper = MemoryKeeper::new(notes.alloc, two_numbers(notes.alloc, list));
    let mut run = UNOPENED;
    calls(notes, &mut keeper, &mut run, words);
    let came = (keeper.calls(), keeper.faults(), keeper.is_down());
    drop(keeper);
    says(notes, came, wanted);
}
