//! Items of a spool, by their node, their stamp and their values.
use crate::texts::{add_bytes, add_line, number_of, parted, replaced, row_of};
use itoa::Buffer;
use std::alloc::{AllocError, Global};

/// The words for items, the kind and the version of each, and its payload. `@` stands for the node, `%` for the stamp and `$` for the
/// values, or for the whole.
const FORMS: &str =
    "facts|replace_facts 5|{\"certname\":\"@\",\"environment\":\"production\",\"values\":$,\"producer_timestamp\":\"%\",\"producer\":\"m\"}
older|replace_facts 4|{\"certname\":\"@\",\"environment\":\"production\",\"values\":$,\"producer_timestamp\":\"%\",\"producer\":\"m\"}
catalog|replace_catalog 9|{\"certname\":\"@\",\"version\":\"1\",\"environment\":\"production\",\"transaction_uuid\":null,\
\"catalog_uuid\":null,\"code_id\":null,\"job_id\":null,\"producer_timestamp\":\"%\",\"producer\":\"m\",\"edges\":[],\
\"resources\":[{\"type\":\"Class\",\"title\":\"Ntp\",\"exported\":false,\"file\":null,\"line\":null,\"tags\":[\"class\"],\
\"parameters\":{}}]}
report|store_report 8|{\"certname\":\"@\",\"environment\":\"production\",\"puppet_version\":\"8.0.0\",\"report_format\":12,\
\"configuration_version\":\"1\",\"start_time\":\"%\",\"end_time\":\"%\",\"producer_timestamp\":\"%\",\"producer\":\"m\",\"noop\":false,\
\"status\":\"changed\",\"transaction_uuid\":null,\"resources\":[],\"logs\":[],\"metrics\":[]}
short-report|store_report 8|{\"certname\":\"@\",\"environment\":\"production\",\"values\":$,\"producer_timestamp\":\"%\",\"producer\":\"m\"}
deactivate|deactivate_node 3|{\"certname\":\"@\",\"producer_timestamp\":\"%\"}
expiration|configure_expiration 1|{\"certname\":\"@\",\"producer_timestamp\":\"%\",\"expire\":$}
raw|replace_facts 5|$
raw-catalog|replace_catalog 9|$
raw-report|store_report 8|$";

// The kind and the version of an item, and its payload; no texts for any other word.
fn form_of(word: &str) -> (&'static str, &'static str) {
    let (head, form) = parted(row_of(FORMS, "\n", word), "|");
    (head, form)
}

// The form with these texts in the places of `@`, `%` and `$`.
fn filled(
    alloc: Global,
    form: &str,
    certname: &str,
    stamp: &str,
    values: &str,
) -> Result<String, AllocError> {
    let named = replaced(alloc, form, "@", certname)?;
    let stamped = replaced(alloc, named.as_str(), "%", stamp)?;
    replaced(alloc, stamped.as_str(), "$", values)
}

// Appends an item with its length.
fn add_payload(spool: &mut Vec<u8>, head: &str, payload: &str) -> Result<(), AllocError> {
    spool.extend_from_slice(head.as_bytes())?;
    spool.push(b' ')?;
    add_line(spool, Buffer::new().format(payload.len()))?;
    add_line(spool, payload)
}

/// A spool that a script writes.
#[derive(Drop)]
pub(crate) struct Spool {
    pub(crate) bytes: Vec<u8>,
    middle: String,
}

// Appends an item of this form, with these texts in its places.
fn add_filled(
    alloc: Global,
    spool: &mut Vec<u8>,
    word: &str,
    form: &str,
    texts: [&str; 3],
) -> Result<(), AllocError> {
    let payload = filled(alloc, form, texts[0], texts[1], texts[2])?;
    add_payload(spool, form_of(word).0, payload.as_str())
}

// Appends an item, by its node, its stamp and its values, or by its whole payload. Tells whether the word is that of an item.
fn add_item(
    alloc: Global,
    spool: &mut Vec<u8>,
    word: &str,
    text: &str,
) -> Result<bool, AllocError> {
    let (head, form) = form_of(word);
    if head.is_empty() {
        return Ok(false);
    }
    if form == "$" {
        add_payload(spool, head, text)?;
    } else {
        let (certname, rest) = parted(text, " ");
        let (stamp, values) = parted(rest, " ");
        add_filled(alloc, spool, word, form, [certname, stamp, values])?;
    }
    Ok(true)
}

// Appends an item of each of so many nodes. Its payload has the node's number in the place of `@`, and the middle in that of `$`.
fn add_items(
    alloc: Global,
    spool: &mut Vec<u8>,
    count: u64,
    text: &str,
    middle: &str,
) -> Result<(), AllocError> {
    let (word, form) = parted(text, " ");
    for number in 0..count {
        let mut digits = Buffer::new();
        add_filled(
            alloc,
            spool,
            word,
            form,
            [digits.format(number), "%", middle],
        )?;
    }
    Ok(())
}

// Appends the form so many times to the middle, with the number in the place of `@`.
fn add_middle(
    alloc: Global,
    middle: &mut String,
    count: u64,
    form: &str,
) -> Result<(), AllocError> {
    for number in 0..count {
        let text = replaced(alloc, form, "@", Buffer::new().format(number))?;
        middle.push_str(text.as_str())?;
    }
    Ok(())
}

impl Spool {
    pub(crate) fn new(alloc: Global) -> Spool {
        Spool {
            bytes: Vec::new(alloc),
            middle: String::new(alloc),
        }
    }

    /// Does what a line says of the spool, and tells whether it says so.
    pub(crate) fn step(
        &mut self,
        alloc: Global,
        word: &str,
        text: &str,
    ) -> Result<bool, AllocError> {
        let (count, form) = parted(text, " ");
        let count = number_of(count);
        match word {
            "bytes" => add_bytes(&mut self.bytes, text)?,
            "keep" => self.bytes.truncate(count as usize),
            "middle" => add_middle(alloc, &mut self.middle, count, form)?,
            "nodes" => add_items(alloc, &mut self.bytes, count, form, self.middle.as_str())?,
            _ => return add_item(alloc, &mut self.bytes, word, text),
        }
        Ok(true)
    }
}
