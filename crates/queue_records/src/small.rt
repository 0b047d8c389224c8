//! Encodes records of a fixed length, which take no memory.
ghost use Rattle.std.specs.Prelude.{◌≡◌};
ghost use Rattle.record_fields.specs.record_spec.Queue.{queue_text};
ghost use Rattle.record_fields.specs.record_spec.declared.queue.QueueRecord.TheVariants as queue;

/// The bytes of the record that the command with this receipt was applied.
pub fn done_bytes(receipt: u64) -> [u8; 9]
    ensures { result ≡ queue_text (queue.Done receipt) }
{
    let mut bytes = [4; 9];
    bytes[1..].copy_from_slice(&receipt.to_le_bytes());
    bytes
}

/// The bytes of the record that the store failed on the command with this receipt, with the store's fault counts before and
/// after.
pub fn fail_bytes(receipt: u64, before: u64, after: u64) -> [u8; 25]
    ensures { result ≡ queue_text (queue.Fail receipt before after) }
{
    let mut bytes = [7; 25];
    bytes[1..9].copy_from_slice(&receipt.to_le_bytes());
    bytes[9..17].copy_from_slice(&before.to_le_bytes());
    bytes[17..].copy_from_slice(&after.to_le_bytes());
    bytes
}
