//! Why a command is refused or discarded.

/// Why a payload is refused, in the order of the refusal numbers in log files.
#[derive(Clone, Copy, PartialEq, Eq, Debug)]
pub enum Refusal {
    /// The version isn't the accepted one for the command's kind.
    BadVersion,
    /// The payload isn't JSON (RFC 8259). `at` is the length of its longest prefix that begins a JSON text, in bytes.
    NotJson { at: usize },
    /// The byte at `at` opens level 128 of nesting.
    TooDeep { at: usize },
    /// The payload is JSON, but no object.
    NotObject,
    /// A required field is absent.
    Missing(Place),
    /// The value has the wrong type, or isn't allowed in this field.
    Wrong(Place),
    /// A text is no stamp.
    BadStamp(Place),
    /// A resource repeats the type and title of an earlier one; `index` is its index.
    DuplicateResource { index: u32 },
    /// An edge has an unknown relationship; `index` is its index.
    BadRelationship { index: u32 },
}

/// The position of a fault in a payload: a field, and inside lists the indices, outermost first.
#[derive(Clone, Copy, PartialEq, Eq, Debug)]
pub struct Place {
    pub field: Field,
    pub outer: Option<u32>,
    pub inner: Option<u32>,
}

/// A field of a wire format, in the order of the field numbers in log files.
#[derive(Clone, Copy, PartialEq, Eq, Debug)]
pub enum Field {
    Certname,
    Environment,
    Values,
    ProducerTimestamp,
    Producer,
    Version,
    TransactionUuid,
    CatalogUuid,
    CodeId,
    JobId,
    Edges,
    Resources,
    Type,
    Title,
    Exported,
    File,
    Line,
    Tags,
    Parameters,
    Source,
    SourceType,
    SourceTitle,
    Target,
    TargetType,
    TargetTitle,
    Relationship,
    PuppetVersion,
    ReportFormat,
    ConfigurationVersion,
    StartTime,
    EndTime,
    Noop,
    Status,
    Logs,
    Metrics,
    ResourceType,
    ResourceTitle,
    Events,
    Timestamp,
    Property,
    Message,
    Expire,
    ExpireFacts,
}

/// Why a command was discarded.
#[derive(Clone, Copy, PartialEq, Eq, Debug)]
pub enum Cause {
    /// Its payload was refused.
    Refused(Refusal),
    /// The store failed sixteen times.
    Failures,
}
