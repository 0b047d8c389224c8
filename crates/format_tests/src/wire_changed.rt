//! Payloads with one field or two in place of those of a payload that is taken: which are refused, and where.
use crate::wire_commands::are_answered;
use crate::wrong::Wrong;
use command_decode::fleet_rows::Kind;

const SIMPLE: &[(Kind, &str, &str)] = &[
    (Kind::Facts, r#""certname":null"#, "wrong certname"),
    (Kind::Facts, r#""certname":"""#, "wrong certname"),
    (Kind::Facts, r#""certname":1"#, "wrong certname"),
    (
        Kind::Facts,
        r#""producer_timestamp":null"#,
        "wrong producer_timestamp",
    ),
    (
        Kind::Facts,
        r#""producer_timestamp":"2024-05-01""#,
        "bad stamp producer_timestamp",
    ),
    (Kind::Facts, r#""Certname":null,"x":[{}]"#, "taken"),
    (Kind::Catalog, r#""certname":null"#, "wrong certname"),
    (Kind::Catalog, r#""certname":"""#, "wrong certname"),
    (Kind::Catalog, r#""certname":1"#, "wrong certname"),
    (
        Kind::Catalog,
        r#""producer_timestamp":null"#,
        "wrong producer_timestamp",
    ),
    (
        Kind::Catalog,
        r#""producer_timestamp":"2024-05-01""#,
        "bad stamp producer_timestamp",
    ),
    (Kind::Catalog, r#""Certname":null,"x":[{}]"#, "taken"),
    (Kind::Report, r#""certname":null"#, "wrong certname"),
    (Kind::Report, r#""certname":"""#, "wrong certname"),
    (Kind::Report, r#""certname":1"#, "wrong certname"),
    (
        Kind::Report,
        r#""producer_timestamp":null"#,
        "wrong producer_timestamp",
    ),
    (
        Kind::Report,
        r#""producer_timestamp":"2024-05-01""#,
        "bad stamp producer_timestamp",
    ),
    (Kind::Report, r#""Certname":null,"x":[{}]"#, "taken"),
    (Kind::Deactivate, r#""certname":null"#, "wrong certname"),
    (Kind::Deactivate, r#""certname":"""#, "wrong certname"),
    (Kind::Deactivate, r#""certname":1"#, "wrong certname"),
    (
        Kind::Deactivate,
        r#""producer_timestamp":null"#,
        "wrong producer_timestamp",
    ),
    (
        Kind::Deactivate,
        r#""producer_timestamp":"2024-05-01""#,
        "bad stamp producer_timestamp",
    ),
    (Kind::Deactivate, r#""Certname":null,"x":[{}]"#, "taken"),
    (Kind::Expiration, r#""certname":null"#, "wrong certname"),
    (Kind::Expiration, r#""certname":"""#, "wrong certname"),
    (Kind::Expiration, r#""certname":1"#, "wrong certname"),
    (
        Kind::Expiration,
        r#""producer_timestamp":null"#,
        "wrong producer_timestamp",
    ),
    (
        Kind::Expiration,
        r#""producer_timestamp":"2024-05-01""#,
        "bad stamp producer_timestamp",
    ),
    (Kind::Expiration, r#""Certname":null,"x":[{}]"#, "taken"),
    (Kind::Facts, r#""environment":null"#, "taken"),
    (Kind::Facts, r#""environment":"""#, "taken"),
    (Kind::Facts, r#""environment":true"#, "wrong environment"),
    (Kind::Facts, r#""producer":null"#, "taken"),
    (Kind::Facts, r#""producer":"""#, "taken"),
    (Kind::Facts, r#""producer":true"#, "wrong producer"),
    (Kind::Catalog, r#""environment":null"#, "taken"),
    (Kind::Catalog, r#""environment":"""#, "taken"),
    (Kind::Catalog, r#""environment":true"#, "wrong environment"),
    (Kind::Catalog, r#""transaction_uuid":null"#, "taken"),
    (Kind::Catalog, r#""transaction_uuid":"""#, "taken"),
    (
        Kind::Catalog,
        r#""transaction_uuid":true"#,
        "wrong transaction_uuid",
    ),
    (Kind::Catalog, r#""catalog_uuid":null"#, "taken"),
    (Kind::Catalog, r#""catalog_uuid":"""#, "taken"),
    (
        Kind::Catalog,
        r#""catalog_uuid":true"#,
        "wrong catalog_uuid",
    ),
    (Kind::Catalog, r#""code_id":null"#, "taken"),
    (Kind::Catalog, r#""code_id":"""#, "taken"),
    (Kind::Catalog, r#""code_id":true"#, "wrong code_id"),
    (Kind::Catalog, r#""job_id":null"#, "taken"),
    (Kind::Catalog, r#""job_id":"""#, "taken"),
    (Kind::Catalog, r#""job_id":true"#, "wrong job_id"),
    (Kind::Catalog, r#""producer":null"#, "taken"),
    (Kind::Catalog, r#""producer":"""#, "taken"),
    (Kind::Catalog, r#""producer":true"#, "wrong producer"),
    (Kind::Report, r#""environment":null"#, "taken"),
    (Kind::Report, r#""environment":"""#, "taken"),
    (Kind::Report, r#""environment":true"#, "wrong environment"),
    (Kind::Report, r#""puppet_version":null"#, "taken"),
    (Kind::Report, r#""puppet_version":"""#, "taken"),
    (
        Kind::Report,
        r#""puppet_version":true"#,
        "wrong puppet_version",
    ),
    (Kind::Report, r#""configuration_version":null"#, "taken"),
    (Kind::Report, r#""configuration_version":"""#, "taken"),
    (
        Kind::Report,
        r#""configuration_version":true"#,
        "wrong configuration_version",
    ),
    (Kind::Report, r#""producer":null"#, "taken"),
    (Kind::Report, r#""producer":"""#, "taken"),
    (Kind::Report, r#""producer":true"#, "wrong producer"),
    (Kind::Report, r#""status":null"#, "taken"),
    (Kind::Report, r#""status":"""#, "taken"),
    (Kind::Report, r#""status":true"#, "wrong status"),
    (Kind::Report, r#""transaction_uuid":null"#, "taken"),
    (Kind::Report, r#""transaction_uuid":"""#, "taken"),
    (
        Kind::Report,
        r#""transaction_uuid":true"#,
        "wrong transaction_uuid",
    ),
];

#[test]
fn a_text_or_a_stamp_is_taken_or_refused_at_its_field(rt: HostRuntime) -> Result<(), Wrong> {
    are_answered(rt.alloc(), SIMPLE)
}

const OTHERS: &[(Kind, &str, &str)] = &[
    (Kind::Facts, r#""values":null"#, "wrong values"),
    (Kind::Facts, r#""values":[]"#, "wrong values"),
    (Kind::Facts, r#""values":"{}""#, "wrong values"),
    (Kind::Facts, r#""values":{"x":null,"x":[]}"#, "taken"),
    (
        Kind::Facts,
        r#""values":true,"producer_timestamp":null,"environment":{}"#,
        "wrong environment",
    ),
    (Kind::Expiration, r#""expire":null"#, "wrong expire"),
    (Kind::Expiration, r#""expire":true"#, "wrong expire"),
    (Kind::Expiration, r#""expire":{}"#, "missing expire.facts"),
    (
        Kind::Expiration,
        r#""expire":{"facts":null}"#,
        "wrong expire.facts",
    ),
    (
        Kind::Expiration,
        r#""expire":{"facts":1}"#,
        "wrong expire.facts",
    ),
    (Kind::Expiration, r#""expire":{"facts":false}"#, "taken"),
    (
        Kind::Expiration,
        r#""expire":null,"producer_timestamp":"noon""#,
        "bad stamp producer_timestamp",
    ),
    (Kind::Report, r#""start_time":null"#, "taken"),
    (Kind::Report, r#""start_time":1"#, "wrong start_time"),
    (
        Kind::Report,
        r#""start_time":"2024-05-01""#,
        "bad stamp start_time",
    ),
    (Kind::Report, r#""end_time":null"#, "taken"),
    (Kind::Report, r#""end_time":1"#, "wrong end_time"),
    (
        Kind::Report,
        r#""end_time":"2024-05-01""#,
        "bad stamp end_time",
    ),
    (
        Kind::Report,
        r#""report_format":"12""#,
        "wrong report_format",
    ),
    (
        Kind::Report,
        r#""report_format":1.0"#,
        "wrong report_format",
    ),
    (Kind::Report, r#""report_format":-0"#, "wrong report_format"),
    (
        Kind::Report,
        r#""report_format":1e2"#,
        "wrong report_format",
    ),
    (
        Kind::Report,
        r#""report_format":1000000000000000000"#,
        "wrong report_format",
    ),
    (Kind::Report, r#""report_format":0"#, "taken"),
    (Kind::Report, r#""report_format":12"#, "taken"),
    (
        Kind::Report,
        r#""report_format":999999999999999999"#,
        "taken",
    ),
    (Kind::Report, r#""report_format":null"#, "taken"),
    (Kind::Report, r#""noop":null"#, "taken"),
    (Kind::Report, r#""noop":"false""#, "wrong noop"),
    (Kind::Report, r#""resources":null"#, "taken"),
    (Kind::Report, r#""resources":"[]""#, "wrong resources"),
    (Kind::Report, r#""resources":[null]"#, "wrong resources[0]"),
    (Kind::Report, r#""logs":null"#, "taken"),
    (Kind::Report, r#""logs":"[]""#, "wrong logs"),
    (Kind::Report, r#""logs":[null]"#, "wrong logs[0]"),
    (Kind::Report, r#""metrics":null"#, "taken"),
    (Kind::Report, r#""metrics":"[]""#, "wrong metrics"),
    (Kind::Report, r#""metrics":[null]"#, "wrong metrics[0]"),
    (Kind::Report, r#""logs":[{},3]"#, "wrong logs[1]"),
    (
        Kind::Report,
        r#""metrics":[1],"logs":[1],"resources":[1]"#,
        "wrong resources[0]",
    ),
    (
        Kind::Report,
        r#""resources":[1],"transaction_uuid":1"#,
        "wrong transaction_uuid",
    ),
];

#[test]
fn each_other_field_is_taken_or_refused_at_its_place(rt: HostRuntime) -> Result<(), Wrong> {
    are_answered(rt.alloc(), OTHERS)
}

const ELEMENTS: &[(Kind, &str, &str)] = &[
    (
        Kind::Report,
        r#""resources":[{"resource_title":"x"}]"#,
        "missing resources[0].resource_type",
    ),
    (
        Kind::Report,
        r#""resources":[{"resource_type":"x","resource_title":null}]"#,
        "wrong resources[0].resource_title",
    ),
    (
        Kind::Report,
        r#""resources":[{"resource_type":"File","resource_title":"/etc","events":null}]"#,
        "taken",
    ),
    (
        Kind::Report,
        r#""resources":[{"resource_type":"File","resource_title":"/etc","events":{}}]"#,
        "wrong resources[0].events",
    ),
    (
        Kind::Report,
        r#""resources":[{"resource_type":"File","resource_title":"/etc"},{"resource_type":"File","resource_title":"/etc","events":[{}]}]"#,
        "missing resources[1].events[0].status",
    ),
    (
        Kind::Report,
        r#""resources":[{"resource_type":"File","resource_title":"/etc"},{"resource_type":"File","resource_title":"/etc","events":[{"status":null}]}]"#,
        "wrong resources[1].events[0].status",
    ),
    (
        Kind::Report,
        r#""resources":[{"resource_type":"File","resource_title":"/etc"},{"resource_type":"File","resource_title":"/etc","events":[1]}]"#,
        "wrong resources[1].events[0]",
    ),
    (
        Kind::Report,
        r#""resources":[{"resource_type":"File","resource_title":"/etc"},{"resource_type":"File","resource_title":"/etc","events":[{"status":"success","timestamp":null,"property":null,"message":"m"},{"status":"s","timestamp":"noon"}]}]"#,
        "bad stamp resources[1].events[1].timestamp",
    ),
    (
        Kind::Report,
        r#""resources":[{"resource_type":"File","resource_title":"/etc"},{"resource_type":"File","resource_title":"/etc","events":[{"status":"success","timestamp":null,"property":null,"message":"m"},{"status":"s","timestamp":3}]}]"#,
        "wrong resources[1].events[1].timestamp",
    ),
    (
        Kind::Report,
        r#""resources":[{"resource_type":"File","resource_title":"/etc"},{"resource_type":"File","resource_title":"/etc","events":[{"status":"success","timestamp":null,"property":null,"message":"m"},{"status":"s","property":true}]}]"#,
        "wrong resources[1].events[1].property",
    ),
    (
        Kind::Report,
        r#""resources":[{"resource_type":"File","resource_title":"/etc"},{"resource_type":"File","resource_title":"/etc","events":[{"status":"success","timestamp":null,"property":null,"message":"m"},{"status":"s","message":true}]}]"#,
        "wrong resources[1].events[1].message",
    ),
    (
        Kind::Report,
        r#""resources":[{"resource_type":"File","resource_title":"/etc"},{"resource_type":"File","resource_title":"/etc","events":[{"status":"failure","timestamp":"noon"}]}],"noop":1"#,
        "wrong noop",
    ),
    (Kind::Catalog, r#""edges":null"#, "wrong edges"),
    (Kind::Catalog, r#""resources":true"#, "wrong resources"),
    (Kind::Catalog, r#""version":null"#, "wrong version"),
    (Kind::Catalog, r#""edges":[1]"#, "wrong edges[0]"),
    (
        Kind::Catalog,
        r#""edges":[{"source":{"type":"Class","title":"main"},"target":{"type":"File","title":"x"},"relationship":"contains"},{"source":{"type":"Class","title":"main"},"target":{"type":"File","title":"y"},"relationship":"near"}],"resources":null"#,
        "bad relationship 1",
    ),
    (
        Kind::Catalog,
        r#""edges":[{"source":{"type":"Class","title":"main"},"target":{"type":"File","title":"x"},"relationship":3}]"#,
        "wrong edges[0].relationship",
    ),
    (
        Kind::Catalog,
        r#""edges":[{"source":{"type":"Class"}}]"#,
        "missing edges[0].source.title",
    ),
    (
        Kind::Catalog,
        r#""edges":[{"source":{"type":"Class","title":"m"},"target":{"title":"m"}}]"#,
        "missing edges[0].target.type",
    ),
    (
        Kind::Catalog,
        r#""edges":[{"source":null}]"#,
        "wrong edges[0].source",
    ),
    (
        Kind::Catalog,
        r#""edges":[{"source":{"type":"Class","title":"main"},"target":{"type":"File","title":"x"},"relationship":"contains"}]"#,
        "taken",
    ),
    (
        Kind::Catalog,
        r#""edges":[{"source":{"type":"Class","title":"main"},"target":{"type":"File","title":"x"},"relationship":"before"}]"#,
        "taken",
    ),
    (
        Kind::Catalog,
        r#""edges":[{"source":{"type":"Class","title":"main"},"target":{"type":"File","title":"x"},"relationship":"required-by"}]"#,
        "taken",
    ),
    (
        Kind::Catalog,
        r#""edges":[{"source":{"type":"Class","title":"main"},"target":{"type":"File","title":"x"},"relationship":"notifies"}]"#,
        "taken",
    ),
    (
        Kind::Catalog,
        r#""edges":[{"source":{"type":"Class","title":"main"},"target":{"type":"File","title":"x"},"relationship":"subscription-of"}]"#,
        "taken",
    ),
    (Kind::Catalog, r#""resources":[null]"#, "wrong resources[0]"),
    (
        Kind::Catalog,
        r#""resources":[{"title":"x"}]"#,
        "missing resources[0].type",
    ),
    (
        Kind::Catalog,
        r#""resources":[{"type":"File","title":"x"},{"type":"File","title":1}]"#,
        "wrong resources[1].title",
    ),
    (
        Kind::Catalog,
        r#""resources":[{"type":"File","title":"x"},{"type":"File","title":"y"},{"type":"File","title":"x"}]"#,
        "duplicate resource 2",
    ),
    (
        Kind::Catalog,
        r#""resources":[{"type":"File","title":"x"},{"type":"File","title":"x","line":"1"}]"#,
        "wrong resources[1].line",
    ),
    (
        Kind::Catalog,
        r#""resources":[{"type":"File","title":"x","exported":1}]"#,
        "wrong resources[0].exported",
    ),
    (
        Kind::Catalog,
        r#""resources":[{"type":"File","title":"x","file":1}]"#,
        "wrong resources[0].file",
    ),
    (
        Kind::Catalog,
        r#""resources":[{"type":"File","title":"x","line":-1}]"#,
        "wrong resources[0].line",
    ),
    (
        Kind::Catalog,
        r#""resources":[{"type":"File","title":"x","tags":{}}]"#,
        "wrong resources[0].tags",
    ),
    (
        Kind::Catalog,
        r#""resources":[{"type":"File","title":"x","parameters":[]}]"#,
        "wrong resources[0].parameters",
    ),
    (
        Kind::Catalog,
        r#""resources":[{"type":"File","title":"x","exported":null,"file":null,"line":null,"tags":null,"parameters":null}]"#,
        "taken",
    ),
    (
        Kind::Catalog,
        r#""resources":[{"type":"File","title":"x"},{"type":"File","title":"y","tags":["a",1]}]"#,
        "wrong resources[1].tags[1]",
    ),
    (
        Kind::Catalog,
        r#""resources":[{"type":"File","title":"x","tags":["a",1]}],"job_id":2"#,
        "wrong job_id",
    ),
    (
        Kind::Catalog,
        r#""edges":[{"source":{"type":"Class","title":"main"},"target":{"type":"File","title":"x"},"relationship":"near"}],"producer":true"#,
        "wrong producer",
    ),
];

#[test]
fn a_fault_in_a_list_has_its_indices(rt: HostRuntime) -> Result<(), Wrong> {
    are_answered(rt.alloc(), ELEMENTS)
}
