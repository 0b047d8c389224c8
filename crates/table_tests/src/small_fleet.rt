//! The rows of small fleets, cell by cell. Each hash is what Python's hashlib gives for the canonical text, which was written
//! out by hand. The reports of the first fleet come in the wrong order, and the catalog of the second is of one nanosecond before 1970.
use crate::play::play;
use std::alloc::AllocError;

const FLEETS: &str = r#"fleet two nodes
report 1 { "certname": "web.example", "producer_timestamp": "2024-05-01T10:35:00Z", "status": "failed" }
facts 2 { "certname": "web.example", "environment": "production", "producer": "puppet.example", "producer_timestamp": "2024-05-01T12:00:00+02:00", "values": {"os": {"name": "Debian", "family": "Linux"}, "cpus": 4} }
catalog 3 { "certname": "web.example", "environment": "production", "producer": "puppet.example", "version": "17", "producer_timestamp": "2024-05-01T10:00:01Z", "transaction_uuid": "t-1", "catalog_uuid": "c-1", "resources": [ {"type": "File", "title": "/tmp/b"}, {"type": "File", "title": "/tmp/a", "exported": true, "file": "/etc/a.pp", "line": 7, "tags": ["file", "class", "file"], "parameters": {"mode": "0644", "ensure": "present"}}, {"type": "Class", "title": "main", "exported": false} ], "edges": [ {"source": {"type": "File", "title": "/tmp/a"}, "target": {"type": "File", "title": "/tmp/b"}, "relationship": "before"}, {"source": {"type": "Class", "title": "main"}, "target": {"type": "File", "title": "/tmp/a"}, "relationship": "contains"} ] }
report 4 { "certname": "web.example", "environment": "production", "puppet_version": "7.23.0", "report_format": 12, "configuration_version": "17", "start_time": "2024-05-01T10:04:30Z", "end_time": "2024-05-01T10:04:59.25Z", "producer_timestamp": "2024-05-01T10:05:00Z", "producer": "puppet.example", "noop": false, "status": "changed", "transaction_uuid": "t-1", "resources": [{"resource_type": "File", "resource_title": "/tmp/a", "events": [{"status": "success"}]}], "logs": [{"message": "applied", "level": "notice"}], "metrics": [{"name": "total", "category": "time", "value": 1.5}] }
facts 5 { "certname": "db.example", "environment": null, "producer_timestamp": "2024-05-01T09:30:00.5Z", "values": {"cpus": 8} }
deactivate 6 {"certname": "db.example", "producer_timestamp": "2024-05-01T10:40:00Z"}
rows nodes
| null null "db.example" 2024-05-01T10:40:00.000000000Z null null 2024-05-01T09:30:00.500000000Z null null null null null
| "production" 2024-05-01T10:00:01.000000000Z "web.example" null null "production" 2024-05-01T10:00:00.000000000Z "7f4e803e370ae53df6ccc7291e1c1a9a6e8c56db" null "failed" null 2024-05-01T10:35:00.000000000Z
rows factsets
| "db.example" null {"cpus":8} "cfc664819af96b8df644d558c91580c5cf021e84" null 2024-05-01T09:30:00.500000000Z
| "web.example" "production" {"os":{"name":"Debian","family":"Linux"},"cpus":4} "f17746889cd5dac3e7baaa99bf84568ef9d8fee6" "puppet.example" 2024-05-01T10:00:00.000000000Z
rows facts
| "db.example" null "cpus" 8
| "web.example" "production" "cpus" 4
| "web.example" "production" "os" {"name":"Debian","family":"Linux"}
rows catalogs
| "c-1" "web.example" null "production" "908d3f01adb248612a891343fd14392272ffedc3" null "puppet.example" 2024-05-01T10:00:01.000000000Z "t-1" "17"
rows resources
| "web.example" "production" false null null {} "81b850626316b69e144c624a3e8cdb5a636f9f8d" [] "main" "Class"
| "web.example" "production" true "/etc/a.pp" 7 {"mode":"0644","ensure":"present"} "c0ed26f840b6484fb4a6c248cb04e43b0483c028" ["class","file"] "/tmp/a" "File"
| "web.example" "production" false null null {} "627bae2f398d02cbc41e7c905875869f6354ac94" [] "/tmp/b" "File"
rows edges
| "web.example" "contains" "main" "Class" "/tmp/a" "File"
| "web.example" "before" "/tmp/a" "File" "/tmp/b" "File"
rows reports
| "web.example" "17" 2024-05-01T10:04:59.250000000Z "production" "4a9c0a444f4f167c4f4e172a4ae313877df63e40" [{"message":"applied","level":"notice"}] [{"name":"total","category":"time","value":1.5}] false "puppet.example" 2024-05-01T10:05:00.000000000Z "7.23.0" null 12 [{"resource_type":"File","resource_title":"/tmp/a","events":[{"status":"success"}]}] 2024-05-01T10:04:30.000000000Z "changed" "t-1"
| "web.example" null null null "7f4e803e370ae53df6ccc7291e1c1a9a6e8c56db" [] [] null null 2024-05-01T10:35:00.000000000Z null null null [] null "failed" null
fleet a node of early years
facts 1 { "certname": "a.example", "environment": "production", "producer_timestamp": "2014-09-19T12:10:00.123456789Z", "values": {"kernel": "Linux", "architecture": {"name": "x86", "bits": "64"}} }
catalog 2 { "certname": "a.example", "version": "17", "producer_timestamp": "1969-12-31T23:59:59.999999999Z", "producer": "master", "resources": [ {"type": "File", "title": "/tmp/a", "exported": true, "file": "/etc/a.pp", "line": 7, "tags": ["file", "class"], "parameters": {"mode": "0644", "ensure": "present"}}, {"type": "Class", "title": "main", "exported": false} ], "edges": [ {"source": {"type": "File", "title": "/tmp/a"}, "target": {"type": "File", "title": "/tmp/b"}, "relationship": "required-by"}, {"source": {"type": "Class", "title": "main"}, "target": {"type": "File", "title": "/tmp/a"}, "relationship": "contains"} ] }
report 3 { "certname": "a.example", "environment": "production", "producer_timestamp": "1970-01-01T00:00:01.000000001Z", "report_format": 10, "start_time": "1970-01-01T00:00:00Z", "noop": false, "status": "changed", "logs": [{"b": "B", "a": "A"}], "metrics": [{"m": "M"}] }
rows nodes
| null 1969-12-31T23:59:59.999999999Z "a.example" null null "production" 2014-09-19T12:10:00.123456789Z "2b61153b0273cd92ba0a9e893e8d4f608cad7e89" false "changed" "production" 1970-01-01T00:00:01.000000001Z
rows factsets
| "a.example" "production" {"kernel":"Linux","architecture":{"name":"x86","bits":"64"}} "e29748a27273cdfb9952a591d99ff2438d486892" null 2014-09-19T12:10:00.123456789Z
rows catalogs
| null "a.example" null null "021eed7e9180b855fe7a116b3e979cd643b1d8d2" null "master" 1969-12-31T23:59:59.999999999Z null "17"
rows edges
| "a.example" "contains" "main" "Class" "/tmp/a" "File"
| "a.example" "required-by" "/tmp/a" "File" "/tmp/b" "File"
rows reports
| "a.example" null null "production" "2b61153b0273cd92ba0a9e893e8d4f608cad7e89" [{"b":"B","a":"A"}] [{"m":"M"}] false null 1970-01-01T00:00:01.000000001Z null null 10 [] 1970-01-01T00:00:00.000000000Z "changed" null
end"#;

#[test]
fn each_entity_has_its_rows_in_order(rt: HostRuntime) -> Result<(), AllocError> {
    play(&rt, rt.alloc(), FLEETS)
}
