//! Requests byte for byte as clients send them: `pypuppetdb`, and the terminus of Puppet. Some ask for routes that aren't there; the
//! commands of `pypuppetdb` have a space in the name of their kind, and the checksum of the terminus is that of another text than the
//! body, but for the last command.
use crate::play::play;
use crate::wrong::Wrong;

/// Facts of two nodes, and a catalog of the first.
const FLEET: &str = r#"\
facts {"certname":"web1","environment":"production","values":{"kernel":"Linux","processorcount":8},"producer_timestamp":"2024-05-01T10:00:00Z",\
"producer":"m"}
facts {"certname":"web2","environment":"production","values":{"kernel":"Linux","processorcount":2},"producer_timestamp":"2024-05-01T10:00:00Z",\
"producer":"m"}
catalog {"certname":"web1","version":"1","environment":"production","transaction_uuid":null,"catalog_uuid":null,"code_id":null,"job_id":null,\
"producer_timestamp":"2024-05-01T10:00:00Z","producer":"m","edges":[{"source":{"type":"Class","title":"Ntp"},"target":{"type":"Nagios_host","title":"web1"},\
"relationship":"contains"}],"resources":[{"type":"Class","title":"Ntp","exported":false,"file":null,"line":null,"tags":["class","ntp"],"parameters":{}},\
{"type":"Nagios_host","title":"web1","exported":true,"file":"/etc/nagios.pp","line":7,"tags":["nagios_host","web"],"parameters":{"address":"10.0.0.1"}}]}"#;

/// What `pypuppetdb` sends behind the request line of a GET.
const PYTHON: &str = r#"\
fields Host: 127.0.0.1:18081\r\nAccept-Encoding: identity\r\ncontent-type: application/json\r\naccept: application/json\r\naccept-charset: \
utf-8\r\nAuthorization: Basic Tm9uZTpOb25l\r\nUser-Agent: python-urllib3/1.26.12\r\n\r\n"#;

const OF_PYTHON: &str = r#"get /pdb/meta/v1/version
answer 404 Not Found||{"error":"no such path"}

get /pdb/meta/v1/server-time
answer 404 Not Found||{"error":"no such path"}

get /pdb/query/v4/nodes
ok [{"catalog_environment":"production","catalog_timestamp":"2024-05-01T10:00:00.000Z","certname":"web1","deactivated":null,"expired":null,\
"facts_environment":"production","facts_timestamp":"2024-05-01T10:00:00.000Z","latest_report_hash":null,"latest_report_noop":null,\
"latest_report_status":null,"report_environment":null,"report_timestamp":null},{"catalog_environment":null,"catalog_timestamp":null,"certname":"web2",\
"deactivated":null,"expired":null,"facts_environment":"production","facts_timestamp":"2024-05-01T10:00:00.000Z","latest_report_hash":null,\
"latest_report_noop":null,"latest_report_status":null,"report_environment":null,"report_timestamp":null}]

get /pdb/query/v4/event-counts?query=%5B%22%3D%22%2C+%22latest_report%3F%22%2C+true%5D&summarize_by=certname
answer 404 Not Found||{"error":"no such path"}

get /pdb/query/v4/nodes?query=%5B%22%3D%22%2C+%22facts_environment%22%2C+%22production%22%5D&order_by=%5B%7B%22field%22%3A%22certname%22%2C%22order%22%3A%22\
desc%22%7D%5D&limit=3&include_total=true&offset=1
answer 200 OK|X-Records: 2|[{"catalog_environment":"production","catalog_timestamp":"2024-05-01T10:00:00.000Z","certname":"web1","deactivated":null,\
"expired":null,"facts_environment":"production","facts_timestamp":"2024-05-01T10:00:00.000Z","latest_report_hash":null,"latest_report_noop":null,\
"latest_report_status":null,"report_environment":null,"report_timestamp":null}]

get /pdb/query/v4/nodes/web1
answer 404 Not Found||{"error":"no such path"}

get /pdb/query/v4/facts?query=%5B%22%3D%22%2C+%22certname%22%2C+%22web1%22%5D
ok [{"certname":"web1","environment":"production","name":"kernel","value":"Linux"},{"certname":"web1","environment":"production","name":"processorcount",\
"value":8}]

get /pdb/query/v4/facts/kernel?query=%5B%22%3D%22%2C+%22certname%22%2C+%22web1%22%5D
answer 404 Not Found||{"error":"no such path"}

get /pdb/query/v4/resources/Class?query=%5B%22%3D%22%2C+%22certname%22%2C+%22web1%22%5D
answer 404 Not Found||{"error":"no such path"}

get /pdb/query/v4/resources/Class/Ntp?query=%5B%22%3D%22%2C+%22certname%22%2C+%22web1%22%5D
answer 404 Not Found||{"error":"no such path"}

get /pdb/query/v4/reports?query=%5B%22%3D%22%2C+%22certname%22%2C+%22web1%22%5D
ok []

get /pdb/query/v4/facts/kernel
answer 404 Not Found||{"error":"no such path"}

get /pdb/query/v4/facts/kernel/Linux
answer 404 Not Found||{"error":"no such path"}

get /pdb/query/v4/facts?query=%5B%22and%22%2C+%5B%22%3D%22%2C+%22name%22%2C+%22processorcount%22%5D%2C+%5B%22%3E%22%2C+%22value%22%2C+4%5D%5D
ok [{"certname":"web1","environment":"production","name":"processorcount","value":8}]

get /pdb/query/v4/nodes?query=%5B%22in%22%2C+%22certname%22%2C+%5B%22extract%22%2C+%5B%22certname%22%5D%2C+%5B%22select_resources%22%2C+%5B%22and%22%2C+%5B%\
22%3D%22%2C+%22type%22%2C+%22Class%22%5D%2C+%5B%22%3D%22%2C+%22title%22%2C+%22Ntp%22%5D%5D%5D%5D%5D
ok [{"catalog_environment":"production","catalog_timestamp":"2024-05-01T10:00:00.000Z","certname":"web1","deactivated":null,"expired":null,\
"facts_environment":"production","facts_timestamp":"2024-05-01T10:00:00.000Z","latest_report_hash":null,"latest_report_noop":null,\
"latest_report_status":null,"report_environment":null,"report_timestamp":null}]

get /pdb/query/v4/facts?query=%5B%22extract%22%2C+%5B%5B%22function%22%2C+%22count%22%5D%2C+%22name%22%5D%2C+%5B%22%3D%22%2C+%22name%22%2C+%22kernel%22%5D%2\
C+%5B%22group_by%22%2C+%22name%22%5D%5D
ok [{"count":2,"name":"kernel"}]

get /pdb/query/v4/resources/Class/Ntp
answer 404 Not Found||{"error":"no such path"}

get /pdb/query/v4/resources/File?query=%5B%22%3D%22%2C%22certname%22%2C%22web1%22%5D
answer 404 Not Found||{"error":"no such path"}

get /pdb/query/v4/catalogs/web1
answer 404 Not Found||{"error":"no such path"}

get /pdb/query/v4/catalogs?limit=1
ok [{"catalog_uuid":null,"certname":"web1","code_id":null,"environment":"production","hash":"c05853f68d643c123e48c37ad310902d6f002c1a","job_id":null,\
"producer":"m","producer_timestamp":"2024-05-01T10:00:00.000Z","transaction_uuid":null,"version":"1"}]

get /pdb/query/v4/edges?limit=2
ok [{"certname":"web1","relationship":"contains","source_title":"Ntp","source_type":"Class","target_title":"web1","target_type":"Nagios_host"}]

get /pdb/query/v4/reports?limit=2
ok []

get /pdb/query/v4/reports?query=%5B%22and%22%2C%5B%22%3D%22%2C%22certname%22%2C%22web1%22%5D%2C%5B%22%3D%22%2C%22latest_report%3F%22%2Ctrue%5D%5D
bad {"error":"unknown field 2.1"}

get /pdb/query/v4/events?query=%5B%22%3D%22%2C%22certname%22%2C%22web1%22%5D
answer 404 Not Found||{"error":"no such path"}

get /pdb/query/v4/event-counts?query=%5B%22%3D%22%2C%22latest_report%3F%22%2Ctrue%5D&summarize_by=certname
answer 404 Not Found||{"error":"no such path"}

get /pdb/query/v4/aggregate-event-counts?query=%5B%22%3D%22%2C%22latest_report%3F%22%2Ctrue%5D&summarize_by=certname
answer 404 Not Found||{"error":"no such path"}

get /pdb/query/v4/fact-names
answer 404 Not Found||{"error":"no such path"}

get /pdb/query/v4/fact-paths?limit=2
answer 404 Not Found||{"error":"no such path"}

get /pdb/query/v4/fact-contents?limit=2
answer 404 Not Found||{"error":"no such path"}

get /pdb/query/v4/factsets?limit=1
ok [{"certname":"web1","environment":"production","facts":{"kernel":"Linux","processorcount":8},"hash":"00833d94c884852ba007ea90263d5de0f120b6d4",\
"producer":"m","producer_timestamp":"2024-05-01T10:00:00.000Z"}]

get /pdb/query/v4/environments
answer 404 Not Found||{"error":"no such path"}

get /pdb/query/v4/inventory?limit=1
answer 404 Not Found||{"error":"no such path"}

get /status/v1/services/puppetdb-status
answer 404 Not Found||{"error":"no such path"}

get /metrics/v2/read/puppetlabs.puppetdb.population%3Aname%3Dnum-nodes
answer 404 Not Found||{"error":"no such path"}"#;

#[test]
fn requests_of_pypuppetdb_are_answered(rt: HostRuntime) -> Result<(), Wrong> {
    play(rt.alloc(), FLEET, PYTHON, OF_PYTHON)
}

/// What the terminus sends behind it.
const TERMINUS: &str = r#"\
fields Accept: application/json\r\nContent-Type: application/x-www-form-urlencoded; charset=UTF-8\r\nUser-Agent: Puppet/7.23.0 Ruby/3.1.2-p20 \
(x86_64-linux-gnu)\r\nHost: puppetdb.example.com:8081\r\n\r\n"#;

const OF_TERMINUS: &str = r#"\
get /pdb/query/v4/resources?query=%5B%22and%22%2C%5B%22%3D%22%2C%22type%22%2C%22Nagios_host%22%5D%2C%5B%22%3D%22%2C%22exported%22%2Ctrue%5D%2C%5B%22not%22%2\
C%5B%22%3D%22%2C%22certname%22%2C%22web1.example.com%22%5D%5D%2C%5B%22%3D%22%2C%22tag%22%2C%22web%22%5D%5D
ok [{"certname":"web1","environment":"production","exported":true,"file":"/etc/nagios.pp","line":7,"parameters":{"address":"10.0.0.1"},\
"resource":"fa02a48ad838037dacfe6b0278cf3f31b9a9b1a8","tags":["nagios_host","web"],"title":"web1","type":"Nagios_host"}]

get /pdb/query/v4/nodes/web1.example.com/facts
answer 404 Not Found||{"error":"no such path"}

get /pdb/query/v4/nodes?query=%5B%22and%22%2C%5B%22%3D%22%2C%5B%22fact%22%2C%22kernel%22%5D%2C%22Linux%22%5D%5D
ok [{"catalog_environment":"production","catalog_timestamp":"2024-05-01T10:00:00.000Z","certname":"web1","deactivated":null,"expired":null,\
"facts_environment":"production","facts_timestamp":"2024-05-01T10:00:00.000Z","latest_report_hash":null,"latest_report_noop":null,\
"latest_report_status":null,"report_environment":null,"report_timestamp":null},{"catalog_environment":null,"catalog_timestamp":null,"certname":"web2",\
"deactivated":null,"expired":null,"facts_environment":"production","facts_timestamp":"2024-05-01T10:00:00.000Z","latest_report_hash":null,\
"latest_report_noop":null,"latest_report_status":null,"report_environment":null,"report_timestamp":null}]"#;

#[test]
fn requests_of_the_terminus_are_answered(rt: HostRuntime) -> Result<(), Wrong> {
    play(rt.alloc(), FLEET, TERMINUS, OF_TERMINUS)
}

const POSTED: &str =
    r#"send POST /pdb/query/v4 HTTP/1.1\r\nHost: 127.0.0.1:18081\r\nAccept-Encoding: identity\r\ncontent-type: application/json\r\naccept: \
application/json\r\naccept-charset: utf-8\r\nContent-Length: 39\r\nAuthorization: Basic Tm9uZTpOb25l\r\nUser-Agent: python-urllib3/1.26.12\r\n\r\n{"query": \
"nodes[certname]{ limit 3 }"}
ok [{"certname":"web1"},{"certname":"web2"}]

send POST /pdb/cmd/v1?command=replace+facts&version=5&certname=py&checksum=51196cbc6451e0ab40a6476b42964cf4376ed4c4 HTTP/1.1\r\nHost: \
127.0.0.1:18081\r\nAccept-Encoding: identity\r\ncontent-type: application/json\r\naccept: application/json\r\naccept-charset: utf-8\r\nContent-Length: \
134\r\nAuthorization: Basic Tm9uZTpOb25l\r\nUser-Agent: python-urllib3/1.26.12\r\n\r\n{"certname": "py", "environment": "production", "values": {"k": 1}, \
"producer_timestamp": "2026-11-02T00:00:00.000Z", "producer": "m"}
bad {"error":"bad command"}

send POST /pdb/cmd/v1?command=deactivate+node&version=3&certname=py&checksum=61781d31cf54fdf4eba4a889750a8f2f2ba84bb2 HTTP/1.1\r\nHost: \
127.0.0.1:18081\r\nAccept-Encoding: identity\r\ncontent-type: application/json\r\naccept: application/json\r\naccept-charset: utf-8\r\nContent-Length: \
68\r\nAuthorization: Basic Tm9uZTpOb25l\r\nUser-Agent: python-urllib3/1.26.12\r\n\r\n{"certname": "py", "producer_timestamp": "2026-11-02T00:00:00.000Z"}
bad {"error":"bad command"}

send POST /pdb/cmd/v1?checksum=34e85afa3596a78082adcca6883e69510896b484&version=5&certname=web1.example.com&command=replace_facts&producer-timestamp=2026-11\
-02T08:00:00.123Z HTTP/1.1\r\nAccept: application/json\r\nContent-Type: application/json; charset=utf-8\r\nX-Uncompressed-Length: 213\r\nX-Puppet-Version: \
7.23.0\r\nUser-Agent: Puppet/7.23.0 Ruby/3.1.2-p20 (x86_64-linux-gnu)\r\nAccept-Encoding: gzip;q=1.0,deflate;q=0.6,identity;q=0.3\r\nHost: \
puppetdb.example.com:8081\r\nContent-Length: 213\r\n\r\n{"certname":"web1.example.com","values":{"kernel":"Linux",\
"trusted":{"certname":"web1.example.com"}},"environment":"production","producer_timestamp":"2026-11-02T10:00:00.123+02:00","producer":"puppet.example.com"}
bad {"error":"bad checksum"}

send POST /pdb/cmd/v1?checksum=b5040d71a71f571ee023811d12f791a6ccc3de70&version=3&certname=web1.example.com&command=deactivate_node&producer-timestamp=2026-\
11-02T08:00:00.123Z HTTP/1.1\r\nAccept: application/json\r\nContent-Type: application/json; charset=utf-8\r\nX-Uncompressed-Length: 84\r\nX-Puppet-Version: \
7.23.0\r\nUser-Agent: Puppet/7.23.0 Ruby/3.1.2-p20 (x86_64-linux-gnu)\r\nAccept-Encoding: gzip;q=1.0,deflate;q=0.6,identity;q=0.3\r\nHost: \
puppetdb.example.com:8081\r\nContent-Length: 84\r\n\r\n{"certname":"web1.example.com","producer_timestamp":"2026-11-02T10:00:00.123+02:00"}
bad {"error":"bad checksum"}

send POST /pdb/query/v4 HTTP/1.1\r\nAccept: application/json\r\nContent-Type: application/json; charset=UTF-8\r\nUser-Agent: Puppet/7.23.0 Ruby/3.1.2-p20 \
(x86_64-linux-gnu)\r\nHost: puppetdb.example.com:8081\r\nContent-Length: 60\r\n\r\n{"query": "inventory[certname]{ facts.kernel = \x5c"Linux\x5c" }"}
bad {"error":"pql bad at 26"}

send POST /pdb/cmd/v1?checksum=f5db21d42c49da95432ecbb47ac56608e64278d7&version=5&certname=web1.example.com&command=replace_facts&producer-timestamp=2026-11\
-02T08:00:00.123Z HTTP/1.1\r\nAccept: application/json\r\nContent-Type: application/json; charset=utf-8\r\nX-Uncompressed-Length: 213\r\nX-Puppet-Version: \
7.23.0\r\nUser-Agent: Puppet/7.23.0 Ruby/3.1.2-p20 (x86_64-linux-gnu)\r\nAccept-Encoding: gzip;q=1.0,deflate;q=0.6,identity;q=0.3\r\nHost: \
puppetdb.example.com:8081\r\nContent-Length: 213\r\n\r\n{"certname":"web1.example.com","values":{"kernel":"Linux",\
"trusted":{"certname":"web1.example.com"}},"environment":"production","producer_timestamp":"2026-11-02T10:00:00.123+02:00","producer":"puppet.example.com"}
ok {"uuid":"00000000-0000-8000-8000-000000000001"}
takes facts 5 213 {"certname":"web1.ex"#;

#[test]
fn posts_of_clients_are_answered(rt: HostRuntime) -> Result<(), Wrong> {
    play(rt.alloc(), FLEET, "", POSTED)
}
