//! What query routes are asked.
use crate::play::play;
use crate::wrong::Wrong;

/// Facts of three nodes, of which the last has none.
const FLEET: &str = r#"\
facts {"certname":"n","environment":"production","values":{"k":"web1","l":"web2"},"producer_timestamp":"2024-05-01T10:00:00Z","producer":"m"}
facts {"certname":"o","environment":"test","values":{"k":"db1"},"producer_timestamp":"2024-05-01T11:00:00Z","producer":"m"}
facts {"certname":"p","environment":"test","values":{},"producer_timestamp":"2024-05-01T12:00:00Z","producer":"m"}"#;

const BY_URL: &str = r#"ask GET /pdb/query/v4/nodes?query=%5B%22extract%22,%22certname%22%5D
ok [{"certname":"n"},{"certname":"o"},{"certname":"p"}]

ask GET /pdb/query/v4/nodes?query=["in","certname",["extract","certname",["select_facts",["~","value","^web"]]]]
ok [{"catalog_environment":null,"catalog_timestamp":null,"certname":"n","deactivated":null,"expired":null,"facts_environment":"production",\
"facts_timestamp":"2024-05-01T10:00:00.000Z","latest_report_hash":null,"latest_report_noop":null,"latest_report_status":null,"report_environment":null,\
"report_timestamp":null}]

ask GET /pdb/query/v4/nodes?query=["in","certname",["extract","certname",["select_facts",["~","value","("]]]]
bad {"error":"bad pattern 2.2.1.2"}

ask GET /pdb/query/v4?query=nodes%7B%7D&limit=0&include_total=true
answer 200 OK|X-Records: 3|[]

ask GET /pdb/query/v4?query=facts[name]+%7B+certname+=+"n"+%7D&limit=1
ok [{"name":"k"}]

ask GET /pdb/query/v4?query=["from","facts",["extract","name"]]&limit=2&offset=1&include_total=true
answer 200 OK|X-Records: 3|[{"name":"l"},{"name":"k"}]

ask GET /pdb/query/v4?query=["from","facts",["extract","value"]]&order_by=[{"field":"value"}]
ok [{"value":"db1"},{"value":"web1"},{"value":"web2"}]

ask GET /pdb/query/v4?query=["from","facts",["extract","value"]]&order_by=[{"order":"desc","field":"value"}]&include_total=false
ok [{"value":"web2"},{"value":"web1"},{"value":"db1"}]

ask GET /pdb/query/v4?query=["from","facts",["extract","value"]]&order_by=[]
ok [{"value":"web1"},{"value":"web2"},{"value":"db1"}]

ask GET /pdb/query/v4?query=["from","facts",["extract","name"]]&limit=9&limit=001&other=x
ok [{"name":"k"}]

ask GET /pdb/query/v4?query=["from","facts",["extract","name"]]&limit=1&limit=x
bad {"error":"bad paging limit"}

ask GET /pdb/query/v4?query=["from","facts"]&limit=
bad {"error":"bad paging limit"}

ask GET /pdb/query/v4?query=["from","facts"]&limit=%2B1
bad {"error":"bad paging limit"}

ask GET /pdb/query/v4?query=["from","facts"]&limit=9223372036854775808
bad {"error":"bad paging limit"}

ask GET /pdb/query/v4?query=["from","facts",["extract","name"]]&offset=9223372036854775807
ok []

ask GET /pdb/query/v4?query=["from","facts",["extract","name"]]&offset=99999999999999999999999999999999999999999999
bad {"error":"bad paging offset"}

ask GET /pdb/query/v4?query=["from","facts"]&include_total=yes&order_by=1&offset=-1
bad {"error":"bad paging offset"}

ask GET /pdb/query/v4?query=["from","facts"]&include_total=yes&order_by=1
bad {"error":"bad paging order_by"}

ask GET /pdb/query/v4?query=["from","facts"]&include_total=yes
bad {"error":"bad paging include_total"}

ask GET /pdb/query/v4?query=["from","facts"]&order_by=[{"field":"nme"}]
bad {"error":"bad paging order_by"}

ask GET /pdb/query/v4?query=["from","facts",["extract","name"]]&order_by=[{"field":"value"}]
bad {"error":"bad paging order_by"}

ask GET /pdb/query/v4?query=["from","facts"]&order_by=[{"field":"value","order":"up"}]
bad {"error":"bad paging order_by"}

ask GET /pdb/query/v4?query=["from","facts"]&order_by=[{"field":"value","by":"x"}]
bad {"error":"bad paging order_by"}

ask GET /pdb/query/v4?query=["from","facts"]&order_by=[{"order":"asc"}]
bad {"error":"bad paging order_by"}

ask GET /pdb/query/v4?query=["from","facts"]&order_by=[{"field":"value"}
bad {"error":"bad paging order_by"}

ask GET /pdb/query/v4?query=["from","facts",["extract",[["function","count"]]]]&order_by=[{"field":"count"}]
ok [{"count":3}]

ask GET /pdb/query/v4
bad {"error":"missing query"}

ask GET /pdb/query/v4?limit=x
bad {"error":"missing query"}

ask GET /pdb/query/v4?query=
bad {"error":"pql bad at 0"}

ask GET /pdb/query/v4?query=nodes%7B
bad {"error":"pql bad at 6"}

ask GET /pdb/query/v4?query=nodes%7Bnme=1%7D&limit=x
bad {"error":"unknown field 2"}

ask GET /pdb/query/v4/nodes?query=["from","nodes"]
bad {"error":"not a query"}

ask GET /pdb/query/v4/nodes?query=["=","nme",1]&limit=x
bad {"error":"unknown field 1"}

ask GET /pdb/query/v4/nodes?query=nodes%7B%7D
bad {"error":"not json at 1"}

ask GET /pdb/query/v4/edges
ok []

ask GET /pdb/query/v4/facts?limit=1
ok [{"certname":"n","environment":"production","name":"k","value":"web1"}]

ask GET /pdb/query/v4/nodes/n
answer 404 Not Found||{"error":"no such path"}

ask GET /
answer 404 Not Found||{"error":"no such path"}

ask GET /pdb/cmd/v1
answer 405 Method Not Allowed||{"error":"bad method"}

ask GET /pdb/query/v4?query=["from","facts",["extract","name"],["limit",2]]&limit=1&include_total=true
answer 200 OK|X-Records: 2|[{"name":"k"}]

ask GET /pdb/query/v4/facts?query=["and",["~","value","("],["=","nme",1]]&limit=x
bad {"error":"unknown field 2.1"}

ask GET /pdb/query/v4/facts?query=["~","value","("]&limit=x
bad {"error":"bad pattern 2"}

ask GET /pdb/query/v4/facts?query=["and",["~","value","["],["~","name","("]]
bad {"error":"bad pattern 1.2"}

ask GET /pdb/query/v4?limit=1&query=["from","facts",["extract","name"]]&query=["from","nodes",["extract","certname"]]
ok [{"certname":"n"}]

ask GET /pdb/query/v4/nodes?que%72y=["extract",+"certname"]&lim%69t=%31
ok [{"certname":"n"}]

ask GET /pdb/query/v4/factsets?query=["extract","certname"]&offset=2
ok [{"certname":"p"}]"#;

#[test]
fn urls_ask(rt: HostRuntime) -> Result<(), Wrong> {
    play(rt.alloc(), FLEET, "", BY_URL)
}

const BY_BODY: &str = r#"\
ask POST /pdb/query/v4 {"query":["from","facts",["extract","name"]],"limit":2,"order_by":[{"field":"name","order":"desc"}],"include_total":true}
answer 200 OK|X-Records: 3|[{"name":"l"},{"name":"k"}]

ask POST /pdb/query/v4 {"query":"facts[name]{} ","offset":1}
ok [{"name":"l"},{"name":"k"}]

ask POST /pdb/query/v4?query=x&limit=x {"query":"facts[name]{}","limit":1,"limit":2,"more":null}
ok [{"name":"k"},{"name":"l"}]

ask POST /pdb/query/v4/facts {"query":["extract","name",["=","certname","o"]]}
ok [{"name":"k"}]

ask POST /pdb/query/v4/edges {}
ok []

ask POST /pdb/query/v4 {}
bad {"error":"missing query"}

ask POST /pdb/query/v4/edges
bad {"error":"bad body"}

ask POST /pdb/query/v4/edges []
bad {"error":"bad body"}

ask POST /pdb/query/v4/edges {"query":1}
bad {"error":"bad body"}

ask POST /pdb/query/v4/edges {"query":null}
bad {"error":"bad body"}

ask POST /pdb/query/v4/edges {"limit":"1"}
bad {"error":"bad paging limit"}

ask POST /pdb/query/v4/edges {"limit":1.0}
bad {"error":"bad paging limit"}

ask POST /pdb/query/v4/edges {"include_total":"true"}
bad {"error":"bad paging include_total"}

ask POST /pdb/query/v4/edges {"order_by":"[]"}
bad {"error":"bad paging order_by"}

ask POST /pdb/query/v4 []
bad {"error":"bad body"}

ask POST /pdb/query/v4 {"query":true,"limit":"x"}
bad {"error":"bad body"}

ask POST /pdb/query/v4 {"limit":"x"}
bad {"error":"missing query"}

ask POST /pdb/query/v4 {"query":"facts{}"} ]
bad {"error":"bad body"}

ask POST /pdb/query/v4 {"query": [ "from", "facts", ["extract", "nme"] ], "limit": -1}
bad {"error":"unknown field 2.1"}

ask POST /pdb/query/v4/facts {"query":"facts{}"}
bad {"error":"not json at 2"}

ask POST /pdb/query/v4/facts?query=["=","nme",1] {"query":["extract","name"],"offset":2,"include_total":false}
ok [{"name":"k"}]

ask POST /pdb/query/v4/facts {"limit":1,"offset":-1,"order_by":1,"include_total":1}
bad {"error":"bad paging offset"}

ask POST /pdb/query/v4/facts {"include_total":1,"order_by":[{"field":"value","order":"DESC"}]}
bad {"error":"bad paging order_by"}

ask POST /pdb/query/v4/facts {"limit":10e0}
bad {"error":"bad paging limit"}

ask POST /pdb/query/v4/facts {"limit":9223372036854775808}
bad {"error":"bad paging limit"}"#;

#[test]
fn bodies_ask(rt: HostRuntime) -> Result<(), Wrong> {
    play(rt.alloc(), FLEET, "", BY_BODY)
}

/// Eighteen numbers of nineteen digits, of which seventeen have a sum.
const LARGE: &str = r#"\
facts {"certname":"n","values":{"a":9999999999999999999,"b":9999999999999999999,"c":9999999999999999999,"d":9999999999999999999,"e":9999999999999999999,\
"f":9999999999999999999,"g":9999999999999999999,"h":9999999999999999999,"i":9999999999999999999,"j":9999999999999999999,"k":9999999999999999999,\
"l":9999999999999999999,"m":9999999999999999999,"n":9999999999999999999,"o":9999999999999999999,"p":9999999999999999999,"q":9999999999999999999,\
"r":9999999999999999999},"producer_timestamp":"2024-05-01T10:00:00Z"}"#;

const SUMS: &str =
    r#"ask GET /pdb/query/v4?query=["from","facts",["extract",[["function","sum","value"]]]]&limit=x
bad {"error":"sum too large 2.1.0.2"}

ask GET /pdb/query/v4?query=facts[sum(value)]%7Bname!=%22r%22%7D&limit=x
bad {"error":"bad paging limit"}

ask GET /pdb/query/v4?query=facts[sum(value)]%7Bname!=%22r%22%7D&limit=1
ok [{"sum":169999999999999999983}]"#;

#[test]
fn a_sum_too_large_is_told_before_paging(rt: HostRuntime) -> Result<(), Wrong> {
    play(rt.alloc(), LARGE, "", SUMS)
}
