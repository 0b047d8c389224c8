//! Queries as PuppetDB's documentation of its query API has them, in the AST and in PQL, over a small fleet of the kind that its
//! examples are about. What is told follows from what that documentation says of each form; the columns and the order of rows are
//! this project's own.
use crate::play::play;
use std::alloc::AllocError;

const FLEETS: &str = r#"fleet four nodes, two with a catalog
facts {"certname":"a.example.com","environment":"production","values":{"ipaddress":"192.168.0.1","kernel":"Linux","operatingsystem":"Debian","uptime_hours":900},"producer_timestamp":"2024-05-01T10:00:00Z"}
facts {"certname":"b.example.com","environment":"production","values":{"ipaddress":"192.168.0.2","kernel":"Linux","operatingsystem":"RedHat","uptime_hours":20},"producer_timestamp":"2024-05-01T10:00:00Z"}
facts {"certname":"c.example.com","environment":"testing","values":{"ipaddress":"192.168.0.3","kernel":"Darwin","operatingsystem":"Darwin","uptime_hours":60},"producer_timestamp":"2024-05-01T10:00:00Z"}
facts {"certname":"www03.example.com","environment":"production","values":{},"producer_timestamp":"2024-05-01T10:00:00Z"}
catalog {"certname":"a.example.com","version":"1","environment":"production","producer_timestamp":"2024-05-01T10:00:00Z","resources":[{"type":"Class","title":"Apache"},{"type":"File","title":"/etc/apache2","line":12,"tags":["apache","file"],"parameters":{"ensure":"directory"}},{"type":"User","title":"www","parameters":{"ensure":"present"}}],"edges":[{"source":{"type":"Class","title":"Apache"},"target":{"type":"File","title":"/etc/apache2"},"relationship":"contains"}]}
catalog {"certname":"b.example.com","version":"1","environment":"production","producer_timestamp":"2024-05-01T10:00:00Z","resources":[{"type":"User","title":"www"}],"edges":[]}
report {"certname":"a.example.com","status":"unchanged","producer_timestamp":"2024-05-01T12:00:00Z"}
report {"certname":"a.example.com","status":"changed","producer_timestamp":"2024-05-01T10:00:00Z"}
report {"certname":"a.example.com","status":"unchanged","producer_timestamp":"2024-05-01T11:00:00Z"}
report {"certname":"b.example.com","status":"failed","producer_timestamp":"2024-05-01T10:00:00Z"}
ask ["from","nodes",["extract","certname",["=","certname","a.example.com"]]]
told [{"certname":"a.example.com"}]
ask nodes[certname] { certname = "a.example.com" }
told [{"certname":"a.example.com"}]
ask ["from","facts",["=","name","operatingsystem"]]
told [{"certname":"a.example.com","environment":"production","name":"operatingsystem","value":"Debian"},{"certname":"b.example.com","environment":"production","name":"operatingsystem","value":"RedHat"},{"certname":"c.example.com","environment":"testing","name":"operatingsystem","value":"Darwin"}]
ask facts { name = 'operatingsystem' and value = 'Debian' }
told [{"certname":"a.example.com","environment":"production","name":"operatingsystem","value":"Debian"}]
ask ["from","facts",["and",["=","name","ipaddress"],["in","certname",["extract","certname",["select_resources",["and",["=","type","Class"],["=","title","Apache"]]]]]]]
told [{"certname":"a.example.com","environment":"production","name":"ipaddress","value":"192.168.0.1"}]
ask ["from","facts",["and",["=","name","ipaddress"],["subquery","resources",["and",["=","type","Class"],["=","title","Apache"]]]]]
told [{"certname":"a.example.com","environment":"production","name":"ipaddress","value":"192.168.0.1"}]
ask facts { name = 'ipaddress' and certname in resources[certname] { type = 'Class' and title = 'Apache' } }
told [{"certname":"a.example.com","environment":"production","name":"ipaddress","value":"192.168.0.1"}]
ask facts { name = 'ipaddress' and resources { type = 'Class' and title = 'Apache' } }
told [{"certname":"a.example.com","environment":"production","name":"ipaddress","value":"192.168.0.1"}]
nodes ["extract","certname",["in","certname",["extract","certname",["select_resources",["and",["=","type","Class"],["=","title","Apache"]]]]]]
told [{"certname":"a.example.com"}]
ask ["from","facts",["extract","value",["and",["=","name","ipaddress"],["in","certname",["extract","certname",["select_facts",["and",["=","name","operatingsystem"],["=","value","Debian"]]]]]]]]
told [{"value":"192.168.0.1"}]
ask ["from","facts",["extract","value",["and",["=","name","uptime_hours"],["in","certname",["extract","certname",["select_nodes",["=","facts_environment","production"]]]]]]]
told [{"value":900},{"value":20}]
ask facts[value] { name = 'uptime_hours' and nodes { facts_environment = 'production' } }
told [{"value":900},{"value":20}]
nodes ["extract","certname",["~","certname","www\\d+\\.example\\.com"]]
told [{"certname":"www03.example.com"}]
ask nodes[certname] { certname ~ 'www\d+\.example\.com' }
told [{"certname":"www03.example.com"}]
nodes ["extract",[["function","count"]],["~","certname",".*\\.com"]]
told [{"count":4}]
ask nodes[count()] {}
told [{"count":4}]
ask ["from","reports",["extract",[["function","count"],"status"],["=","certname","a.example.com"],["group_by","status"]]]
told [{"count":1,"status":"changed"},{"count":2,"status":"unchanged"}]
ask reports[status, count()] { certname = 'a.example.com' group by status }
told [{"status":"changed","count":1},{"status":"unchanged","count":2}]
ask ["from","reports",["extract",["certname","producer_timestamp"]],["order_by",["certname",["producer_timestamp","desc"]]],["limit",1],["offset",1]]
told [{"certname":"a.example.com","producer_timestamp":"2024-05-01T11:00:00.000Z"}]
ask reports[certname, status] { order by certname desc, producer_timestamp limit 2 }
told [{"certname":"b.example.com","status":"failed"},{"certname":"a.example.com","status":"changed"}]
ask nodes[certname] { latest_report_status = "unchanged" }
told [{"certname":"a.example.com"}]
ask ["from","resources",["extract",["certname","title"],["null?","line",true]]]
told [{"certname":"a.example.com","title":"Apache"},{"certname":"a.example.com","title":"www"},{"certname":"b.example.com","title":"www"}]
ask ["from","resources",["extract","title",["null?","line",false]]]
told [{"title":"/etc/apache2"}]
ask resources[title] { line is not null }
told [{"title":"/etc/apache2"}]
ask ["from","resources",["extract","title",["=",["parameter","ensure"],"present"]]]
told [{"title":"www"}]
ask ["from","resources",["extract","title",["=","tag","apache"]]]
told [{"title":"/etc/apache2"}]
nodes ["extract","certname",["and",["=",["fact","kernel"],"Linux"],["<",["fact","uptime_hours"],30]]]
told [{"certname":"b.example.com"}]
ask ["from","facts",["extract",["certname","value"],["and",["=","name","uptime_hours"],[">=","value",60]]]]
told [{"certname":"a.example.com","value":900},{"certname":"c.example.com","value":60}]
nodes ["extract","certname",["in","certname",["array",["a.example.com","c.example.com","foo.local"]]]]
told [{"certname":"a.example.com"},{"certname":"c.example.com"}]
ask nodes[certname] { certname in ['a.example.com', 'c.example.com', 'foo.local'] }
told [{"certname":"a.example.com"},{"certname":"c.example.com"}]
nodes ["extract","certname",["and",["=","catalog_environment","production"],["=","facts_environment","production"]]]
told [{"certname":"a.example.com"},{"certname":"b.example.com"}]
nodes ["extract","certname",["or",["=","catalog_environment","production"],["=","facts_environment","testing"]]]
told [{"certname":"a.example.com"},{"certname":"b.example.com"},{"certname":"c.example.com"}]
nodes ["extract","certname",["not",["=","facts_environment","production"]]]
told [{"certname":"c.example.com"}]
ask nodes[certname] { !(facts_environment = 'production') }
told [{"certname":"c.example.com"}]
ask nodes[certname] { facts_environment != 'production' or certname = 'www03.example.com' }
told [{"certname":"c.example.com"},{"certname":"www03.example.com"}]
ask ["from","edges",["=","certname","a.example.com"]]
told [{"certname":"a.example.com","relationship":"contains","source_title":"Apache","source_type":"Class","target_title":"/etc/apache2","target_type":"File"}]
ask catalogs[certname, version] { environment = 'production' }
told [{"certname":"a.example.com","version":"1"},{"certname":"b.example.com","version":"1"}]
ask factsets[certname] { environment = 'testing' }
told [{"certname":"c.example.com"}]
ask ["from","facts",["extract",[["function","sum","value"],["function","min","value"],["function","max","value"]],["=","name","uptime_hours"]]]
told [{"sum":980,"min":20,"max":900}]
ask facts[value, count()] { name = 'kernel' group by value order by value desc }
told [{"value":"Linux","count":2},{"value":"Darwin","count":1}]
ask nodes[certname] { facts { name = "kernel" and value = "Linux" } }
told [{"certname":"a.example.com"},{"certname":"b.example.com"}]
nodes ["extract","certname",["in","certname",["extract","certname",["select_facts",["and",["=","name","kernel"],["=","value","Linux"]]]]]]
told [{"certname":"a.example.com"},{"certname":"b.example.com"}]
ask ["from","reports",["extract",[["function","count"],"status"],["group_by","status"]]]
told [{"count":1,"status":"changed"},{"count":1,"status":"failed"},{"count":2,"status":"unchanged"}]
ask ["from","facts",["extract",[["function","avg","value"]],["=","name","uptime_hours"]]]
told not a query 2.1.0.1
ask ["from","nodes",["~>","certname",["a"]]]
told not a query 2
ask ["from","facts",["=","facts.os.family","Debian"]]
told unknown field 2.1
ask ["from","fact-contents"]
told unknown entity 1
ask ["from","nodes",["=",["node","active"],true]]
told not a query 2.1
deactivate {"certname":"c.example.com","producer_timestamp":"2024-05-02T10:00:00Z"}
ask nodes[certname] {}
told [{"certname":"a.example.com"},{"certname":"b.example.com"},{"certname":"www03.example.com"}]
nodes ["extract","certname",["=","node_state","inactive"]]
told [{"certname":"c.example.com"}]
nodes ["extract",[["function","count"]],["=","node_state","any"]]
told [{"count":4}]
ask nodes[certname] { deactivated is not null and node_state = 'any' }
told [{"certname":"c.example.com"}]"#;

#[test]
fn documented_queries_are_answered(rt: HostRuntime) -> Result<(), AllocError> {
    play(&rt, rt.alloc(), FLEETS)
}
