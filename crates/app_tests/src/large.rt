//! Large spools: whatever the number of workers, the same summary and the same rows of all entities.
use crate::rounds::play;
use std::alloc::AllocError;

const MADE: &str = r#"files four made commands
do make 1 4
piped
do run 1 2024-06-01T00:00:00Z
printed received 4
printed applied 4
printed superseded 0
printed discarded 0
end 0

each <call>=1,8,64
files twenty thousand made commands
do make 1 20000
piped
do run <call> 2024-06-01T00:00:00Z
printed received 20000
printed applied 5225
printed superseded 14775
printed discarded 0
end 0
ask nodes{node_state = "any"}
log
ask factsets{node_state = "any"}
log
ask facts{node_state = "any"}
log
ask catalogs{node_state = "any"}
log
ask resources{node_state = "any"}
log
ask edges{node_state = "any"}
log
ask reports{node_state = "any"}
log
outcome any one
"#;

// Facts in objects, with fractions; a catalog of three hundred resources; and a report of a run of an agent.
const FLEET: &str = r#"files fifty nodes
middle 300 ,{"type":"File","title":"/etc/site/@","exported":false,"file":"/etc/puppet/code/site.pp","line":@,"tags":["file","site","class"],\
"parameters":{"ensure":"file","mode":"0644","content":"setting = @\n","backup":false,"weight":@.25}}
nodes 50 raw {"certname":"node@.example.com","environment":"production","producer_timestamp":"2024-05-01T10:00:00Z","producer":"puppet.example.com",\
"values":{"kernel":"Linux","os":{"name":"Debian","family":"Debian","release":{"full":"12.5","major":"12","minor":"5"}},"load_averages":{"1m":0.25,\
"5m":1.0e-05,"15m":@.5},"memory":{"system":{"total_bytes":16777216000,"capacity":"12.@%"}},"mountpoints":{"/":{"options":["rw","noatime"],\
"size_bytes":1.0e+20}},"networking":{"hostname":"node@","ip":"192.0.2.@","interfaces":{"eth0":{"mtu":1500,"bindings":[{"address":"192.0.2.@",\
"netmask":"255.255.255.0"}]}}},"is_virtual":true,"uptime_days":@}}
nodes 50 raw-catalog {"certname":"node@.example.com","version":"1714557600","environment":"production","transaction_uuid":"938dbfe9-83ce-4996-8df4-fe55be9e94ef",\
"catalog_uuid":"be8a37d8-b069-45d8-b1b2-e48c77609885","code_id":null,"job_id":null,"producer_timestamp":"2024-05-01T10:00:01Z",\
"producer":"puppet.example.com","resources":[{"type":"Class","title":"Site","exported":false,"file":null,"line":null,"tags":["class","site"],\
"parameters":{}}$],"edges":[{"source":{"type":"Class","title":"Site"},"target":{"type":"File","title":"/etc/site/0"},"relationship":"contains"},\
{"source":{"type":"File","title":"/etc/site/0"},"target":{"type":"File","title":"/etc/site/1"},"relationship":"before"}]}
nodes 50 raw-report {"certname":"node@.example.com","environment":"production","puppet_version":"7.23.0","report_format":12,\
"configuration_version":"production-3f9c2b7d","start_time":"2024-05-01T10:00:02.810-03:30","end_time":"2024-05-01T10:00:05.340-03:30",\
"producer_timestamp":"2024-05-01T13:30:06.372Z","producer":"puppet.example.com","noop":false,"status":"changed",\
"transaction_uuid":"938dbfe9-83ce-4996-8df4-fe55be9e94ef","resources":[{"skipped":false,"timestamp":"2024-05-01T10:00:03.311-03:30","resource_type":"File",\
"resource_title":"/etc/site/0","file":"/etc/puppet/code/site.pp","line":2,"containment_path":["Stage[main]","Site","File[/etc/site/0]"],\
"events":[{"status":"success","timestamp":"2024-05-01T10:00:03.312-03:30","name":"mode_changed","property":"mode","new_value":"0644","old_value":"0600",\
"message":"mode changed '0600' to '0644'"}]}],"logs":[{"file":"/etc/puppet/code/site.pp","line":2,"level":"notice","message":"mode changed '0600' to '0644'",\
"source":"/Stage[main]/Site/File[/etc/site/0]/mode","tags":["notice","file"],"time":"2024-05-01T10:00:03.313-03:30"}],"metrics":[{"category":"resources",\
"name":"changed","value":1},{"category":"time","name":"total","value":2.@}]}
do run <call> 2024-06-01T00:00:00Z
printed received 150
printed applied 150
printed superseded 0
printed discarded 0
end 0
ask nodes{node_state = "any"}
log
ask factsets{node_state = "any"}
log
ask facts{node_state = "any"}
log
ask catalogs{node_state = "any"}
log
ask resources{node_state = "any"}
log
ask edges{node_state = "any"}
log
ask reports{node_state = "any"}
log
outcome any one
"#;

#[test]
fn made_commands_come_to_the_same(rt: HostRuntime) -> Result<(), AllocError> {
    play(&rt, rt.alloc(), "", MADE)
}

#[test]
fn fifty_nodes_have_the_same_rows(rt: HostRuntime) -> Result<(), AllocError> {
    play(&rt, rt.alloc(), "each <call>=1,8", FLEET)
}
