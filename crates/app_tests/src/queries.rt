//! Queries: their rows, why they have none, and faults of writing.
use crate::rounds::play;
use std::alloc::AllocError;

/// A queue whose last receipt is 2, with nothing that waits, and a store with one fact `k` of each of the nodes `a` and `b`.
pub(crate) const TWO_NODES: &str =
    r#"put 0 \x01PDBLOG1\x01\0\0\0\0\0\0\0\x01\x09\0\0\0\0\x02\0\0\0\0\0\0\0\0
put 2 \x01PDBLOG1\x01\0\0\0\0\0\0\0\x01\x0d\0\0\0\0\x07\0\0\0\x0e\0\0\0\x0e\0\0\0\x01\x04\0\0\0\x01\0\0\0
put 2 \x01S\0\0\0\x05\x01\0\0\0\0\0\0\0\x01\0\0\x0bA\xe4\x82\xcb\x17\0\0\0\0\0\0\0\0\0\x01\0\0\0a\x01\x0a\0\0\0production
put 2 \x0a\0\0\0{"k":0.10}\0@\xf2\x96\x0dU\xcb\x17\0\0\0\0\0\0\0\0\x01\x01\0\0\0m
put 2 \x01S\0\0\0\x05\x02\0\0\0\0\0\0\0\x01\0\0\x0bA\xe4\x82\xcb\x17\0\0\0\0\0\0\0\0\0\x01\0\0\0b\x01\x0a\0\0\0production
put 2 \x0a\0\0\0{"k":1e-1}\0@\xf2\x96\x0dU\xcb\x17\0\0\0\0\0\0\0\0\x01\x01\0\0\0m\0
"#;

const ASKED: &str = r#"case queries and refusals
ask ["from","facts",["extract",["value"]]]
told [{"value":0.10},{"value":1e-1}]
ask \x20\t\r\n["from","edges"]\n
told []
ask ["from","facts",["extract",["certname"],["=","value",0.1]]]
told [{"certname":"a"},{"certname":"b"}]
ask ["from","facts",["extract",[["function","sum","value"],"name"],["group_by","name"]]]
told [{"sum":0.2,"name":"k"}]
ask ["from","facts",["extract",["certname"],["~","certname","^b$"]]]
told [{"certname":"b"}]
ask ["from","facts",["~","value","("]]
end 10 query refused: bad pattern 2.2
ask [
end 10 query refused: not json at 1
ask []
end 10 query refused: not a query
ask ["from","nods"]
end 10 query refused: unknown entity 1
ask ["from","nodes",["=","nme",1]]
end 10 query refused: unknown field 2.1
ask ["from","facts",["extract",["name",["function","count"]]]]
end 10 query refused: bad operand 2.1.0
ask facts[value]{}
told [{"value":0.10},{"value":1e-1}]
ask \x20facts[certname]{ value = 0.1 and certname ~ '^b$' }
told [{"certname":"b"}]
ask facts[sum(value), name]{ group by name }
told [{"sum":0.2,"name":"k"}]
ask nodes{
end 10 query refused: pql bad at 6
ask nodes{nme = 1}
end 10 query refused: unknown field 2
ask facts{ group by name }
end 10 query refused: pql bad at 7
ask 
end 10 query refused: pql bad at 0
ask \x20\n
end 10 query refused: pql bad at 2
ask \x0b[]
end 10 query refused: pql bad at 0
ask facts{ value ~ '(' }
end 10 query refused: bad pattern 4
usage query
usage query ["from","facts",["extract",["value"]]] ["from","facts",["extract",["value"]]]
usage Query ["from","facts",["extract",["value"]]]
usage run 65 2024-05-02T00:00:00Z
crash 0
same

case a text of a mebibyte
with wide=1048576
ask [
end 10 query refused: not json at 1048576
with wide=1048577
ask [
end 10 query refused: too long

case a fault of writing cuts the rows or the line
with out=1
ask ["from","facts",["extract",["value"]]]
end 5 write fault
with out=2
ask ["from","facts",["extract",["value"]]]
bare [{"value":0.10},{"value":1e-1}]
end 5 write fault
with errors=1
ask ["from","facts",["~","value","("]]
end 10
with errors=2
ask ["from","facts",["~","value","("]]
end 10 query refused:  ..
with errors=3
ask ["from","facts",["~","value","("]]
end 10 query refused: bad pattern ..
with errors=5
ask ["from","facts",["~","value","("]]
end 10 query refused: bad pattern 2 ..
with errors=7
ask ["from","facts",["~","value","("]]
end 10 query refused: bad pattern 2.2 ..
with errors=8
ask ["from","facts",["~","value","("]]
end 10 query refused: bad pattern 2.2
"#;

#[test]
fn a_query_prints_its_rows_or_why_it_has_none(rt: HostRuntime) -> Result<(), AllocError> {
    play(&rt, rt.alloc(), TWO_NODES, ASKED)
}

// Fifty nodes with a hundred facts each, whose values are one text.
const FIFTY: &str = r#"files a pattern is tried on the facts of one node
middle 99 ,"fact@":"v"
nodes 50 raw {"certname":"node@","environment":"production","values":{"k":"v"$},"producer_timestamp":"2024-05-01T10:00:00Z","producer":"m"}
do run 1 2024-05-02T00:00:00Z
printed received 50
printed applied 50
printed superseded 0
printed discarded 0
end 0
ask ["from","facts",["extract",[["function","count"]],["=","certname","node7"]]]
told [{"count":100}]
ask ["from","facts",["=","certname","node7"]]
again
note query ["from","facts",["and",["~","value","v"],["=","certname","node7"]]]
end 0
tried 100
link GET /pdb/query/v4/facts?query=["=","certname","node7"] HTTP/1.1\r\n\r\n
do serve 8123 2024-05-02T00:00:00Z --links 1
again
link GET /pdb/query/v4/facts?query=["and",["~","value","v"],["=","certname","node7"]] HTTP/1.1\r\n\r\n
note serve 8123 2024-05-02T00:00:00Z --links 1
end 0
tried 100
"#;

#[test]
fn a_pattern_is_tried_on_the_facts_of_one_node(rt: HostRuntime) -> Result<(), AllocError> {
    play(&rt, rt.alloc(), "", FIFTY)
}
