//! Forms and faults of the AST. Tables are empty: a query is told no row, and a text that is no query is told its first fault.
use crate::play::play;
use std::alloc::AllocError;

const WHOLE: &str = r#"fleet of no node: whole queries
ask ["from","nodes"]
told []
ask ["from","nodes",["=","certname","a"]]
told []
ask ["from","facts",["extract","certname"]]
told []
ask ["from","nodes",["limit",1],["offset",0],["order_by",["certname"]]]
told []
ask ["from","nodes",["order_by",[["certname","desc"],["expired","asc"],"deactivated"]]]
told []
ask ["from","nodes",["limit",9223372036854775807]]
told []
ast {}
told not a query
ask []
told not a query
ask ["from"]
told not a query
ask ["form","nodes"]
told not a query
ask ["from",1]
told not a query 1
ask ["from","nodes",1]
told not a query 2
ask ["from","nodes",["limit",1],["=","certname","a"]]
told not a query 3
ask ["from","nodes",["limit",1],["limit",2]]
told not a query 3
ask ["from","nodes",["offset",1],["limit",1],["offset","x"]]
told not a query 4
ask ["from","nodes",["order_by",["certname"]],["order_by",["certname"]]]
told not a query 3
ask ["from","nodes",["limit"]]
told not a query 2
ask ["from","nodes",["limit",9223372036854775808]]
told not a query 2.1
ask ["from","nodes",["limit",1.0]]
told not a query 2.1
ask ["from","nodes",["limit",-1]]
told not a query 2.1
ask ["from","nodes",["order_by",[]]]
told not a query 2.1
ask ["from","nodes",["order_by",[["certname"]]]]
told not a query 2.1.0
ask ["from","nodes",["order_by",[["certname","up"]]]]
told not a query 2.1.0.1
ask ["from","nodes",["order_by",[[1,"asc"]]]]
told not a query 2.1.0.0
fleet of no node: extracts
ask ["from","facts",["extract",["certname",["function","count"]],["group_by","certname"]]]
told []
ask ["from","facts",["extract",[["function","sum","value"],"name"],["group_by","name"]]]
told []
ask ["from","facts",["extract",[["function","min","value"],["function","max","value"],["function","count","value"]]]]
told [{"min":null,"max":null,"count":0}]
ask ["from","facts",["extract",["name","name"],["=","name","a"],["group_by","name"]]]
told []
ask ["from","facts",["extract"]]
told not a query 2
ask ["from","facts",["extract","name",["=","name","a"],["group_by","name"],1]]
told not a query 2
ask ["from","facts",["extract",[]]]
told not a query 2.1
ask ["from","facts",["extract",[["function"]]]]
told not a query 2.1.0
ask ["from","facts",["extract",[["function","sum"]]]]
told not a query 2.1.0.1
ask ["from","facts",["extract",[["function","avg","value"]]]]
told not a query 2.1.0.1
ask ["from","facts",["extract",[["function","sum",1]]]]
told not a query 2.1.0.2
ask ["from","facts",["extract",[["function","count"],["function","count","value"]]]]
told not a query 2.1.1
ask ["from","facts",["extract","name",["group_by","name"],["group_by","name"]]]
told not a query 2.2
ask ["from","facts",["extract","name",["=","name","a"],["=","name","a"]]]
told not a query 2.3
ask ["from","facts",["extract","name",["group_by"]]]
told not a query 2.2
ask ["from","facts",["extract","name",["group_by",1]]]
told not a query 2.2.1
fleet of no node: filters
ask ["from","nodes",["and",["=","certname","a"],["or",["not",["null?","expired",true]]]]]
told []
ask ["from","nodes",["and"]]
told not a query 2
ask ["from","nodes",["not",["=","certname","a"],["=","certname","a"]]]
told not a query 2
ask ["from","nodes",["or",["=","certname","a"],["and",["and"]]]]
told not a query 2.2.1
ask ["from","nodes",["=","certname"]]
told not a query 2
ask ["from","nodes",["=","certname",null]]
told not a query 2.2
ask ["from","nodes",["~>","certname",["a"]]]
told not a query 2
ask ["from","nodes",["~","certname",1]]
told not a query 2.2
ask ["from","nodes",["null?","certname","true"]]
told not a query 2.2
ask ["from","nodes",["=",["fact"],"a"]]
told not a query 2.1
ask ["from","nodes",["=",["fact",1],"a"]]
told not a query 2.1.1
ask ["from","nodes",["=",["fact","os"],"a"]]
told []
ask ["from","resources",["=",["parameter","ensure"],"a"]]
told []
ask ["from","nodes",["subquery","facts"]]
told []
ask ["from","nodes",["subquery",1,2,3]]
told not a query 2
fleet of no node: what rows are in
ask ["from","nodes",["in","certname",["array",["a",1,true]]]]
told []
ask ["from","facts",["in",["certname","name"],["extract",["certname","name"],["select_facts",["=","name","a"]]]]]
told []
ask ["from","nodes",["in","certname",["from","facts",["extract","certname"],["limit",1]]]]
told []
ask ["from","nodes",["in","certname",["from","facts"]]]
told not a query 2.2
ask ["from","nodes",["in","certname",["from","facts",["=","name","a"]]]]
told not a query 2.2.2
ask ["from","nodes",["in",[],["array",["a"]]]]
told not a query 2.1
ask ["from","nodes",["in","certname",["array",[]]]]
told not a query 2.2.1
ask ["from","nodes",["in","certname",["array",["a",[]]]]]
told not a query 2.2.1.1
ask ["from","nodes",["in","certname",["extract",[["function","count"]],["select_facts"]]]]
told not a query 2.2.1.0
ask ["from","nodes",["in","certname",["extract","certname",["facts"]]]]
told not a query 2.2.2
ask ["from","nodes",["in","certname",["extract","certname",["select_facts",1]]]]
told not a query 2.2.2.1
fleet of no node: names of entities
ask ["from","node"]
told unknown entity 1
ask ["from","fact_contents"]
told unknown entity 1
ask ["from","inventory"]
told unknown entity 1
ask ["from","events"]
told unknown entity 1
ask ["from","event_counts"]
told unknown entity 1
ask ["from","nodes",["subquery","fact",["=","x","y"]]]
told unknown entity 2.1
ask ["from","nodes",["in","x",["extract","certname",["select_fact"]]]]
told unknown entity 2.2.2.0
fleet of no node: names of fields
ask ["from","nodes",["=","nme",1]]
told unknown field 2.1
ask ["from","nodes",["=","tag","a"]]
told unknown field 2.1
ask ["from","facts",["=",["fact","a"],1]]
told unknown field 2.1.1
ask ["from","nodes",["and",["<","certname","a"],["=",["parameter","a"],1]]]
told unknown field 2.2.1.1
ask ["from","nodes",["extract",["certname","x","y"]]]
told unknown field 2.1.1
ask ["from","facts",["extract","name",["group_by","x"]]]
told unknown field 2.2.1
ask ["from","nodes",["extract","certname"],["order_by",["expired"]]]
told []
ask ["from","facts",["extract",["name",["function","count"]],["group_by","name"]],["order_by",["count","value"]]]
told unknown field 3.1.1
ask ["from","nodes",["order_by",["nme"]]]
told unknown field 2.1.0
ask ["from","nodes",["order_by",[["nme","asc"]]]]
told unknown field 2.1.0.0
fleet of no node: operands
ask ["from","nodes",["=","expired","today"]]
told bad operand 2.2
ask ["from","reports",["<","receive_time","2024-05-01T10:00:00Z"]]
told []
ask ["from","facts",["<","value","a"]]
told bad operand 2.2
ask ["from","facts",[">=","value",1]]
told []
ask ["from","resources",["<","tag","a"]]
told bad operand 2.2
ask ["from","resources",["=","tag",1]]
told bad operand 2.2
ask ["from","nodes",["=","node_state","any"]]
told []
ask ["from","nodes",["=","node_state","all"]]
told bad operand 2.2
ask ["from","nodes",["~","node_state","a"]]
told bad operand 2.1
ask ["from","resources",["null?","tag",true]]
told bad operand 2.1
ask ["from","resources",["in",["title","tag"],["array",["a"]]]]
told bad operand 2.1.1
ask ["from","facts",["in",["certname","name"],["extract","certname",["select_facts"]]]]
told bad operand 2.2
ask ["from","facts",["in",["certname","name"],["extract",["certname","certname"],["select_facts"]]]]
told bad operand 2.2
ask ["from","nodes",["in","expired",["array",["2024-05-01T10:00:00Z","a"]]]]
told bad operand 2.2.1.1
ask ["from","facts",["extract",["certname","name",["function","count"]],["group_by","certname"]]]
told bad operand 2.1.1
ask ["from","facts",["extract",["certname","name"],["group_by","certname"]]]
told bad operand 2.1.1
ask ["from","facts",["and",["<","value","a"],["<","value","b"]]]
told bad operand 2.1.2
fleet of no node: the first kind of fault, and of one kind the first in preorder
ask ["from","node",["=","x","a"],1]
told not a query 3
ask ["from","nodes",["or",["<","certname","a"],["=","x","a"]],["order_by",["y"]]]
told unknown field 2.2.1
ask ["from","nodes",["limit",1]
told not json at 27
fleet of no node: a query with each part
ask ["from","nodes",["extract",["certname"],["subquery","resources",["and",["=","type","Class"],["=","title","Ntp"]]]],["order_by",[["certname","desc"]]],["limit",1],["offset",1]]
told []"#;

#[test]
fn each_form_is_read_and_each_fault_is_told_at_its_place(
    rt: HostRuntime,
) -> Result<(), AllocError> {
    play(&rt, rt.alloc(), WHOLE)
}

const ON_ROUTES: &str = r#"fleet of no node: what is asked of the rows of an entity
nodes ["=","certname","a"]
told []
nodes ["extract","certname"]
told []
nodes ["extract","certname",["=","certname","a"]]
told []
nodes ["in","certname",["extract","certname",["select_facts",["~","value","("]]]]
told bad pattern 2.2.1.2
nodes ["from","nodes"]
told not a query
nodes ["limit",1]
told not a query
nodes ["=","name","a"]
told unknown field 1
nodes ["extract",["certname","name"]]
told unknown field 1.1
nodes ["and",["=","certname","a"],["and"]]
told not a query 2
nodes ["~","node_state","a"]
told bad operand 1
nodes
told not json at 0
fact_contents ["=","name","a"]
told unknown entity
inventory ["=","certname","a"]
told unknown entity
events ["=","status","a"]
told unknown entity
event_counts ["=","noops",1]
told unknown entity"#;

#[test]
fn a_route_is_asked_a_filter_or_an_extract(rt: HostRuntime) -> Result<(), AllocError> {
    play(&rt, rt.alloc(), ON_ROUTES)
}
