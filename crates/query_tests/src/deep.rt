//! Texts at the limits of depth and of length.
use crate::play::play;
use std::alloc::AllocError;

// Of the parts between bars each second one stands so many times.
const AST: &str = r#"fleet of no node
repeat 99 ["from","nodes",|["not",|["=","certname","a"]|]|]
told []
repeat 100 ["from","nodes",|["not",|["=","certname","a"]|]|]
tells 100 not a query 2|.1|
repeat 101 ["from","nodes",|["not",|["=","certname","a"]|]|]
tells 100 not a query 2|.1|
repeat 126 ["from","nodes",|[||]|]
told not a query 2
repeat 127 ["from","nodes",|[||]|]
told not json at 142
repeat 41 ["from","nodes",|["in","certname",["extract","certname",["select_nodes",|["=",["fact",1],"a"]|]]]|]
tells 41 not a query 2|.2.2.1|.1.1
repeat 1048560 ["from","nodes"]| |
told []
repeat 1048561 ["from","nodes"]| |
told too long"#;

#[test]
fn an_ast_ends_at_the_limits(rt: HostRuntime) -> Result<(), AllocError> {
    play(&rt, rt.alloc(), AST)
}

const PQL: &str = r#"fleet of no node
repeat 99 nodes{|!|certname = 'a'}
told []
repeat 100 nodes{|!|certname = 'a'}
told pql bad at 105
repeat 101 nodes{|!|certname = 'a'}
told pql bad at 105
repeat 98 nodes{|!|certname = 'a' and expired is null}
told []
repeat 99 nodes{|!|certname = 'a' and expired is null}
told pql bad at 120
repeat 5000 nodes{|(|certname = 'a'|)|}
told []
repeat 99 nodes{|facts{|name = 'a'|}|}
told []
repeat 100 nodes{|facts{|name = 'a'|}|}
told pql bad at 606
repeat 100 nodes{|certname in nodes[certname]{||}|}
told []
repeat 101 nodes{|certname in nodes[certname]{||}|}
told pql bad at 2806
repeat 99 nodes{|(certname = 'a' and |certname = 'b'|)|}
told []
repeat 100 nodes{|(certname = 'a' and |certname = 'b'|)|}
told pql bad at 2002
repeat 2000 nodes[certname|,certname|]{}
told []
repeat 1048569 nodes{}| |
told []
repeat 1048570 nodes{}| |
told too long"#;

#[test]
fn a_pql_text_ends_at_the_limits(rt: HostRuntime) -> Result<(), AllocError> {
    play(&rt, rt.alloc(), PQL)
}
