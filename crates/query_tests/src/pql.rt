//! Forms and faults of PQL. Tables are empty: a query is told no row, and a text that is no query is told its first fault.
use crate::play::{Fleet, play};
use std::alloc::{AllocError, Global};

const TEXTS: &str = r#"fleet of no node: whole queries
ask nodes{}
told []
ask nodes[certname, expired] { certname = 'a' }
told []
ask nodes[certname, certname]{}
told []
ask facts[count(), name]{ group by name }
told []
ask facts[sum(value), min(value), max(value), count(value)]{}
told [{"sum":null,"min":null,"max":null,"count":0}]
ask facts[count, name, count]{}
told unknown field 2
ask nodes{ limit 0 }
told []
ask nodes{ offset 9223372036854775807 }
told []
ask nodes{ order by certname, expired desc, deactivated asc limit 1 offset 2 }
told []
ask facts[name]{ group by name, certname order by name limit 1 }
told []
fleet of no node: where a text goes wrong: at its end, within it, at a byte that begins no token
ask
told pql bad at 0
ask -x
told pql bad at 0
ask Nodes{}
told pql bad at 0
ask nodes
told pql bad at 5
ask nodes{
told pql bad at 6
ask nodes{}}
told pql bad at 7
ask nodes{} nodes{}
told pql bad at 8
ask nodes{ certname = 'a }
told pql bad at 18
ask nodes{ certname = "a' }
told pql bad at 18
ask nodes{ certname & 'a' }
told pql bad at 16
ask nodes{ certname = 01 }
told pql bad at 19
ask nodes{ certname = 1. }
told pql bad at 19
ask nodes{ certname == 'a' }
told pql bad at 17
ask nodes[]{}
told pql bad at 6
ask nodes[certname,]{}
told pql bad at 15
ask nodes[certname]
told pql bad at 15
ask nodes[certname(]{}
told pql bad at 14
ask facts[count(), count(value)]{}
told pql bad at 15
ask facts[count(), count]{}
told pql bad at 15
ask facts[count, count()]{}
told pql bad at 18
ask facts[sum()]{}
told pql bad at 10
ask facts[sum(value, name)]{}
told pql bad at 15
ask facts{ group by name }
told pql bad at 7
ask facts[name]{ group name }
told pql bad at 19
ask nodes{ limit 1 limit 2 }
told pql bad at 15
ask nodes{ offset 1 limit 2 }
told pql bad at 16
ask nodes{ limit 1 order by certname }
told pql bad at 15
ask nodes{ limit -1 }
told pql bad at 13
ask nodes{ limit 1.0 }
told pql bad at 13
ask nodes{ limit 9223372036854775808 }
told pql bad at 13
ask nodes{ limit '1' }
told pql bad at 13
ask nodes{ order by certname up }
told pql bad at 25
ask nodes{ order by certname desc asc }
told pql bad at 30
fleet of no node: conditions
ask nodes{ certname = 'a' and certname != "b" or ! certname ~ '^a' }
told []
ask facts{ value < 1 and value <= 2.5 and value > -1e3 and value >= 0 and value = true }
told []
ask nodes{ expired is null and ! (deactivated is not null) }
told []
ask nodes{ certname in ['a', 'b'] and [certname, expired] in ['a'] }
told bad operand 16
ask facts{ [certname, name] in facts[certname, name]{ name = 'a' limit 1 } }
told []
ask nodes{ facts{} and facts{ name = 'a' } }
told []
fleet of no node: numbers, marks without white space, and texts
ask facts{ value = -0 and value = 0.50 and value = 1E+2 }
told []
ask facts{value<=1and(value>=0)or!value!=2}
told []
ask facts{ value = 1e }
told pql bad at 16
ask facts{ value = 1.e2 }
told pql bad at 16
ask facts{ value = 00 }
told pql bad at 16
ask facts{ value = 1andvalue = 2 }
told pql bad at 16
ask facts{ value = - }
told pql bad at 15
ask facts{ value = .5 }
told pql bad at 15
ask facts{ value = +1 }
told pql bad at 15
ask facts{ value ! = 1 }
told pql bad at 13
ask facts{ value < = 1 }
told pql bad at 15
ask facts{ != 1 }
told pql bad at 7
ask nodes{ certname = '' }
told []
ask nodes{ certname = 'a\'b' }
told []
ask nodes{ certname = "a\"b" }
told []
ask nodes{ certname = 'a"b' }
told []
ask nodes{ certname = 'a\"b' }
told []
ask nodes{ certname = 'a\\' }
told []
ask nodes{ certname = 'a\n' }
told []
ask nodes{ certname = 'a\' }
told pql bad at 18
ask nodes{ certname = 'a\\'b' }
told pql bad at 23
ask nodes{ certname = 'a\"b" }
told pql bad at 18
ask nodes{ certname is not 'a' }
told pql bad at 23
ask nodes{ certname ~ 1 }
told pql bad at 18
ask nodes{ certname in [] }
told pql bad at 20
ask nodes{ certname in ['a',] }
told pql bad at 24
ask nodes{ certname in facts{} }
told pql bad at 24
ask nodes{ [] in ['a'] }
told pql bad at 8
ask nodes{ [certname] = 'a' }
told pql bad at 18
ask nodes{ ('a') }
told pql bad at 8
ask nodes{ (certname = 'a' }
told pql bad at 23
ask nodes{ certname = 'a') }
told pql bad at 21
ask nodes{ () }
told pql bad at 8
ask nodes{ certname = 'a' and }
told pql bad at 26
ask nodes{ certname = 'a' certname = 'b' }
told pql bad at 22
ask nodes{ certname = 'a' limit 1 and certname = 'b' }
told pql bad at 30
ask nodes{ facts{ name = 'a' limit 1 } }
told pql bad at 25
fleet of no node: each keyword as a field
ask nodes{ and = 'a' }
told pql bad at 7
ask nodes{ or = 'a' }
told pql bad at 7
ask nodes{ in = 'a' }
told pql bad at 7
ask nodes{ is = 'a' }
told pql bad at 7
ask nodes{ not = 'a' }
told pql bad at 7
ask nodes{ null = 'a' }
told pql bad at 7
ask nodes{ true = 'a' }
told pql bad at 7
ask nodes{ false = 'a' }
told pql bad at 7
ask nodes[group]{}
told pql bad at 6
ask nodes[order]{}
told pql bad at 6
ask nodes{ by = 'a' }
told pql bad at 7
ask nodes{ asc = 'a' }
told pql bad at 7
ask nodes{ desc = 'a' }
told pql bad at 7
ask nodes[limit]{}
told pql bad at 6
ask nodes[offset]{}
told pql bad at 6
ask nodes{ android = 'a' }
told unknown field 2
fleet of no node: names and operands, at the numbers of their tokens
ask node{}
told unknown entity 0
ask nodes{ fact{ x = 'y' } }
told unknown entity 2
ask nodes{ x = 1 and certname in fact[certname]{} }
told unknown entity 8
ask nodes{nme = 1}
told unknown field 2
ask nodes{ tag = 'a' }
told unknown field 2
ask nodes[certname, x]{}
told unknown field 4
ask nodes{ order by nme }
told unknown field 4
ask nodes{ certname = 'a' and (x = 1 or y = 2) }
told unknown field 7
ask nodes{ expired = 'today' }
told bad operand 4
ask facts{ value < 'a' }
told bad operand 4
ask nodes{ node_state = 'all' }
told bad operand 4
ask nodes{ node_state is null }
told bad operand 2
ask resources{ tag ~ 'a' }
told bad operand 2
ask facts{ [certname, name] in facts[certname]{} }
told bad operand 8
ask facts[certname, name, count()]{ group by certname }
told bad operand 4"#;

#[test]
fn each_form_is_read_and_each_fault_is_told_at_its_place(
    rt: HostRuntime,
) -> Result<(), AllocError> {
    play(&rt, rt.alloc(), TEXTS)
}

// White space, and bytes that are no text: a line can't say them.
const BYTES: &[(&[u8], &str)] = &[
    (b"\t nodes\r\n[certname]{}\n", "[]"),
    (b"nodes{ certname = 'a\nb' }", "[]"),
    (b"  ", "pql bad at 2"),
    (b"nodes{ ", "pql bad at 7"),
    (b"nodes{ certname = '\xc3' }", "pql bad at 18"),
    (b"nodes{ certname = '\xc3\xa9' }", "[]"),
    (b"nodes\xc3\xa9{}", "pql bad at 5"),
];

// What the first text isn't told; nothing where each is told so.
fn untold_in(fleet: &mut Fleet) -> Result<&'static str, AllocError> {
    for (bytes, told) in BYTES {
        if !fleet.ask(bytes)? || !fleet.has_told(told.as_bytes()) {
            return Ok(told);
        }
    }
    Ok("")
}

fn untold(alloc: Global) -> Result<&'static str, AllocError> {
    let mut fleet = Fleet::new(alloc);
    let told = untold_in(&mut fleet);
    drop(fleet);
    told
}

#[test]
fn a_text_is_utf8_with_white_space(rt: HostRuntime) -> Result<(), AllocError> {
    assert!(rt; untold(rt.alloc())?.is_empty());
    Ok(())
}
