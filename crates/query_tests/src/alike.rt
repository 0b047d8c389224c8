//! Queries in both languages, of which the one means the other: their trees are one but for the places of names and operands. Each is
//! written as a text without places.
use ast_reader::ast_tree::{
    Clause, Field, Filter, Level, Literal, Name, Op, Order, Paging, Query, Scalar, Selected,
    Selection, function_name, shown_list,
};
use ast_reader::read_ast;
use itoa::Buffer;
use pql_reader::read_pql;
use std::alloc::{AllocError, Global};
use test_support::{add_words, parted};

const BOTH: &str = r#"nodes{}|["from","nodes"]
nodes[certname]{ resources { type = "Class" and title = "Ntp" } order by certname desc limit 1 offset 1 }|["from","nodes",["extract",["certname"],["subquery","resources",["and",["=","type","Class"],["=","title","Ntp"]]]],["order_by",[["certname","desc"]]],["limit",1],["offset",1]]
nodes[certname, deactivated]{node_state = "any"}|["from","nodes",["extract",["certname","deactivated"],["=","node_state","any"]]]
facts[value]{}|["from","facts",["extract",["value"]]]
facts[certname]{value = 0.1}|["from","facts",["extract","certname",["=","value",0.1]]]
nodes[certname]{certname in ["a","b"]}|["from","nodes",["extract","certname",["in","certname",["array",["a","b"]]]]]
facts[sum(value), name]{ group by name }|["from","facts",["extract",[["function","sum","value"],"name"],["group_by","name"]]]
nodes{ certname = '1' or certname = '2' and certname = '3' and ! certname = '4' or certname = '5' }|["from","nodes",["or",["=","certname","1"],["and",["=","certname","2"],["=","certname","3"],["not",["=","certname","4"]]],["=","certname","5"]]]
nodes{ (certname = '1' or certname = '2') and (certname = '3' and certname = '4') }|["from","nodes",["and",["or",["=","certname","1"],["=","certname","2"]],["and",["=","certname","3"],["=","certname","4"]]]]
nodes{ !!((certname = '1')) }|["from","nodes",["not",["not",["=","certname","1"]]]]
nodes{ !(certname = '1' or certname = '2') }|["from","nodes",["not",["or",["=","certname","1"],["=","certname","2"]]]]
facts{ value != 1 and value < 2 and value <= -3.5 and value > 4e1 and value >= 5 }|["from","facts",["and",["not",["=","value",1]],["<","value",2],["<=","value",-3.5],[">","value",4e1],[">=","value",5]]]
nodes{ certname ~ '^web' and expired is null and deactivated is not null }|["from","nodes",["and",["~","certname","^web"],["null?","expired",true],["null?","deactivated",false]]]
resources{ tag = 'a' }|["from","resources",["=","tag","a"]]
facts{ value = true or value = false or value = 'true' }|["from","facts",["or",["=","value",true],["=","value",false],["=","value","true"]]]
facts{ value = 'a\'b"c\\d\ne' }|["from","facts",["=","value","a'b\"c\\d\\ne"]]
facts{ value = "a\"b'c\\d\'e" }|["from","facts",["=","value","a\"b'c\\d\\'e"]]
facts{ [certname, name] in facts[certname, name]{ value = 1 } }|["from","facts",["in",["certname","name"],["extract",["certname","name"],["select_facts",["=","value",1]]]]]
nodes{ certname in facts[certname]{ value = 1 order by certname limit 2 } }|["from","nodes",["in","certname",["from","facts",["extract","certname",["=","value",1]],["order_by",["certname"]],["limit",2]]]]
nodes{ [certname] in [1] }|["from","nodes",["in",["certname"],["array",[1]]]]
facts[count(), min(value), max(value), name]{ certname = 'a' group by name, certname order by name, count desc offset 3 }|["from","facts",["extract",[["function","count"],["function","min","value"],["function","max","value"],"name"],["=","certname","a"],["group_by","name","certname"]],["order_by",[["name","asc"],["count","desc"]]],["offset",3]]"#;

/// A part of a query, which is compared by a word and a text, and not by its position.
trait Part {
    fn told(&self) -> (&'static str, &str);
}

impl Part for Name {
    fn told(&self) -> (&'static str, &str) {
        ("", self.text.as_str())
    }
}

impl Part for Field {
    fn told(&self) -> (&'static str, &str) {
        match self {
            Field::Column(name) => ("column", name.text.as_str()),
            Field::Parameter(name) => ("parameter", name.text.as_str()),
            Field::Fact(name) => ("fact", name.text.as_str()),
            Field::Tag(_) => ("tag", ""),
            Field::NodeState(_) => ("node_state", ""),
        }
    }
}

impl Part for Literal {
    fn told(&self) -> (&'static str, &str) {
        match &self.value {
            Scalar::Text(text) => ("text", text.as_str()),
            Scalar::Num(number) => ("number", number.spelling().as_str()),
            Scalar::Bool(value) => (if *value { "true" } else { "false" }, ""),
        }
    }
}

impl Part for Selected {
    fn told(&self) -> (&'static str, &str) {
        match self {
            Selected::Column(name) => ("column", name.text.as_str()),
            Selected::Rows => ("rows", ""),
            Selected::Function(function, name) => (function_name(*function), name.text.as_str()),
        }
    }
}

impl Part for Order {
    fn told(&self) -> (&'static str, &str) {
        let word = if self.descends { "desc" } else { "asc" };
        (word, self.column.text.as_str())
    }
}

// Appends a part. No text of a part has the byte that stands behind it.
fn put<T: Part>(out: &mut Vec<u8>, part: &T) -> Result<(), AllocError> {
    let (word, text) = part.told();
    add_words(out, &[word, " "])?;
    add_words(out, &[text, "\0"])
}

// Appends parts, and where they end.
fn put_all<T: Part>(out: &mut Vec<u8>, parts: &[T]) -> Result<(), AllocError> {
    for part in parts {
        put(out, part)?;
    }
    add_words(out, &["end\0"])
}

// Appends the word of a filter and the field that it looks at.
fn put_tested(out: &mut Vec<u8>, word: &str, field: &Field) -> Result<(), AllocError> {
    add_words(out, &[word, " "])?;
    put(out, field)
}

fn op_word(op: Op) -> &'static str {
    match op {
        Op::Equal => "=",
        Op::Less => "<",
        Op::AtMost => "<=",
        Op::More => ">",
        Op::AtLeast => ">=",
    }
}

// Appends a filter that holds no filter and no level.
fn put_leaf(out: &mut Vec<u8>, filter: &Filter) -> Result<(), AllocError> {
    match filter {
        Filter::Compare(op, field, value) => {
            put_tested(out, op_word(*op), field)?;
            put(out, value)
        }
        Filter::Matches(field, pattern) => {
            put_tested(out, "~", field)?;
            add_words(out, &[pattern.text.as_str(), "\0"])
        }
        Filter::IsNull(field, is_null) => {
            put_tested(out, if *is_null { "null" } else { "not null" }, field)
        }
        Filter::InList(fields, _, values) => {
            add_words(out, &["in list "])?;
            put_all(out, fields.as_slice())?;
            put_all(out, values.as_slice())
        }
        _ => Err(AllocError),
    }
}

// Appends a filter. A tree that nests deeper than `depth` has no text.
#[cycle(text)]
fn put_filter(out: &mut Vec<u8>, filter: &Filter, depth: usize) -> Result<(), AllocError> {
    if depth == 0 {
        return Err(AllocError);
    }
    match filter {
        Filter::InLevel(fields, _, level) => {
            add_words(out, &["in level "])?;
            put_all(out, fields.as_slice())?;
            put_level(out, level, depth - 1)
        }
        Filter::Subquery(name, clause) => {
            add_words(out, &["subquery "])?;
            put(out, name)?;
            put_clause(out, clause, depth - 1)
        }
        Filter::Not(operand) => {
            add_words(out, &["not "])?;
            put_filter(out, operand.filter(), depth - 1)
        }
        Filter::All(filters) => put_filters(out, "and ", filters.as_slice(), depth - 1),
        Filter::Any(filters) => put_filters(out, "or ", filters.as_slice(), depth - 1),
        _ => put_leaf(out, filter),
    }
}

#[cycle(text)]
fn put_filters(
    out: &mut Vec<u8>,
    word: &str,
    filters: &[Filter],
    depth: usize,
) -> Result<(), AllocError> {
    if depth == 0 {
        return Err(AllocError);
    }
    add_words(out, &[word])?;
    for filter in filters {
        put_filter(out, filter, depth - 1)?;
    }
    add_words(out, &["end\0"])
}

#[cycle(text)]
fn put_clause(out: &mut Vec<u8>, clause: &Clause, depth: usize) -> Result<(), AllocError> {
    if depth == 0 {
        return Err(AllocError);
    }
    match clause.filter() {
        None => add_words(out, &["all\0"]),
        Some(filter) => put_filter(out, filter, depth - 1),
    }
}

// Appends a number, or that there is none.
fn put_number(out: &mut Vec<u8>, number: Option<u64>) -> Result<(), AllocError> {
    match number {
        Some(number) => add_words(out, &[Buffer::new().format(number), "\0"]),
        None => add_words(out, &["none\0"]),
    }
}

fn put_paging(out: &mut Vec<u8>, paging: &Paging) -> Result<(), AllocError> {
    put_all(out, paging.order.as_slice())?;
    put_number(out, paging.limit)?;
    put_number(out, paging.offset)?;
    add_words(
        out,
        &[if paging.include_total {
            "total\0"
        } else {
            "\0"
        }],
    )
}

fn put_shown(out: &mut Vec<u8>, shown: &Option<Selection>) -> Result<(), AllocError> {
    add_words(out, &[if shown.is_some() { "shown " } else { "rows " }])?;
    put_all(out, shown_list(shown))
}

#[cycle(text)]
fn put_level(out: &mut Vec<u8>, level: &Level, depth: usize) -> Result<(), AllocError> {
    if depth == 0 {
        return Err(AllocError);
    }
    let (entity, shown, clause, group, paging) = level.parts();
    put(out, entity)?;
    put_shown(out, shown)?;
    put_clause(out, clause, depth - 1)?;
    put_all(out, group.as_slice())?;
    put_paging(out, paging)
}

// The query as a text.
fn text_of(alloc: Global, query: &Query) -> Result<Vec<u8>, AllocError> {
    let mut out = Vec::new(alloc);
    put_level(&mut out, query.level(), 100)?;
    Ok(out)
}

// The same, and lets the query go.
fn text_in(alloc: Global, query: Query) -> Result<Vec<u8>, AllocError> {
    let text = text_of(alloc, &query);
    drop(query);
    text
}

fn pql_text(alloc: Global, pql: &str) -> Result<Vec<u8>, AllocError> {
    match read_pql(alloc, pql.as_bytes()) {
        Ok(query) => text_in(alloc, query),
        Err(_) => Err(AllocError),
    }
}

fn ast_text(alloc: Global, ast: &str) -> Result<Vec<u8>, AllocError> {
    match read_ast(alloc, ast.as_bytes()) {
        Ok(query) => text_in(alloc, query),
        Err(_) => Err(AllocError),
    }
}

fn mean_one(alloc: Global, line: &str) -> Result<bool, AllocError> {
    let (pql, ast) = parted(line, "|");
    let pql = pql_text(alloc, pql)?;
    let ast = ast_text(alloc, ast)?;
    Ok(pql.as_slice() == ast.as_slice())
}

// The first line whose queries differ, or of which one isn't read; none where there is no such line.
fn differs(alloc: Global) -> Option<&'static str> {
    let mut rest = BOTH;
    'lines: for _ in 0..BOTH.len() {
        let (line, more) = parted(rest, "\n");
        if !mean_one(alloc, line).unwrap_or(false) {
            return Some(line);
        }
        if more.is_empty() {
            break;
        }
        rest = more;
    }
    None
}

#[test]
fn a_query_means_the_ast_that_its_forms_name(rt: HostRuntime) {
    assert!(rt; differs(rt.alloc()).is_none());
}
