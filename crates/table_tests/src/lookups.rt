//! Look-ups find exactly the rows that a filter of all rows finds: in small fleets before and after rows are prepared, after a purge and
//! a replaced catalog, by names that contradict each other or aren't there, and among nodes of several groups.
ghost use Rattle.std.specs.Prelude.{◌≡◌, ◌<◌};

use crate::play::{Fleet, entity_of, play};
use command_decode::fleet_rows::{Cell, Entity, Kind, Row};
use command_decode::json_tree::{Json, Text};
use std::alloc::{AllocError, Global};
use std::marker::Brand;
use std::sync::ledger::{Blank, Ledger};
use ttl_sweeps::fleet_tables::{Places, Span, Steps, Tables, Wanted, WantedResource};

// The texts that are asked for; None asks for nothing.
#[derive(Drop)]
struct Asked {
    entity: Entity,
    certname: Option<Text>,
    name: Option<Text>,
    rtype: Option<Text>,
    title: Option<Text>,
}

fn asked_text(alloc: Global, word: Option<&str>) -> Result<Option<Text>, AllocError> {
    match word {
        Some("-") => Ok(None),
        Some(word) => Ok(Some(Text::from_str(alloc, word)?)),
        None => Ok(None),
    }
}

// What the words ask: an entity, a certname, a fact's name, a resource's type and title. A bar asks for nothing.
fn asked_by(alloc: Global, words: &str) -> Result<Option<Asked>, AllocError> {
    let mut parts = words.split(' ');
    let entity = match entity_of(parts.next().unwrap_or("")) {
        Some(entity) => entity,
        None => return Ok(None),
    };
    let certname = asked_text(alloc, parts.next())?;
    let name = asked_text(alloc, parts.next())?;
    let rtype = asked_text(alloc, parts.next())?;
    let title = asked_text(alloc, parts.next())?;
    Ok(Some(Asked {
        entity,
        certname,
        name,
        rtype,
        title,
    }))
}

// Whether the cell in this column is the text, if one is asked for.
fn shows(row: &Row, column: usize, asked: &Option<Text>) -> bool {
    match asked {
        Some(asked) => match row.cells.as_slice().get(column) {
            Some(Cell::Plain(Json::Text(text))) => text.as_str() == asked.as_str(),
            _ => false,
        },
        None => true,
    }
}

fn passes(row: &Row, asked: &Asked) -> bool {
    match asked.entity {
        Entity::Nodes => shows(row, 2, &asked.certname),
        Entity::Catalogs => shows(row, 1, &asked.certname),
        Entity::Facts => shows(row, 0, &asked.certname) && shows(row, 2, &asked.name),
        Entity::Resources => {
            shows(row, 0, &asked.certname)
                && shows(row, 9, &asked.rtype)
                && shows(row, 8, &asked.title)
        }
        _ => shows(row, 0, &asked.certname),
    }
}

// The places of the rows that pass, of all rows.
fn filtered_by<L: Ledger>(
    blank: Blank,
    alloc: Global,
    tables: &Tables,
    asked: &Asked,
) -> Result<Vec<usize>, AllocError>
    requires name { blank.name ≡ L.name }
    requires parts { blank.parts ≡ L.parts }
    requires one { 0 < blank.parts }
{
    let mut steps: Steps<L> = Steps::begin(blank);
    let mut places = Vec::new(alloc);
    for i in 0..tables.count(asked.entity) {
        if passes(&tables.row(asked.entity, i, &mut steps)?, asked) {
            places.push(i)?;
        }
    }
    Ok(places)
}

fn sought(alloc: Global, tables: &Tables, asked: &Asked) -> Result<Vec<usize>, AllocError> {
    let resource = match &asked.rtype {
        Some(rtype) => Some(WantedResource {
            rtype,
            title: asked.title.as_ref(),
        }),
        None => None,
    };
    let certname = match &asked.certname {
        Some(certname) => Some(certname.as_str()),
        None => None,
    };
    let wanted = Wanted {
        certname,
        name: asked.name.as_ref(),
        resource,
    };
    tables.seek(alloc, asked.entity, &wanted)
}

fn is_span(span: Span, places: &[usize]) -> bool {
    for (k, place) in places.iter().enumerate() {
        if *place != span.from.saturating_add(k) {
            return false;
        }
    }
    span.count == places.len()
}

fn are_places(found: &Places<'_>, places: &[usize]) -> bool {
    for i in 0..found.count() {
        if places.get(i) != Some(&found.at(i)) {
            return false;
        }
    }
    found.count() == places.len()
}

// The same by the look-up that is made for what is asked.
fn is_found(tables: &Tables, asked: &Asked, places: &[usize]) -> bool {
    match (&asked.certname, &asked.name, &asked.rtype, &asked.title) {
        (Some(certname), None, None, None) => {
            is_span(tables.of_node(asked.entity, certname), places)
        }
        (Some(certname), Some(name), None, None) => {
            tables.fact_place(certname.as_str(), name) == places.first().copied()
        }
        (None, Some(name), None, None) => are_places(&tables.of_fact(name), places),
        (None, None, Some(rtype), Some(title)) => {
            are_places(&tables.of_resource(rtype, title), places)
        }
        _ => true,
    }
}

/// Whether each look-up for what the words ask finds the rows that a filter of all rows finds, and so many of them.
pub(crate) fn agree(alloc: Global, tables: &Tables, words: &str) -> Result<bool, AllocError> {
    let (count, words) = words.split_once(' ').unwrap_or((words, ""));
    let Some(asked) = asked_by(alloc, words)? else {
        return Ok(false);
    };
    let places = filtered_by::<Brand>(Blank::new(1), alloc, tables, &asked)?;
    let found = sought(alloc, tables, &asked)?;
    Ok(
        places.len() as u64 == count.parse::<u64>().unwrap_or(0)
            && found.as_slice() == places.as_slice()
            && is_found(tables, &asked, places.as_slice()),
    )
}

// Three nodes, of which the second has no fact, and the third no catalog.
const FLEET: &str = r#"fleet
facts 1 {"certname":"a","producer_timestamp":"2024-05-01T10:00:00Z","values":{"os":"b","kernel":"Linux","a":1,"uptime":2,"cpus":3}}
catalog 2 {"certname":"a","version":"1","producer_timestamp":"2024-05-01T10:00:00Z","edges":[{"source":{"type":"File","title":"/b"},"target":{"type":"File","title":"/a"},"relationship":"before"}],"resources":[{"type":"File","title":"/b"},{"type":"Class","title":"main"},{"type":"Package","title":"/a"},{"type":"File","title":"/a"},{"type":"File","title":"/c"}]}
report 3 {"certname":"a","producer_timestamp":"2024-05-01T10:00:00Z","status":"failed"}
report 4 {"certname":"a","producer_timestamp":"2024-05-01T11:00:00Z","status":"failed"}
catalog 5 {"certname":"b","version":"1","producer_timestamp":"2024-05-01T10:00:00Z","edges":[],"resources":[{"type":"File","title":"/a"},{"type":"Class","title":"main"}]}
facts 6 {"certname":"c","producer_timestamp":"2024-05-01T10:00:00Z","values":{"kernel":"Linux"}}
found 1 nodes a
found 0 nodes aa
found 1 factsets c
found 0 factsets b
found 5 facts a
found 0 facts b
found 1 facts c
found 0 facts d
found 2 facts - kernel
found 1 facts - cpus
found 0 facts - zone
found 1 facts a kernel
found 1 facts a os
found 1 facts a a
found 0 facts a zone
found 0 facts b kernel
found 0 facts c os
found 1 catalogs b
found 5 resources a
found 2 resources b
found 0 resources c
found 4 resources - - File
found 2 resources - - Class main
found 2 resources - - File /a
found 1 resources - - Package /a
found 0 resources - - Package /b
found 0 resources - - file /a
found 3 resources a - File
found 1 resources a - File /b
found 0 resources b - File /b
found 1 edges a
found 2 reports a
found 0 reports b
found 6 facts -
prepared
found 2 facts - kernel
found 0 facts - zone
found 1 facts a kernel
found 1 facts a uptime
found 0 facts a zone
found 4 resources - - File
found 2 resources - - File /a
found 1 resources - - Package /a
found 0 resources - - Package /b
found 3 resources a - File
found 1 resources a - File /c
found 0 resources b - File /b
catalog 7 {"certname":"a","version":"2","producer_timestamp":"2024-05-01T12:00:00Z","edges":[],"resources":[{"type":"File","title":"/z"},{"type":"File","title":"/a"}]}
found 0 resources - - Package
found 1 resources a - File /z
found 2 resources - - File /a
found 0 edges a
deactivate 8 {"certname":"a","producer_timestamp":"2024-05-02T10:00:00Z"}
purge 2024-06-20T00:00:00Z
found 0 facts a
found 1 facts - kernel
found 1 resources - - File /a
found 1 resources b - File
found 0 reports a
fleet
found 0 nodes a
found 0 facts - kernel
end"#;

#[test]
fn look_ups_find_what_a_filter_finds(rt: HostRuntime) -> Result<(), AllocError> {
    play(&rt, rt.alloc(), FLEET)
}

// Facts of 300 nodes, which fill more than one group.
fn many(alloc: Global) -> Result<Option<Fleet>, AllocError> {
    let mut fleet = Fleet::new(alloc, None);
    for number in 100..400 {
        let payload = format!(in alloc;
            "{{\"certname\":\"n{number}\",\"producer_timestamp\":\"2024-05-01T10:00:00Z\",\"values\":{{\"kernel\":1,\"n{number}\":2}}}}"
        )?;
        if !fleet.send(Kind::Facts, number, None, payload.as_bytes()) {
            return Ok(None);
        }
    }
    Ok(Some(fleet))
}

const MANY: &str = r#"found 2 facts n100
found 2 facts n227
found 2 facts n228
found 2 facts n356
found 2 facts n399
found 300 facts - kernel
found 1 facts - n357
found 1 facts n300 n300
found 0 facts n300 n301
found 0 facts n400
found 1 nodes n255
end"#;

#[test]
fn look_ups_find_rows_of_several_groups(rt: HostRuntime) -> Result<(), AllocError> {
    let alloc = rt.alloc();
    match many(alloc)? {
        Some(mut fleet) => {
            fleet.play(&rt, MANY)?;
            fleet.tables.prepare_all()?;
            fleet.play(&rt, MANY)
        }
        None => Err(AllocError),
    }
}
