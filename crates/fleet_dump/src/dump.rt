//! Writes the dump of all tables.
ghost use Rattle.std.specs.Prelude.{◌≡◌, ◌++◌, ◌∷◌, [], ℤ, pos, true, false, map, flat_map};
ghost use Rattle.std.specs.List.{AllByRecursion};
ghost use Rattle.fleet_ports.specs.Counts.{Counts};
ghost use Rattle.dump_writer.specs.dump_spec.fleet_rows.declared.row.Entity.{Entity};
ghost use Rattle.dump_writer.specs.dump_spec.history_spec.Lawful.{HasStamp, IsChange, IfMoment};
ghost use Rattle.dump_writer.specs.dump_spec.history_spec.Thread.{OneThread};
ghost use Rattle.dump_writer.specs.dump_spec.history_spec.Trace.{Trace};
ghost use Rattle.dump_writer.specs.dump_spec.list_again.Told.{change_in};
ghost use Rattle.dump_writer.specs.dump_spec.checkpoint_spec.Lists.{by_rank};
ghost use Rattle.dump_writer.specs.dump_spec.table_spec.Sorted.{sorted_by};
ghost use Rattle.dump_writer.specs.dump_spec.spool_spec.Spool.{SpoolOf, whole};
ghost use Rattle.dump_writer.specs.dump_spec.table_spec.Rows.{rows};
ghost use Rattle.dump_writer.specs.dump_spec.Dumps.{dump_items, dump_text};
ghost use Rattle.dump_writer.specs.dump_laws.RowLaws.{untold};
ghost use Rattle.fleet_tables.specs.Stands.{Stands};
ghost use Rattle.kept_nodes.specs.Places.{seen_in};
ghost use Rattle.kept_nodes.specs.Seen.{node_seen, report_seen};
ghost use Rattle.fleet_dump.specs.Printed.{change_item, node_items, sweep_items, Printed, MatchDumped};
ghost use Rattle.fleet_dump.specs.Dumpable.{IsDumpable, IsDumpableNode};

use crate::newest::print_newest;
use crate::printer::{Dumped, Printer};
use dump_writer::ChangeRef;
use fleet_ports::Sink;
use fleet_tables::Tables;
use kept_nodes::{HeldReport, Node, reports_by_rank};
use std::alloc::Global;

/// Writes the dump of the tables, a spool that leads to their rows again.
pub fn write_dump<O: Sink + Drop>(alloc: Global, tables: &Tables, out: &mut O) -> Dumped
    requires { IsDumpable tables.now }
    ensures which { MatchDumped result (dump_text tables.now) (O.held out.old) (O.held out.new) }
    ensures cause { Counts (O.fault_count out.old) (O.fault_count out.new) (result ≡ Dumped.WriteFault) }
    ensures spool { (history : Trace) (received : ℤ) → Stands tables.now history → result ≡ Dumped.Ok
        → SpoolOf received (dump_text tables.now) (dump_items received tables.now) whole }
    ensures back { (entity : Entity) (history again : Trace) (received : ℤ) → Stands tables.now history → HasStamp received
        → OneThread (dump_items received tables.now) again
        → map (untold entity) (rows entity tables.now.ttls again) ≡ map (untold entity) (rows entity tables.now.ttls history) }
{
    let mut printer = Printer::new(alloc);
    match print_tables(alloc, &mut printer, tables, out) {
        Dumped::Ok => printer.send_all(out),
        Dumped::WriteFault => Dumped::WriteFault,
        Dumped::Memory => Dumped::Memory,
    }
}

// Writes all items.
fn print_tables<O: Sink + Drop>(
    alloc: Global,
    printer: &mut Printer,
    tables: &Tables,
    out: &mut O,
) -> Dumped
    requires { IsDumpable tables.now }
    ensures which { Printed result (dump_items (pos 0) tables.now) printer.old.text.items printer.new.text.items
        (O.held out.old) (O.held out.new) printer.old.room printer.new.room }
    ensures cause { Counts (O.fault_count out.old) (O.fault_count out.new) (result ≡ Dumped.WriteFault) }
{
    match print_all_nodes(alloc, printer, tables, out) {
        Dumped::Ok => print_sweeps(printer, tables, out),
        Dumped::WriteFault => Dumped::WriteFault,
        Dumped::Memory => Dumped::Memory,
    }
}

// Writes the greatest sweep of expiry and the greatest sweep of reports.
fn print_sweeps<O: Sink + Drop>(printer: &mut Printer, tables: &Tables, out: &mut O) -> Dumped
    requires expiry { IfMoment tables.now.expiry }
    requires retention { IfMoment tables.now.retention }
    ensures which { Printed result (sweep_items false tables.now.expiry ++ sweep_items true tables.now.retention)
        printer.old.text.items printer.new.text.items (O.held out.old) (O.held out.new) printer.old.room printer.new.room }
    ensures cause { Counts (O.fault_count out.old) (O.fault_count out.new) (result ≡ Dumped.WriteFault) }
{
    match printer.print_sweep(false, tables.expiry(), out) {
        Dumped::Ok => printer.print_sweep(true, tables.retention(), out),
        Dumped::WriteFault => Dumped::WriteFault,
        Dumped::Memory => Dumped::Memory,
    }
}

fn print_all_nodes<O: Sink + Drop>(
    alloc: Global,
    printer: &mut Printer,
    tables: &Tables,
    out: &mut O,
) -> Dumped
    requires { AllByRecursion IsDumpableNode tables.now.nodes }
    ensures which { Printed result (flat_map node_items tables.now.nodes) printer.old.text.items printer.new.text.items
        (O.held out.old) (O.held out.new) printer.old.room printer.new.room }
    ensures cause { Counts (O.fault_count out.old) (O.fault_count out.new) (result ≡ Dumped.WriteFault) }
{
    match tables.node_lists() {
        Ok(lists) => print_lists(alloc, printer, lists.as_slice(), out),
        Err(_) => Dumped::Memory,
    }
}

// ---- loops over lists, nodes and changes

fn print_lists<O: Sink + Drop>(
    alloc: Global,
    printer: &mut Printer,
    lists: &[&[Box<Node>]],
    out: &mut O,
) -> Dumped
    requires { AllByRecursion (λ nodes. AllByRecursion IsDumpableNode (seen_in nodes.now)) lists.now }
    ensures which { Printed result (flat_map (λ nodes. flat_map node_items (seen_in nodes.now)) lists.now)
        printer.old.text.items printer.new.text.items (O.held out.old) (O.held out.new) printer.old.room printer.new.room }
    ensures cause { Counts (O.fault_count out.old) (O.fault_count out.new) (result ≡ Dumped.WriteFault) }
{
    'lists: for nodes in lists {
        match print_nodes(alloc, printer, nodes, out) {
            Dumped::Ok => {}
            Dumped::WriteFault => return Dumped::WriteFault,
            Dumped::Memory => return Dumped::Memory,
        }
    }
    Dumped::Ok
}

fn print_nodes<O: Sink + Drop>(
    alloc: Global,
    printer: &mut Printer,
    nodes: &[Box<Node>],
    out: &mut O,
) -> Dumped
    requires { AllByRecursion IsDumpableNode (seen_in nodes.now) }
    ensures which { Printed result (flat_map node_items (seen_in nodes.now)) printer.old.text.items printer.new.text.items
        (O.held out.old) (O.held out.new) printer.old.room printer.new.room }
    ensures cause { Counts (O.fault_count out.old) (O.fault_count out.new) (result ≡ Dumped.WriteFault) }
{
    'nodes: for node in nodes {
        match print_node(alloc, printer, node, out) {
            Dumped::Ok => {}
            Dumped::WriteFault => return Dumped::WriteFault,
            Dumped::Memory => return Dumped::Memory,
        }
    }
    Dumped::Ok
}

fn print_node<O: Sink + Drop>(
    alloc: Global,
    printer: &mut Printer,
    node: &Node,
    out: &mut O,
) -> Dumped
    requires { IsDumpableNode (node_seen node.now) }
    ensures which { Printed result (node_items (node_seen node.now)) printer.old.text.items printer.new.text.items
        (O.held out.old) (O.held out.new) printer.old.room printer.new.room }
    ensures cause { Counts (O.fault_count out.old) (O.fault_count out.new) (result ≡ Dumped.WriteFault) }
{
    match print_newest(printer, node, out) {
        Dumped::Ok => print_ranked(alloc, printer, node.reports.as_slice(), out),
        Dumped::WriteFault => Dumped::WriteFault,
        Dumped::Memory => Dumped::Memory,
    }
}

// Writes the reports by rank.
fn print_ranked<O: Sink + Drop>(
    alloc: Global,
    printer: &mut Printer,
    reports: &[HeldReport],
    out: &mut O,
) -> Dumped
    requires { AllByRecursion IsChange (map change_in (sorted_by by_rank (map report_seen reports.now))) }
    ensures which { Printed result (map change_item (map change_in (sorted_by by_rank (map report_seen reports.now))))
        printer.old.text.items printer.new.text.items (O.held out.old) (O.held out.new) printer.old.room printer.new.room }
    ensures cause { Counts (O.fault_count out.old) (O.fault_count out.new) (result ≡ Dumped.WriteFault) }
{
    match reports_by_rank(alloc, reports) {
        Ok(ranked) => print_reports(printer, ranked.as_slice(), out),
        Err(_) => Dumped::Memory,
    }
}

fn print_reports<O: Sink + Drop>(
    printer: &mut Printer,
    reports: &[&HeldReport],
    out: &mut O,
) -> Dumped
    requires { AllByRecursion (λ report. IsChange (report_seen report.now).change) reports.now }
    ensures which { Printed result (flat_map (λ report. change_item (report_seen report.now).change ∷ []) reports.now)
        printer.old.text.items printer.new.text.items (O.held out.old) (O.held out.new) printer.old.room printer.new.room }
    ensures cause { Counts (O.fault_count out.old) (O.fault_count out.new) (result ≡ Dumped.WriteFault) }
{
    'reports: for report in reports {
        match print_report(printer, report, out) {
            Dumped::Ok => {}
            Dumped::WriteFault => return Dumped::WriteFault,
            Dumped::Memory => return Dumped::Memory,
        }
    }
    Dumped::Ok
}

fn print_report<O: Sink + Drop>(printer: &mut Printer, report: &HeldReport, out: &mut O) -> Dumped
    requires { IsChange (report_seen report.now).change }
    ensures which { Printed result (change_item (report_seen report.now).change ∷ []) printer.old.text.items printer.new.text.items
        (O.held out.old) (O.held out.new) printer.old.room printer.new.room }
    ensures cause { Counts (O.fault_count out.old) (O.fault_count out.new) (result ≡ Dumped.WriteFault) }
{
    printer.print_change(&ChangeRef::Report(&report.report().change), out)
}
