//! Writes the newest commands of a node, and where it is needed an empty report.
ghost use Rattle.std.specs.Prelude.{◌≡◌, ◌++◌, List, map, option_map};
ghost use Rattle.std.specs.List.{AllByRecursion};
ghost use Rattle.fleet_ports.specs.Counts.{Counts};
ghost use Rattle.dump_writer.specs.dump_spec.fleet_rows.declared.applied.Applied.{Applied};
ghost use Rattle.dump_writer.specs.dump_spec.history_spec.Lawful.{IsChange};
ghost use Rattle.dump_writer.specs.dump_spec.history_spec.Node.{greatest_activity};
ghost use Rattle.dump_writer.specs.dump_spec.list_again.Told.{if_there};
ghost use Rattle.dump_writer.specs.dump_spec.list_again.Whole.{greatest_there, is_moment, lacking};
ghost use Rattle.dump_writer.specs.dump_spec.table_spec.Rows.{change_of};
ghost use Rattle.kept_nodes.specs.Seen.{node_seen, facts_seen, catalog_seen, deactivation_seen, expiration_seen, report_seen};
ghost use Rattle.fleet_dump.specs.Dumpable.{newest_changes, from_catalog, from_expiration, from_deactivation};
ghost use Rattle.fleet_dump.specs.Printed.{change_item, Printed};

use crate::printer::{Dumped, Printer};
use dump_writer::ChangeRef;
use fleet_ports::Sink;
use fleet_rows::stamp_time::Moment;
use kept_nodes::{Deactivation, Expiration, Factset, HeldReport, Node, NodeCatalog, later};

/// Writes the node's newest facts, catalog, expiration and deactivation. Then an empty report, if its greatest activity is the
/// stamp of nothing that it has.
pub(crate) fn print_newest<O: Sink + Drop>(
    printer: &mut Printer,
    node: &Node,
    out: &mut O,
) -> Dumped
    requires { AllByRecursion IsChange (newest_changes (node_seen node.now)) }
    ensures which { Printed result (map change_item (newest_changes (node_seen node.now))) printer.old.text.items printer.new.text.items
        (O.held out.old) (O.held out.new) printer.old.room printer.new.room }
    ensures cause { Counts (O.fault_count out.old) (O.fault_count out.new) (result ≡ Dumped.WriteFault) }
{
    match print_facts(printer, &node.facts, out) {
        Dumped::Ok => print_from_catalog(printer, node, out),
        Dumped::WriteFault => Dumped::WriteFault,
        Dumped::Memory => Dumped::Memory,
    }
}

fn print_from_catalog<O: Sink + Drop>(printer: &mut Printer, node: &Node, out: &mut O) -> Dumped
    requires { AllByRecursion IsChange (from_catalog (node_seen node.now)) }
    ensures which { Printed result (map change_item (from_catalog (node_seen node.now))) printer.old.text.items printer.new.text.items
        (O.held out.old) (O.held out.new) printer.old.room printer.new.room }
    ensures cause { Counts (O.fault_count out.old) (O.fault_count out.new) (result ≡ Dumped.WriteFault) }
{
    match print_catalog(printer, &node.catalog, out) {
        Dumped::Ok => print_from_expiration(printer, node, out),
        Dumped::WriteFault => Dumped::WriteFault,
        Dumped::Memory => Dumped::Memory,
    }
}

fn print_from_expiration<O: Sink + Drop>(printer: &mut Printer, node: &Node, out: &mut O) -> Dumped
    requires { AllByRecursion IsChange (from_expiration (node_seen node.now)) }
    ensures which { Printed result (map change_item (from_expiration (node_seen node.now))) printer.old.text.items printer.new.text.items
        (O.held out.old) (O.held out.new) printer.old.room printer.new.room }
    ensures cause { Counts (O.fault_count out.old) (O.fault_count out.new) (result ≡ Dumped.WriteFault) }
{
    match print_expiration(printer, &node.expiration, out) {
        Dumped::Ok => print_from_deactivation(printer, node, out),
        Dumped::WriteFault => Dumped::WriteFault,
        Dumped::Memory => Dumped::Memory,
    }
}

fn print_from_deactivation<O: Sink + Drop>(
    printer: &mut Printer,
    node: &Node,
    out: &mut O,
) -> Dumped
    requires { AllByRecursion IsChange (from_deactivation (node_seen node.now)) }
    ensures which { Printed result (map change_item (from_deactivation (node_seen node.now))) printer.old.text.items printer.new.text.items
        (O.held out.old) (O.held out.new) printer.old.room printer.new.room }
    ensures cause { Counts (O.fault_count out.old) (O.fault_count out.new) (result ≡ Dumped.WriteFault) }
{
    match print_deactivation(printer, &node.deactivation, out) {
        Dumped::Ok => print_lacking(printer, node, out),
        Dumped::WriteFault => Dumped::WriteFault,
        Dumped::Memory => Dumped::Memory,
    }
}

// ---- one change

fn print_facts<O: Sink + Drop>(
    printer: &mut Printer,
    facts: &Option<Factset>,
    out: &mut O,
) -> Dumped
    requires { AllByRecursion IsChange (if_there (change_of (option_map facts_seen facts.now))) }
    ensures which { Printed result (map change_item (if_there (change_of (option_map facts_seen facts.now))))
        printer.old.text.items printer.new.text.items (O.held out.old) (O.held out.new) printer.old.room printer.new.room }
    ensures cause { Counts (O.fault_count out.old) (O.fault_count out.new) (result ≡ Dumped.WriteFault) }
{
    match facts {
        Some(kept) => printer.print_change(&ChangeRef::Facts(&kept.change), out),
        None => Dumped::Ok,
    }
}

fn print_catalog<O: Sink + Drop>(
    printer: &mut Printer,
    catalog: &Option<NodeCatalog>,
    out: &mut O,
) -> Dumped
    requires { AllByRecursion IsChange (if_there (change_of (option_map catalog_seen catalog.now))) }
    ensures which { Printed result (map change_item (if_there (change_of (option_map catalog_seen catalog.now))))
        printer.old.text.items printer.new.text.items (O.held out.old) (O.held out.new) printer.old.room printer.new.room }
    ensures cause { Counts (O.fault_count out.old) (O.fault_count out.new) (result ≡ Dumped.WriteFault) }
{
    match catalog {
        Some(kept) => printer.print_change(&ChangeRef::Catalog(&kept.change), out),
        None => Dumped::Ok,
    }
}

fn print_expiration<O: Sink + Drop>(
    printer: &mut Printer,
    expiration: &Option<Expiration>,
    out: &mut O,
) -> Dumped
    requires { AllByRecursion IsChange (if_there (change_of (option_map expiration_seen expiration.now))) }
    ensures which { Printed result (map change_item (if_there (change_of (option_map expiration_seen expiration.now))))
        printer.old.text.items printer.new.text.items (O.held out.old) (O.held out.new) printer.old.room printer.new.room }
    ensures cause { Counts (O.fault_count out.old) (O.fault_count out.new) (result ≡ Dumped.WriteFault) }
{
    match expiration {
        Some(kept) => printer.print_change(&ChangeRef::Expiration(&kept.change), out),
        None => Dumped::Ok,
    }
}

fn print_deactivation<O: Sink + Drop>(
    printer: &mut Printer,
    deactivation: &Option<Deactivation>,
    out: &mut O,
) -> Dumped
    requires { AllByRecursion IsChange (if_there (change_of (option_map deactivation_seen deactivation.now))) }
    ensures which { Printed result (map change_item (if_there (change_of (option_map deactivation_seen deactivation.now))))
        printer.old.text.items printer.new.text.items (O.held out.old) (O.held out.new) printer.old.room printer.new.room }
    ensures cause { Counts (O.fault_count out.old) (O.fault_count out.new) (result ≡ Dumped.WriteFault) }
{
    match deactivation {
        Some(kept) => printer.print_change(&ChangeRef::Deactivate(&kept.change), out),
        None => Dumped::Ok,
    }
}

fn print_lacking<O: Sink + Drop>(printer: &mut Printer, node: &Node, out: &mut O) -> Dumped
    requires { AllByRecursion IsChange (if_there (lacking node.now.certname node.now.active (greatest_there (node_seen node.now)))) }
    ensures which { Printed result (map change_item (if_there (lacking node.now.certname node.now.active (greatest_there (node_seen node.now)))))
        printer.old.text.items printer.new.text.items (O.held out.old) (O.held out.new) printer.old.room printer.new.room }
    ensures cause { Counts (O.fault_count out.old) (O.fault_count out.new) (result ≡ Dumped.WriteFault) }
{
    match node.active {
        Some(active) => {
            if is_moment(active, greatest_there(node)) {
                Dumped::Ok
            } else {
                printer.print_change(&ChangeRef::Empty(&node.certname, active), out)
            }
        }
        None => Dumped::Ok,
    }
}

// ---- the greatest activity that is there

fn is_moment(moment: Moment, there: Option<Moment>) -> bool
    ensures { result ≡ is_moment moment there }
{
    match there {
        Some(other) => moment == other,
        None => false,
    }
}

// The greatest stamp of the node's facts, its catalog and its reports.
fn greatest_there(node: &Node) -> Option<Moment>
    ensures { result ≡ greatest_there (node_seen node.now) }
{
    let reports = greatest_of(node.reports.as_slice());
    with_facts(&node.facts, with_catalog(&node.catalog, reports))
}

fn with_facts(facts: &Option<Factset>, greatest: Option<Moment>) -> Option<Moment>
    ensures { (xs : List Applied) → greatest ≡ greatest_activity xs
        → result ≡ greatest_activity (if_there (option_map facts_seen facts.now) ++ xs) }
{
    match facts {
        Some(kept) => later(kept.change.stamp, greatest),
        None => greatest,
    }
}

fn with_catalog(catalog: &Option<NodeCatalog>, greatest: Option<Moment>) -> Option<Moment>
    ensures { (xs : List Applied) → greatest ≡ greatest_activity xs
        → result ≡ greatest_activity (if_there (option_map catalog_seen catalog.now) ++ xs) }
{
    match catalog {
        Some(kept) => later(kept.change.stamp, greatest),
        None => greatest,
    }
}

fn greatest_of(reports: &[HeldReport]) -> Option<Moment>
    ensures { result ≡ greatest_activity (map report_seen reports.now) }
{
    let mut greatest = None;
    let mut at = reports.len();
    'reports: while at > 0 {
        at -= 1;
        greatest = later(stamp_of(&reports[at]), greatest);
    }
    greatest
}

fn stamp_of(report: &HeldReport) -> Moment
    ensures { result ≡ report.now.change.stamp }
{
    report.report().change.stamp()
}
