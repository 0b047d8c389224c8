//! Lists the marks and the commands of nodes, as a checkpoint has them.
ghost use Rattle.std.specs.Prelude.{◌≡◌, [], ◌∷◌, ◌++◌, map, flat_map, option_map, OnOk, IfOk};
ghost use Rattle.checkpoint_spec.specs.history_spec.Trace.{applied_as};
ghost use Rattle.checkpoint_spec.specs.table_machine.Node.{stamp_of_newest};
ghost use Rattle.checkpoint_spec.specs.Lists.{by_rank, commands_of, if_kept, mark_of};
ghost use Rattle.checkpoint_spec.specs.table_spec.Sorted.{sorted_by};
ghost use Rattle.kept_nodes.specs.Places.{seen_in};
ghost use Rattle.kept_nodes.specs.Seen.{catalog_seen, deactivation_seen, expiration_seen, facts_seen, node_seen, report_seen};

use crate::kept::{Deactivation, Expiration, Factset, HeldReport, NodeCatalog};
use crate::node::Node;
use fleet_rows::json_tree::Text;
use fleet_rows::stamp_time::Moment;
use fleet_rows::{
    Applied, Change, Kepts, Mark, Marks, copy_catalog, copy_deactivation, copy_expiration,
    copy_facts,
};
use std::alloc::{AllocError, Global};
use std::cmp::Ordering;

// ---- marks

/// Appends the mark of each node.
pub fn push_marks(alloc: Global, nodes: &[Box<Node>], marks: &mut Marks) -> Result<(), AllocError>
    ensures { OnOk result (marks.new ≡ marks.old ++ map mark_of (seen_in nodes.now)) }
{
    'listing: for node in nodes {
        marks.push(node.mark(alloc)?)?;
    }
    Ok(())
}

impl Node {
    fn mark(&self, alloc: Global) -> Result<Mark, AllocError>
        ensures { IfOk result (λ mark. mark ≡ mark_of (node_seen self.now)) }
    {
        let certname = Text::from_str(alloc, self.certname.as_str())?;
        Ok(Mark {
            certname,
            active: self.active,
            deactivated: stamp_of(&self.deactivation),
        })
    }

    // Appends the node's commands.
    fn push(&self, alloc: Global, commands: &mut Kepts) -> Result<(), AllocError>
        ensures { OnOk result (commands.new ≡ commands.old ++ commands_of (node_seen self.now)) }
    {
        push_facts(alloc, &self.facts, commands)?;
        push_catalog(alloc, &self.catalog, commands)?;
        push_deactivation(alloc, &self.deactivation, commands)?;
        push_expiration(alloc, &self.expiration, commands)?;
        push_ranked(alloc, self.reports.as_slice(), commands)
    }
}

fn stamp_of(deactivation: &Option<Deactivation>) -> Option<Moment>
    ensures { result ≡ stamp_of_newest (option_map deactivation_seen deactivation.now) }
{
    match deactivation {
        Some(kept) => Some(kept.change.stamp),
        None => None,
    }
}

// ---- commands

/// Appends the commands of each node.
pub fn push_commands(
    alloc: Global,
    nodes: &[Box<Node>],
    commands: &mut Kepts,
) -> Result<(), AllocError>
    ensures { OnOk result (commands.new ≡ commands.old ++ flat_map commands_of (seen_in nodes.now)) }
{
    'listing: for node in nodes {
        node.push(alloc, commands)?;
    }
    Ok(())
}

fn push_facts(
    alloc: Global,
    facts: &Option<Factset>,
    commands: &mut Kepts,
) -> Result<(), AllocError>
    ensures { OnOk result (commands.new ≡ commands.old ++ if_kept (option_map facts_seen facts.now)) }
{
    match facts {
        Some(kept) => {
            let change = copy_facts(alloc, &kept.change)?;
            push(commands, kept.receipt, kept.received, Change::Facts(change))
        }
        None => Ok(()),
    }
}

fn push_catalog(
    alloc: Global,
    catalog: &Option<NodeCatalog>,
    commands: &mut Kepts,
) -> Result<(), AllocError>
    ensures { OnOk result (commands.new ≡ commands.old ++ if_kept (option_map catalog_seen catalog.now)) }
{
    match catalog {
        Some(kept) => {
            let change = copy_catalog(alloc, &kept.change)?;
            push(
                commands,
                kept.receipt,
                kept.received,
                Change::Catalog(change),
            )
        }
        None => Ok(()),
    }
}

fn push_deactivation(
    alloc: Global,
    deactivation: &Option<Deactivation>,
    commands: &mut Kepts,
) -> Result<(), AllocError>
    ensures { OnOk result (commands.new ≡ commands.old ++ if_kept (option_map deactivation_seen deactivation.now)) }
{
    match deactivation {
        Some(kept) => {
            let change = copy_deactivation(alloc, &kept.change)?;
            push(
                commands,
                kept.receipt,
                kept.received,
                Change::Deactivate(change),
            )
        }
        None => Ok(()),
    }
}

fn push_expiration(
    alloc: Global,
    expiration: &Option<Expiration>,
    commands: &mut Kepts,
) -> Result<(), AllocError>
    ensures { OnOk result (commands.new ≡ commands.old ++ if_kept (option_map expiration_seen expiration.now)) }
{
    match expiration {
        Some(kept) => {
            let change = copy_expiration(alloc, &kept.change)?;
            push(
                commands,
                kept.receipt,
                kept.received,
                Change::Expiration(change),
            )
        }
        None => Ok(()),
    }
}

fn push(
    commands: &mut Kepts,
    receipt: u64,
    received: Option<Moment>,
    change: Change,
) -> Result<(), AllocError>
    ensures { OnOk result (commands.new ≡ commands.old ++ applied_as receipt received change ∷ []) }
{
    commands.push(Applied {
        receipt,
        received,
        change,
    })
}

// ---- reports

// Reports are stored by timestamp, then by text. To sort them by rank, those with equal timestamps are ordered by receipt.
fn push_ranked(
    alloc: Global,
    reports: &[HeldReport],
    commands: &mut Kepts,
) -> Result<(), AllocError>
    ensures { OnOk result (commands.new ≡ commands.old ++ sorted_by by_rank (map report_seen reports.now)) }
{
    let ranked = reports_by_rank(alloc, reports)?;
    push_reports(alloc, ranked.as_slice(), commands)
}

/// The reports by rank, by reference. It copies no report.
pub fn reports_by_rank(
    alloc: Global,
    reports: &[HeldReport],
) -> Result<Vec<&HeldReport>, AllocError>
    ensures { IfOk result (λ v. map (λ r. report_seen r.now) v.items ≡ sorted_by by_rank (map report_seen reports.now)) }
{
    let mut ranked = references(alloc, reports)?;
    ranked.sort_by(|a, b| rank_cmp(a, b))?;
    Ok(ranked)
}

fn references(alloc: Global, reports: &[HeldReport]) -> Result<Vec<&HeldReport>, AllocError>
    ensures { IfOk result (λ v. map (λ r. r.now) v.items ≡ reports.now) }
{
    let mut referred = Vec::with_capacity(alloc, reports.len())?;
    for at in 0..reports.len() {
        referred.push(&reports[at])?;
    }
    Ok(referred)
}

fn rank_cmp(a: &HeldReport, b: &HeldReport) -> Ordering
    ensures { result ≡ by_rank (report_seen a.now) (report_seen b.now) }
{
    a.report().rank().order(&b.report().rank())
}

fn push_reports(
    alloc: Global,
    reports: &[&HeldReport],
    commands: &mut Kepts,
) -> Result<(), AllocError>
    ensures { OnOk result (commands.new ≡ commands.old ++ map (λ r. report_seen r.now) reports.now) }
{
    'listing: for report in reports {
        push_report(alloc, report, commands)?;
    }
    Ok(())
}

fn push_report(alloc: Global, report: &HeldReport, commands: &mut Kepts) -> Result<(), AllocError>
    ensures { OnOk result (commands.new ≡ commands.old ++ report_seen report.now ∷ []) }
{
    let kept = report.report();
    let change = kept.change.unpack(alloc)?;
    push(
        commands,
        kept.receipt,
        kept.received,
        Change::Report(change),
    )
}
