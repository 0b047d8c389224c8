//! Reads a request to sweep the tables.
ghost use Rattle.std.specs.Prelude.{◌≡◌, Some, codes};
ghost use Rattle.http_routes.specs.routes.Routes.{is_post};
ghost use Rattle.paging_params.specs.Params.{last_under};
ghost use Rattle.live_links.specs.Sweeps.{is_sweep, kinds_named, IsMoment};
ghost use Rattle.live_links.specs.SweepSteps.{Tells, IsTold, at_moment, with_kinds, with_at};
ghost use Rattle.live_links.specs.Sweeps.{IsSweepAsked};

use fleet_rows::Kinds;
use http_routes::{is_post, last_under, path_of};
use http_spec::Request;
use json_tree::Text;
use stamp_time::{Moment, read_stamp};

/// What a request to sweep asks for.
#[derive(Clone, Copy)]
pub(crate) enum SweepAsked {
    /// A sweep of these kinds at this moment.
    Sweep(Kinds, Moment),
    /// None, for this reason.
    Bad(&'static [u8]),
}

// Whether the target is that of the route that sweeps.
fn is_sweep(target: &[u8]) -> bool
    ensures { result ≡ is_sweep target.now }
{
    path_of(target) == b"/pdb/admin/v1/sweep".as_slice()
}

/// Whether the request is one to the route that sweeps.
pub(crate) fn asks_sweep(request: &Request) -> bool
    ensures { result ≡ is_sweep request.now.target }
{
    is_sweep(request.target.as_slice())
}

/// Whether the request's method is POST.
pub(crate) fn is_posted(request: &Request) -> bool
    ensures { result ≡ is_post request.now.method }
{
    is_post(request.method.as_slice())
}

// The kinds that the text names.
#[tactic(auto, unfolding(crate::specs::Sweeps::kinds_named))]
fn kinds_named(text: &str) -> Option<Kinds>
    ensures { result ≡ kinds_named text.now }
{
    if text == "expire" {
        kinds(true, false, false)
    } else if text == "purge" {
        kinds(false, true, false)
    } else if text == "reports" {
        kinds(false, false, true)
    } else if text == "expire,purge" {
        kinds(true, true, false)
    } else if text == "expire,reports" {
        kinds(true, false, true)
    } else if text == "purge,reports" {
        kinds(false, true, true)
    } else if text == "expire,purge,reports" {
        kinds(true, true, true)
    } else {
        None
    }
}

fn kinds(expire: bool, purge: bool, reports: bool) -> Option<Kinds>
    ensures { result ≡ Some (record { expire = expire; purge = purge; reports = reports }) }
{
    Some(Kinds {
        expire,
        purge,
        reports,
    })
}

// The moment among the parameters, if it is a stamp.
fn moment_in(list: &[(Text, Text)]) -> Option<Moment>
    ensures { IsMoment (last_under (codes "at") list.now) result }
{
    match last_under(list, "at") {
        Some(text) => read_stamp(text.as_str()),
        None => None,
    }
}

// Checks the moment.
fn at_moment(kinds: Kinds, moment: Option<Moment>) -> SweepAsked
    ensures { Tells result (at_moment kinds moment) }
{
    match moment {
        Some(m) => SweepAsked::Sweep(kinds, m),
        None => SweepAsked::Bad(b"bad at"),
    }
}

// Checks the kinds, then the moment.
fn with_at(text: &Text, moment: Option<Moment>) -> SweepAsked
    ensures { Tells result (with_at text.now moment) }
{
    match kinds_named(text.as_str()) {
        Some(kinds) => at_moment(kinds, moment),
        None => SweepAsked::Bad(b"bad kinds"),
    }
}

// Checks that a moment is given, then the rest.
fn with_kinds(list: &[(Text, Text)], text: &Text, moment: Option<Moment>) -> SweepAsked
    ensures { Tells result (with_kinds list.now moment text.now) }
{
    match last_under(list, "at") {
        Some(_stamp) => with_at(text, moment),
        None => SweepAsked::Bad(b"missing at"),
    }
}

/// The sweep that these parameters ask for.
pub(crate) fn sweep_asked(list: &[(Text, Text)]) -> SweepAsked
    ensures { IsTold result (IsSweepAsked list.now) }
{
    let moment = moment_in(list);
    match last_under(list, "kinds") {
        Some(text) => with_kinds(list, text, moment),
        None => SweepAsked::Bad(b"missing kinds"),
    }
}
