//! The laws of answers. Each law is the contract of a function with an empty body.
ghost use Rattle.std.specs.Prelude.{◌≡◌, ◌⊎◌, ℕ, ℤ, ◌<◌, ◌^◌, List, [], ◌∷◌, Bool, Some, None, Ok, Err, codes, IsTrue, if◌then◌else◌};
ghost use Rattle.query_answer.specs.fleet_rows.declared.command.Command.{Command};
ghost use Rattle.query_answer.specs.fleet_rows.declared.row.Entity.{Entity};
ghost use Rattle.query_answer.specs.fleet_rows.declared.row.Entity.TheVariants.{Nodes};
ghost use Rattle.query_answer.specs.fleet_rows.declared.settings.Ttls.{Ttls};
ghost use Rattle.query_answer.specs.history_spec.Trace.{Trace};
ghost use Rattle.paging_params.specs.table_spec.Rows.{active_rows};
ghost use Rattle.paging_params.specs.table_spec.RowsText.{rows_text};
ghost use Rattle.http_spec.specs.declared.answer.Answer.{Answer};
ghost use Rattle.http_spec.specs.declared.request.Request.{Request};
ghost use Rattle.http_spec.specs.Answers.{memory_answer};
ghost use Rattle.http_spec.specs.Requests.{End, RequestsOf};
ghost use Rattle.query_answer.specs.query_spec.Answer.{is_queryable};
ghost use Rattle.query_answer.specs.means_spec.OutRows.{OutRows, lines_text};
ghost use Rattle.query_answer.specs.means_spec.World.{World, world_of};
ghost use Rattle.routes_spec.specs.Answers.{Met, nothing_met, done, IsAnswer, submitted_answer, uuid_text};
ghost use Rattle.routes_spec.specs.Commands.{command, checked_command};
ghost use Rattle.routes_spec.specs.HandedIn.{Posts};
ghost use Rattle.routes_spec.specs.Links.{Stop, whole, IsServed, CloseAtEnd};
ghost use Rattle.routes_spec.specs.Parameters.{parameters_of};
ghost use Rattle.routes_spec.specs.Routes.{route_path, is_route, route_at, path_of, query_of};

use crate::route::Route;
use fleet_rows::{Kind, Submitted};

/// A request has at most one answer, once it is known what happened with it.
pub fn a_request_has_one_answer()
    ensures { (w : World) (print : OutRows → List ℕ) (now : ℤ) (r : Request) (met : Met) (a b : Answer)
        → IsAnswer w print now r met a → IsAnswer w print now r met b → a ≡ b }
{}

/// Distinct receipts have distinct UUIDs.
pub fn a_uuid_tells_its_receipt()
    ensures { (r s : ℕ) → r < 2 ^ 64 → s < 2 ^ 64 → uuid_text r ≡ uuid_text s → r ≡ s }
{}

/// A submitted command was posted to the command endpoint: the request's parameters and body are the command's, received at the
/// given moment.
pub fn a_command_is_handed_in_as_posted()
    ensures { (w : World) (print : OutRows → List ℕ) (now : ℤ) (r : Request) (met : Met) (a : Answer) (c : Command) (s : Submitted)
        → IsAnswer w print now r met a → met.submitted ≡ Some (c, s) → Posts now r c }
{}

/// A command that is posted this way is submitted, and the answer tells what `submit` answered.
pub fn a_posted_command_is_handed_in()
    ensures { (w : World) (print : OutRows → List ℕ) (now : ℤ) (r : Request) (c : Command) (s : Submitted)
        → Posts now r c → IsAnswer w print now r (record { submitted = Some (c, s); asked = [] }) (submitted_answer r.ends s) }
{}

/// The answer to a wrong post tells the first error, by example.
pub fn posts_are_checked_so()
    ensures command { (now : ℤ) (body : List ℕ) → checked_command now [] body None ≡ Err (codes "missing command") }
    ensures version { (now : ℤ) (body : List ℕ) → checked_command now ((codes "command", []) ∷ []) body None ≡ Err (codes "missing version") }
    ensures certname { (now : ℤ) (body : List ℕ)
        → checked_command now ((codes "version", codes "01") ∷ (codes "command", []) ∷ (codes "certname", []) ∷ []) body None
        ≡ Err (codes "missing certname") }
    ensures bad_version { (now : ℤ) (body : List ℕ)
        → checked_command now ((codes "version", codes "01") ∷ (codes "command", []) ∷ (codes "certname", codes "a") ∷ []) body None
        ≡ Err (codes "bad version") }
    ensures bad_command { (now : ℤ) (body : List ℕ)
        → checked_command now ((codes "version", codes "5") ∷ (codes "command", []) ∷ (codes "certname", codes "a") ∷ []) body (Some 5)
        ≡ Err (codes "bad command") }
    ensures good { (now : ℤ) (body : List ℕ)
        → checked_command now ((codes "version", codes "5") ∷ (codes "command", codes "replace_facts") ∷ (codes "certname", codes "a") ∷ []) body (Some 5)
        ≡ Ok (command Kind.Facts 5 now body) }
{}

/// An answer ends the connection exactly if its request does, except for the answer that memory ran out.
pub fn answers_end_links_as_requests_say()
    ensures { (w : World) (print : OutRows → List ℕ) (now : ℤ) (r : Request) (met : Met) (a : Answer)
        → IsAnswer w print now r met a → (a.close ≡ r.ends) ⊎ (a ≡ memory_answer) }
{}

/// No answer of the table has the header `X-Fleet-Seen`. A server that sends it adds the number to such an answer.
pub fn no_answer_tells_what_was_seen()
    ensures { (w : World) (print : OutRows → List ℕ) (now : ℤ) (r : Request) (met : Met) (a : Answer)
        → IsAnswer w print now r met a → a.seen ≡ None }
{}

/// A route that requests may use is found by its path, and by no other path.
pub fn a_route_has_its_path()
    ensures found { (r : Route) → route_at (route_path r) ≡ (if is_route r then Some r else None) }
    ensures only { (path : List ℕ) (r : Route) → route_at path ≡ Some r → path ≡ route_path r }
{}

/// A GET on an entity's route without parameters returns the rows of its table that belong to active nodes. The entity is one
/// that queries may name.
pub fn an_entity_is_shown_on_its_route()
    ensures { (e : Entity) (ttls : Ttls) (history : Trace) (matches : List ℕ → List ℕ → Bool) (now : ℤ) (r : Request)
        → IsTrue (is_queryable e) → r.method ≡ codes "GET" → r.target ≡ route_path (Route.RowsOf e)
        → IsAnswer (world_of ttls history matches) lines_text now r nothing_met (done r.ends None (rows_text e (active_rows e ttls history))) }
{}

/// Targets, parameters and UUIDs, by example.
pub fn requests_are_read_so()
    ensures path { path_of (codes "/pdb/query/v4/nodes?query=a?b") ≡ codes "/pdb/query/v4/nodes" }
    ensures query { query_of (codes "/pdb/query/v4/nodes?query=a?b") ≡ codes "query=a?b" }
    ensures no_query { query_of (codes "/pdb/query/v4/nodes") ≡ [] }
    ensures nodes { route_at (codes "/pdb/query/v4/nodes") ≡ Some (Route.RowsOf Nodes) }
    ensures none { route_at (codes "/pdb/query/v4/nodes/") ≡ None }
    ensures parameters { parameters_of (codes "a=1&b=%20+x&&c") ≡ (codes "a", codes "1") ∷ (codes "b", codes "  x") ∷ (codes "c", []) ∷ [] }
    ensures first { uuid_text 1 ≡ codes "00000000-0000-8000-8000-000000000001" }
    ensures last { uuid_text 18_446_744_073_709_551_615 ≡ codes "ffffffff-0000-8000-8000-0000ffffffff" }
{}

/// If answering ends with the connection, the answered requests are those of the connection.
pub fn answered_requests_are_those_of_the_link()
    ensures { (w : World) (print : OutRows → List ℕ) (now : ℤ) (bytes : List ℕ) (requests : List Request) (end : End) (mets : List Met) (answers : List Answer)
        → IsServed w print now bytes requests (whole end) mets answers → RequestsOf bytes requests end }
{}

/// Only the last answer ends a connection. No answer does if the connection's bytes ended or it failed.
pub fn only_the_last_answer_ends_a_link()
    ensures { (w : World) (print : OutRows → List ℕ) (now : ℤ) (bytes : List ℕ) (requests : List Request) (stop : Stop) (mets : List Met)
        (answers : List Answer)
        → IsServed w print now bytes requests stop mets answers → CloseAtEnd stop answers }
{}
