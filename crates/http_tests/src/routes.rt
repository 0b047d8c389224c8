//! The routes and their methods.
use crate::play::play;
use crate::wrong::Wrong;

/// What each route answers to a GET, and to an empty object that is posted, over no commands; and to other methods.
const ROUTES: &str = r#"for nodes factsets facts catalogs resources edges reports
ask GET /pdb/query/v4/<it>
ok []

for nodes factsets facts catalogs resources edges reports
ask POST /pdb/query/v4/<it> {}
ok []

ask GET /pdb/query/v4
bad {"error":"missing query"}

ask POST /pdb/query/v4 {}
bad {"error":"missing query"}

ask GET /pdb/cmd/v1
answer 405 Method Not Allowed||{"error":"bad method"}

ask POST /pdb/cmd/v1 {}
bad {"error":"missing command"}

for PUT HEAD DELETE OPTIONS get
ask <it> /pdb/query/v4/nodes {}
answer 405 Method Not Allowed||{"error":"bad method"}

for PUT HEAD DELETE OPTIONS get
ask <it> /pdb/query/v4/factsets {}
answer 405 Method Not Allowed||{"error":"bad method"}

for PUT HEAD DELETE OPTIONS get
ask <it> /pdb/query/v4/facts {}
answer 405 Method Not Allowed||{"error":"bad method"}

for PUT HEAD DELETE OPTIONS get
ask <it> /pdb/query/v4/catalogs {}
answer 405 Method Not Allowed||{"error":"bad method"}

for PUT HEAD DELETE OPTIONS get
ask <it> /pdb/query/v4/resources {}
answer 405 Method Not Allowed||{"error":"bad method"}

for PUT HEAD DELETE OPTIONS get
ask <it> /pdb/query/v4/edges {}
answer 405 Method Not Allowed||{"error":"bad method"}

for PUT HEAD DELETE OPTIONS get
ask <it> /pdb/query/v4/reports {}
answer 405 Method Not Allowed||{"error":"bad method"}

for PUT HEAD DELETE OPTIONS get
ask <it> /pdb/query/v4 {}
answer 405 Method Not Allowed||{"error":"bad method"}

for PUT HEAD DELETE OPTIONS get
ask <it> /pdb/cmd/v1 {}
answer 405 Method Not Allowed||{"error":"bad method"}"#;

#[test]
fn each_route_takes_its_methods(rt: HostRuntime) -> Result<(), Wrong> {
    play(rt.alloc(), "", "", ROUTES)
}

/// Paths of no route.
const NO_ROUTES: &str = r#"\
for / * /pdb /pdb/query/v4/ /pdb/query/v4/nodes/ /pdb/query/v4/nodes/n /pdb/query/v4/Nodes /pdb/query/v4/node /pdb/query/v4/%6eodes /pdb/query/v4/events \
/pdb/query/v3/nodes /pdb//query/v4 /pdb/cmd/v1/ /pdb/cmd/v1/commands /v4/commands http://h/pdb/query/v4
ask GET <it> {}
answer 404 Not Found||{"error":"no such path"}

for / * /pdb /pdb/query/v4/ /pdb/query/v4/nodes/ /pdb/query/v4/nodes/n /pdb/query/v4/Nodes /pdb/query/v4/node /pdb/query/v4/%6eodes /pdb/query/v4/events \
/pdb/query/v3/nodes /pdb//query/v4 /pdb/cmd/v1/ /pdb/cmd/v1/commands /v4/commands http://h/pdb/query/v4
ask POST <it> {}
answer 404 Not Found||{"error":"no such path"}

for / * /pdb /pdb/query/v4/ /pdb/query/v4/nodes/ /pdb/query/v4/nodes/n /pdb/query/v4/Nodes /pdb/query/v4/node /pdb/query/v4/%6eodes /pdb/query/v4/events \
/pdb/query/v3/nodes /pdb//query/v4 /pdb/cmd/v1/ /pdb/cmd/v1/commands /v4/commands http://h/pdb/query/v4
ask PUT <it> {}
answer 404 Not Found||{"error":"no such path"}"#;

#[test]
fn other_paths_are_no_routes(rt: HostRuntime) -> Result<(), Wrong> {
    play(rt.alloc(), "", "", NO_ROUTES)
}
