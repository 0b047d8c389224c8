//! Requests that clients were seen to send, one after the other on one link: two of `pypuppetdb`, two of Puppet's own terminus.
use crate::play::{PIECES, play};
use crate::wrong::Wrong;

/// What is sent, and what is read of each: the method, the target, the fields and the body.
const CLIENTS: &str = r#"with most=5
send GET /pdb/query/v4/nodes?query=%5B%22%3D%22%2C+%22facts_environment%22%2C+%22production%22%5D&order_by=%5B%7B%22field%22%3A%22certname%22%2C%22order%22%\
3A%22desc%22%7D%5D&limit=3&include_total=true&offset=1 HTTP/1.1\r\nHost: 127.0.0.1:18081\r\nAccept-Encoding: identity\r\ncontent-type: \
application/json\r\naccept: application/json\r\naccept-charset: utf-8\r\nUser-Agent: python-urllib3/1.26.12\r\n\r\n
send POST /pdb/cmd/v1?command=deactivate+node&version=3&certname=py&checksum=61781d31cf54fdf4eba4a889750a8f2f2ba84bb2 HTTP/1.1\r\nHost: \
127.0.0.1:18081\r\nAccept-Encoding: identity\r\ncontent-type: application/json\r\naccept: application/json\r\naccept-charset: utf-8\r\nContent-Length: \
68\r\nUser-Agent: python-urllib3/1.26.12\r\n\r\n{"certname": "py", "producer_timestamp": "2026-11-02T00:00:00.000Z"}
send POST /pdb/cmd/v1?checksum=34e85afa3596a78082adcca6883e69510896b484&version=5&certname=web1.example.com&command=replace_facts&producer-timestamp=2026-11\
-02T08:00:00.123Z HTTP/1.1\r\nAccept: application/json\r\nContent-Type: application/json; charset=utf-8\r\nX-Uncompressed-Length: 213\r\nX-Puppet-Version: \
7.23.0\r\nUser-Agent: Puppet/7.23.0 Ruby/3.1.2-p20 (x86_64-linux-gnu)\r\nAccept-Encoding: gzip;q=1.0,deflate;q=0.6,identity;q=0.3\r\nHost: \
puppetdb.example.com:8081\r\nContent-Length: 213\r\n\r\n{"certname":"web1.example.com","values":{"kernel":"Linux",\
"trusted":{"certname":"web1.example.com"}},"environment":"production","producer_timestamp":"2026-11-02T10:00:00.123+02:00","producer":"puppet.example.com"}
send GET /pdb/query/v4/nodes/web1.example.com/facts HTTP/1.1\r\nAccept: application/json\r\nContent-Type: application/x-www-form-urlencoded; \
charset=UTF-8\r\nUser-Agent: Puppet/7.23.0 Ruby/3.1.2-p20 (x86_64-linux-gnu)\r\nHost: puppetdb.example.com:8081\r\n\r\n
read GET /pdb/query/v4/nodes?query=%5B%22%3D%22%2C+%22facts_environment%22%2C+%22production%22%5D&order_by=%5B%7B%22field%22%3A%22certname%22%2C%22order%22%\
3A%22desc%22%7D%5D&limit=3&include_total=true&offset=1 Host=127.0.0.1:18081 Accept-Encoding=identity content-type=application/json accept=application/json \
accept-charset=utf-8 User-Agent=python-urllib3/1.26.12 []/
read POST /pdb/cmd/v1?command=deactivate+node&version=3&certname=py&checksum=61781d31cf54fdf4eba4a889750a8f2f2ba84bb2 Host=127.0.0.1:18081 \
Accept-Encoding=identity content-type=application/json accept=application/json accept-charset=utf-8 Content-Length=68 User-Agent=python-urllib3/1.26.12 \
[{"certname": "py", "producer_timestamp": "2026-11-02T00:00:00.000Z"}]/
read POST /pdb/cmd/v1?checksum=34e85afa3596a78082adcca6883e69510896b484&version=5&certname=web1.example.com&command=replace_facts&producer-timestamp=2026-11\
-02T08:00:00.123Z Accept=application/json Content-Type=application/json; charset=utf-8 X-Uncompressed-Length=213 X-Puppet-Version=7.23.0 \
User-Agent=Puppet/7.23.0 Ruby/3.1.2-p20 (x86_64-linux-gnu) Accept-Encoding=gzip;q=1.0,deflate;q=0.6,identity;q=0.3 Host=puppetdb.example.com:8081 \
Content-Length=213 [{"certname":"web1.example.com","values":{"kernel":"Linux","trusted":{"certname":"web1.example.com"}},"environment":"production",\
"producer_timestamp":"2026-11-02T10:00:00.123+02:00","producer":"puppet.example.com"}]/
read GET /pdb/query/v4/nodes/web1.example.com/facts Accept=application/json Content-Type=application/x-www-form-urlencoded; charset=UTF-8 \
User-Agent=Puppet/7.23.0 Ruby/3.1.2-p20 (x86_64-linux-gnu) Host=puppetdb.example.com:8081 []/
read ended/"#;

#[test]
fn requests_of_clients_are_read(rt: HostRuntime) -> Result<(), Wrong> {
    play(rt.alloc(), PIECES, CLIENTS)
}
