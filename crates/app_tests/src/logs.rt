//! Compactions: what the other file of each log holds then, byte by byte, and what queries answer before and behind.
//!
//! The outdated queue begins with a base that tells 18 receipts. Of four more commands the first is done, the second was superseded by
//! it, the third waits and failed once, and the fourth, of a version that is none, was refused. What is kept is the last receipt, the
//! command that waits with its failure, and the one that was refused.
//!
//! The outdated store keeps at most two reports of each node. A sweep purges the node `d`, and another takes the one report of `c`.
//! Then come facts, catalogs and deactivations of `b`, each older one first. Of its three reports two have one moment, the one with the
//! greater text first, and one is older. Then come facts and expirations of `a`, a report of which no moment of arrival is told, and a
//! deactivation, and facts of `b` once more. What is kept are the limits, both sweeps, and by node the marks, the newest command of
//! each kind, and the reports by rank. Of `c` the marks stand alone.
use crate::rounds::play;
use std::alloc::AllocError;

const LOGS: &str = r#"case files that were just laid
put 0 \x01PDBLOG1\x01\0\0\0\0\0\0\0\x01\x09\0\0\0\0\0\0\0\0\0\0\0\0\0
put 2 \x01PDBLOG1\x01\0\0\0\0\0\0\0\x01\x0d\0\0\0\0\x07\0\0\0\x0e\0\0\0\x0e\0\0\0\x01\x04\0\0\0\x01\0\0\0\0
do compact
end 0
crash 0
want 1 \x01PDBLOG1\x02\0\0\0\0\0\0\0
want 1 \x01\x09\0\0\0\0\0\0\0\0\0\0\0\0
want 1 \0
want 3 \x01PDBLOG1\x02\0\0\0\0\0\0\0
want 3 \x01\x0d\0\0\0\0\x07\0\0\0\x0e\0\0\0\x0e\0\0\0
want 3 \x01\x04\0\0\0\x01\0\0\0
want 3 \0
same
do compact
end 0
crash 0
turned
same

case two discarded commands; behind it the last receipt and both
put 0 \x01PDBLOG1\x01\0\0\0\0\0\0\0\x01\x09\0\0\0\0\x02\0\0\0\0\0\0\0
put 0 \x01\x26\0\0\0\x02\x01\0\0\0\0\0\0\0\0\x05\0\0\0\0\0\x0b\x41\xe4\x82\xcb\x17\0\0\0\0\0\0\0\0\x03\0\0\0one\x01
put 0 \x01\x27\0\0\0\x03\x03\0\0\0\0\0\0\0\x02\x04\0\0\0\0\0\x0b\x41\xe4\x82\xcb\x17\0\0\0\0\0\0\0\0\x05\0\0\0three
put 0 \x01\x0a\0\0\0\x06\x03\0\0\0\0\0\0\0\0\0
put 2 \x01PDBLOG1\x01\0\0\0\0\0\0\0\x01\x0d\0\0\0\0\x07\0\0\0\x0e\0\0\0\x0e\0\0\0\x01\x04\0\0\0\x01\0\0\0\0
do discards
printed 1 replace_facts 5 2024-05-02T00:00:00.000Z failures 16
printed 3 store_report 4 2024-05-02T00:00:00.000Z bad version
end 0
do payload 3
bare three
end 0
do compact
end 0
crash 0
want 1 \x01PDBLOG1\x02\0\0\0\0\0\0\0
want 1 \x01\x09\0\0\0\0\x03\0\0\0\0\0\0\0
want 1 \x01&\0\0\0\x02\x01\0\0\0\0\0\0\0\0\x05\0\0\0\0\0\x0bA\xe4\x82\xcb\x17\0\0\0\0\0\0\0\0\x03\0\0\0one\x01
want 1 \x01)\0\0\0\x02\x03\0\0\0\0\0\0\0\x02\x04\0\0\0\0\0\x0bA\xe4\x82\xcb\x17\0\0\0\0\0\0\0\0\x05\0\0\0three\0\0
want 1 \0
want 3 \x01PDBLOG1\x02\0\0\0\0\0\0\0
want 3 \x01\x0d\0\0\0\0\x07\0\0\0\x0e\0\0\0\x0e\0\0\0
want 3 \x01\x04\0\0\0\x01\0\0\0
want 3 \0
same
do discards
printed 1 replace_facts 5 2024-05-02T00:00:00.000Z failures 16
printed 3 store_report 4 2024-05-02T00:00:00.000Z bad version
end 0
do payload 3
bare three
end 0
do compact
end 0
crash 0
turned
same

case a command that came in and failed twice; behind it it waits, with both failures
put 0 \x01PDBLOG1\x01\0\0\0\0\0\0\0
put 0 \x01\x09\0\0\0\0\0\0\0\0\0\0\0\0
put 0 \x01%\0\0\0\x03\x01\0\0\0\0\0\0\0\0\x05\0\0\0\0\0\x0bA\xe4\x82\xcb\x17\0\0\0\0\0\0\0\0\x03\0\0\0one
put 0 \x01\x19\0\0\0\x07\x01\0\0\0\0\0\0\0\0\0\0\0\0\0\0\0\x01\0\0\0\0\0\0\0
put 0 \x01\x19\0\0\0\x07\x01\0\0\0\0\0\0\0\x01\0\0\0\0\0\0\0\x02\0\0\0\0\0\0\0
put 0 \0
put 2 \x01PDBLOG1\x01\0\0\0\0\0\0\0\x01\x0d\0\0\0\0\x07\0\0\0\x0e\0\0\0\x0e\0\0\0\x01\x04\0\0\0\x01\0\0\0\0
do compact
end 0
crash 0
want 1 \x01PDBLOG1\x02\0\0\0\0\0\0\0
want 1 \x01\x09\0\0\0\0\x01\0\0\0\0\0\0\0
want 1 \x01)\0\0\0\x01\x01\0\0\0\0\0\0\0\x02\0\0\0\0\x05\0\0\0\0\0\x0bA\xe4\x82\xcb\x17\0\0\0\0\0\0\0\0\x03\0\0\0one
want 1 \0
want 3 \x01PDBLOG1\x02\0\0\0\0\0\0\0
want 3 \x01\x0d\0\0\0\0\x07\0\0\0\x0e\0\0\0\x0e\0\0\0
want 3 \x01\x04\0\0\0\x01\0\0\0
want 3 \0
same
do compact
end 0
crash 0
turned
same

case facts and a report as logs had them before they told when a command was received; behind it the marks of the node and both
put 0 \x01PDBLOG1\x01\0\0\0\0\0\0\0
put 0 \x01\x09\0\0\0\0\x02\0\0\0\0\0\0\0
put 0 \0
put 2 \x01PDBLOG1\x01\0\0\0\0\0\0\0
put 2 \x01\x0d\0\0\0\0\x07\0\0\0\x0e\0\0\0\x0e\0\0\0
put 2 \x01\x04\0\0\0\x01\0\0\0
put 2 \x01,\0\0\0\x03\x01\0\0\0\0\0\0\0\0\x01\0\0\0a\0\x07\0\0\0{"k":1}\0@\xf2\x96\x0dU\xcb\x17\0\0\0\0\0\0\0\0\0
put 2 \x015\0\0\0\x03\x02\0\0\0\0\0\0\0\x02\x01\0\0\0a\0\0\0\0\0\0\0@\xf2\x96\x0dU\xcb\x17\0\0\0\0\0\0\0\0\0\0\0\0\0\0\0\0\0\0\0\0\0\0\0\0
put 2 \0
ask facts{}
told [{"certname":"a","environment":null,"name":"k","value":1}]
ask reports[receive_time]{}
told [{"receive_time":null}]
do compact
end 0
crash 0
want 1 \x01PDBLOG1\x02\0\0\0\0\0\0\0
want 1 \x01\x09\0\0\0\0\x02\0\0\0\0\0\0\0
want 1 \0
want 3 \x01PDBLOG1\x02\0\0\0\0\0\0\0
want 3 \x01\x0d\0\0\0\0\x07\0\0\0\x0e\0\0\0\x0e\0\0\0
want 3 \x01\x04\0\0\0\x01\0\0\0
want 3 \x01\x18\0\0\0\x02\x01\0\0\0a\x01\0@\xf2\x96\x0dU\xcb\x17\0\0\0\0\0\0\0\0\0
want 3 \x01-\0\0\0\x05\x01\0\0\0\0\0\0\0\0\0\x01\0\0\0a\0\x07\0\0\0{"k":1}\0@\xf2\x96\x0dU\xcb\x17\0\0\0\0\0\0\0\0\0
want 3 \x016\0\0\0\x05\x02\0\0\0\0\0\0\0\0\x02\x01\0\0\0a\0\0\0\0\0\0\0@\xf2\x96\x0dU\xcb\x17\0\0\0\0\0\0\0\0\0\0\0\0\0\0\0\0\0\0\0\0\0\0\0\0
want 3 \0
same
ask facts{}
told [{"certname":"a","environment":null,"name":"k","value":1}]
ask reports[receive_time]{}
told [{"receive_time":null}]
do compact
end 0
crash 0
turned
same

case a sweep; behind it the greatest one of expiry
put 0 \x01PDBLOG1\x01\0\0\0\0\0\0\0\x01\x09\0\0\0\0\0\0\0\0\0\0\0\0\0
put 2 \x01PDBLOG1\x01\0\0\0\0\0\0\0\x01\x0d\0\0\0\0\x07\0\0\0\x0e\0\0\0\x0e\0\0\0\x01\x04\0\0\0\x01\0\0\0
put 2 \x01\x12\0\0\0\x04\x03\0\0\x0b\x41\xe4\x82\xcb\x17\0\0\0\0\0\0\0\0\0
do compact
end 0
crash 0
want 1 \x01PDBLOG1\x02\0\0\0\0\0\0\0
want 1 \x01\x09\0\0\0\0\0\0\0\0\0\0\0\0
want 1 \0
want 3 \x01PDBLOG1\x02\0\0\0\0\0\0\0
want 3 \x01\x0d\0\0\0\0\x07\0\0\0\x0e\0\0\0\x0e\0\0\0
want 3 \x01\x14\0\0\0\x01\x01\0\0\x0bA\xe4\x82\xcb\x17\0\0\0\0\0\0\0\0\0\0
want 3 \0
same
do compact
end 0
crash 0
turned
same

case logs most of whose records are outdated
put 0 \x01PDBLOG1\x01\0\0\0\0\0\0\0
put 0 \x01\x09\0\0\0\0\x12\0\0\0\0\0\0\0
put 0 \x01o\0\0\0\x03\x13\0\0\0\0\0\0\0\0\x05\0\0\0\0\0\x0bA\xe4\x82\xcb\x17\0\0\0\0\0\0\0\0M\0\0\0{"certname":"b","values":{"k":3},\
"producer_timestamp":"2024-05-01T12:00:00Z"}
put 0 \x01\x09\0\0\0\x04\x13\0\0\0\0\0\0\0
put 0 \x01o\0\0\0\x03\x14\0\0\0\0\0\0\0\0\x05\0\0\0\0\0\x0bA\xe4\x82\xcb\x17\0\0\0\0\0\0\0\0M\0\0\0{"certname":"b","values":{"k":4},\
"producer_timestamp":"2024-05-01T11:45:00Z"}
put 0 \x01\x11\0\0\0\x05\x14\0\0\0\0\0\0\0\x13\0\0\0\0\0\0\0
put 0 \x01o\0\0\0\x03\x15\0\0\0\0\0\0\0\0\x05\0\0\0\0\0\x0bA\xe4\x82\xcb\x17\0\0\0\0\0\0\0\0M\0\0\0{"certname":"e","values":{"k":5},\
"producer_timestamp":"2024-05-01T10:00:00Z"}
put 0 \x01\x19\0\0\0\x07\x15\0\0\0\0\0\0\0\0\0\0\0\0\0\0\0\x01\0\0\0\0\0\0\0
put 0 \x01#\0\0\0\x03\x16\0\0\0\0\0\0\0\x03\x04\0\0\0\0\0\x0bA\xe4\x82\xcb\x17\0\0\0\0\0\0\0\0\x01\0\0\0x
put 0 \x01\x0a\0\0\0\x06\x16\0\0\0\0\0\0\0\0
put 0 \0
put 2 \x01PDBLOG1\x01\0\0\0\0\0\0\0
put 2 \x01\x11\0\0\0\x06\x07\0\0\0\x0e\0\0\0\x0e\0\0\0\x02\0\0\0
put 2 \x01\x04\0\0\0\x01\0\0\0
put 2 \x01=\0\0\0\x05\x01\0\0\0\0\0\0\0\x01\0\0\x0bA\xe4\x82\xcb\x17\0\0\0\0\0\0\0\0\0\x01\0\0\0d\0\x07\0\0\0{"k":0}\0\0\xe9\x0f\xe9z\xb8\x17\0\0\0\0\0\0\0\0\
\0
put 2 \x010\0\0\0\x05\x02\0\0\0\0\0\0\0\x01\0\0\x0bA\xe4\x82\xcb\x17\0\0\0\0\0\0\0\0\x03\x01\0\0\0d\0\0\xe9\x0f\xe9z\xb8\x17\0\0\0\0\0\0\0\0
put 2 \x01F\0\0\0\x05\x03\0\0\0\0\0\0\0\x01\0\0\x0bA\xe4\x82\xcb\x17\0\0\0\0\0\0\0\0\x02\x01\0\0\0c\0\0\0\0\0\0\0\0z\xa8\xe6\xfe\xc1\x17\0\0\0\0\0\0\0\0\0\0\
\0\0\0\0\0\0\0\0\0\0\0\0\0\0
put 2 \x01\x12\0\0\0\x04\x03\0\0A\xc4\x1f\xc2\xc4\x17\0\0\0\0\0\0\0\0
put 2 \x01\x12\0\0\0\x04\x04\0\0\x0bA\xe4\x82\xcb\x17\0\0\0\0\0\0\0\0
put 2 \x01=\0\0\0\x05\x04\0\0\0\0\0\0\0\x01\0\0\x0bA\xe4\x82\xcb\x17\0\0\0\0\0\0\0\0\0\x01\0\0\0b\0\x07\0\0\0{"k":1}\0@\xf2\x96\x0dU\xcb\x17\0\0\0\0\0\0\0\0\0
put 2 \x01=\0\0\0\x05\x05\0\0\0\0\0\0\0\x01\0\0\x0bA\xe4\x82\xcb\x17\0\0\0\0\0\0\0\0\0\x01\0\0\0b\0\x07\0\0\0{"k":2}\0\xe0\xaa\xc7SX\xcb\x17\0\0\0\0\0\0\0\0\0
put 2 \x01C\0\0\0\x05\x06\0\0\0\0\0\0\0\x01\0\0\x0bA\xe4\x82\xcb\x17\0\0\0\0\0\0\0\0\x01\x01\0\0\0b\x01\0\0\01\0\0\0\0\0\0@\xf2\x96\x0dU\xcb\x17\0\0\0\0\0\0\
\0\0\0\0\0\0\0\0\0\0\0
put 2 \x01C\0\0\0\x05\x07\0\0\0\0\0\0\0\x01\0\0\x0bA\xe4\x82\xcb\x17\0\0\0\0\0\0\0\0\x01\x01\0\0\0b\x01\0\0\02\0\0\0\0\0\0\xe0\xaa\xc7SX\xcb\x17\0\0\0\0\0\0\
\0\0\0\0\0\0\0\0\0\0\0
put 2 \x010\0\0\0\x05\x08\0\0\0\0\0\0\0\x01\0\0\x0bA\xe4\x82\xcb\x17\0\0\0\0\0\0\0\0\x03\x01\0\0\0b\0\0\x815\x81N\xcb\x17\0\0\0\0\0\0\0\0
put 2 \x010\0\0\0\x05\x09\0\0\0\0\0\0\0\x01\0\0\x0bA\xe4\x82\xcb\x17\0\0\0\0\0\0\0\0\x03\x01\0\0\0b\0\xa09f\xc7Q\xcb\x17\0\0\0\0\0\0\0\0
put 2 \x01K\0\0\0\x05\x0a\0\0\0\0\0\0\0\x01\0\0\x0bA\xe4\x82\xcb\x17\0\0\0\0\0\0\0\0\x02\x01\0\0\0b\0\0\0\0\0\0\0\x80c\xf8\x99[\xcb\x17\0\0\0\0\0\0\0\0\0\0\
\x01\x01\0\0\0z\0\0\0\0\0\0\0\0\0\0\0\0\0
put 2 \x01K\0\0\0\x05\x0b\0\0\0\0\0\0\0\x01\0\0\x0bA\xe4\x82\xcb\x17\0\0\0\0\0\0\0\0\x02\x01\0\0\0b\0\0\0\0\0\0\0\x80c\xf8\x99[\xcb\x17\0\0\0\0\0\0\0\0\0\0\
\x01\x01\0\0\0a\0\0\0\0\0\0\0\0\0\0\0\0\0
put 2 \x01K\0\0\0\x05\x0c\0\0\0\0\0\0\0\x01\0\0\x0bA\xe4\x82\xcb\x17\0\0\0\0\0\0\0\0\x02\x01\0\0\0b\0\0\0\0\0\0\0\xa09f\xc7Q\xcb\x17\0\0\0\0\0\0\0\0\0\0\x01\
\x01\0\0\0a\0\0\0\0\0\0\0\0\0\0\0\0\0
put 2 \x01=\0\0\0\x05\x0d\0\0\0\0\0\0\0\x01\0\0\x0bA\xe4\x82\xcb\x17\0\0\0\0\0\0\0\0\0\x01\0\0\0a\0\x07\0\0\0{"k":1}\0@\xf2\x96\x0dU\xcb\x17\0\0\0\0\0\0\0\0\0
put 2 \x01=\0\0\0\x05\x0e\0\0\0\0\0\0\0\x01\0\0\x0bA\xe4\x82\xcb\x17\0\0\0\0\0\0\0\0\0\x01\0\0\0a\0\x07\0\0\0{"k":2}\0\xe0\xaa\xc7SX\xcb\x17\0\0\0\0\0\0\0\0\0
put 2 \x011\0\0\0\x05\x0f\0\0\0\0\0\0\0\x01\0\0\x0bA\xe4\x82\xcb\x17\0\0\0\0\0\0\0\0\x04\x01\0\0\0a\0@\xf2\x96\x0dU\xcb\x17\0\0\0\0\0\0\0\0\x01
put 2 \x011\0\0\0\x05\x10\0\0\0\0\0\0\0\x01\0\0\x0bA\xe4\x82\xcb\x17\0\0\0\0\0\0\0\0\x04\x01\0\0\0a\0\xe0\xaa\xc7SX\xcb\x17\0\0\0\0\0\0\0\0\0
put 2 \x015\0\0\0\x03\x11\0\0\0\0\0\0\0\x02\x01\0\0\0a\0\0\0\0\0\0\0\xe0\xaa\xc7SX\xcb\x17\0\0\0\0\0\0\0\0\0\0\0\0\0\0\0\0\0\0\0\0\0\0\0\0
put 2 \x010\0\0\0\x05\x12\0\0\0\0\0\0\0\x01\0\0\x0bA\xe4\x82\xcb\x17\0\0\0\0\0\0\0\0\x03\x01\0\0\0a\0\x80c\xf8\x99[\xcb\x17\0\0\0\0\0\0\0\0
put 2 \x01=\0\0\0\x05\x13\0\0\0\0\0\0\0\x01\0\0\x0bA\xe4\x82\xcb\x17\0\0\0\0\0\0\0\0\0\x01\0\0\0b\0\x07\0\0\0{"k":3}\0\x80c\xf8\x99[\xcb\x17\0\0\0\0\0\0\0\0\0
put 2 \0
ask nodes[certname, deactivated, expired]{node_state = "any"}
told [{"certname":"a","deactivated":"2024-05-01T12:00:00.000Z","expired":null},{"certname":"b","deactivated":null,"expired":null},{"certname":"c",\
"deactivated":null,"expired":"2024-04-08T00:00:00.000Z"}]
ask facts[certname, value]{node_state = "any"}
told [{"certname":"a","value":2},{"certname":"b","value":3}]
ask catalogs[certname, version]{}
told [{"certname":"b","version":"2"}]
ask reports[certname, receive_time, status]{node_state = "any"}
told [{"certname":"a","receive_time":null,"status":null},{"certname":"b","receive_time":"2024-05-02T00:00:00.000Z","status":"a"},{"certname":"b",\
"receive_time":"2024-05-02T00:00:00.000Z","status":"z"}]
do compact
end 0
crash 0
want 1 \x01PDBLOG1\x02\0\0\0\0\0\0\0
want 1 \x01\x09\0\0\0\0\x16\0\0\0\0\0\0\0
want 1 \x01s\0\0\0\x01\x15\0\0\0\0\0\0\0\x01\0\0\0\0\x05\0\0\0\0\0\x0bA\xe4\x82\xcb\x17\0\0\0\0\0\0\0\0M\0\0\0{"certname":"e","values":{"k":5},\
"producer_timestamp":"2024-05-01T10:00:00Z"}
want 1 \x01%\0\0\0\x02\x16\0\0\0\0\0\0\0\x03\x04\0\0\0\0\0\x0bA\xe4\x82\xcb\x17\0\0\0\0\0\0\0\0\x01\0\0\0x\0\0
want 1 \0
want 3 \x01PDBLOG1\x02\0\0\0\0\0\0\0
want 3 \x01\x11\0\0\0\x06\x07\0\0\0\x0e\0\0\0\x0e\0\0\0\x02\0\0\0
want 3 \x01$\0\0\0\x01\x01\0\0A\xc4\x1f\xc2\xc4\x17\0\0\0\0\0\0\0\0\x01\0\0\x0bA\xe4\x82\xcb\x17\0\0\0\0\0\0\0\0\0
want 3 \x01(\0\0\0\x02\x01\0\0\0a\x01\0\xe0\xaa\xc7SX\xcb\x17\0\0\0\0\0\0\0\0\x01\0\x80c\xf8\x99[\xcb\x17\0\0\0\0\0\0\0\0
want 3 \x01=\0\0\0\x05\x0e\0\0\0\0\0\0\0\x01\0\0\x0bA\xe4\x82\xcb\x17\0\0\0\0\0\0\0\0\0\x01\0\0\0a\0\x07\0\0\0{"k":2}\0\xe0\xaa\xc7SX\xcb\x17\0\0\0\0\0\0\0\0\
\0
want 3 \x010\0\0\0\x05\x12\0\0\0\0\0\0\0\x01\0\0\x0bA\xe4\x82\xcb\x17\0\0\0\0\0\0\0\0\x03\x01\0\0\0a\0\x80c\xf8\x99[\xcb\x17\0\0\0\0\0\0\0\0
want 3 \x011\0\0\0\x05\x10\0\0\0\0\0\0\0\x01\0\0\x0bA\xe4\x82\xcb\x17\0\0\0\0\0\0\0\0\x04\x01\0\0\0a\0\xe0\xaa\xc7SX\xcb\x17\0\0\0\0\0\0\0\0\0
want 3 \x016\0\0\0\x05\x11\0\0\0\0\0\0\0\0\x02\x01\0\0\0a\0\0\0\0\0\0\0\xe0\xaa\xc7SX\xcb\x17\0\0\0\0\0\0\0\0\0\0\0\0\0\0\0\0\0\0\0\0\0\0\0\0
want 3 \x01(\0\0\0\x02\x01\0\0\0b\x01\0\x80c\xf8\x99[\xcb\x17\0\0\0\0\0\0\0\0\x01\0\xa09f\xc7Q\xcb\x17\0\0\0\0\0\0\0\0
want 3 \x01=\0\0\0\x05\x13\0\0\0\0\0\0\0\x01\0\0\x0bA\xe4\x82\xcb\x17\0\0\0\0\0\0\0\0\0\x01\0\0\0b\0\x07\0\0\0{"k":3}\0\x80c\xf8\x99[\xcb\x17\0\0\0\0\0\0\0\0\
\0
want 3 \x01C\0\0\0\x05\x07\0\0\0\0\0\0\0\x01\0\0\x0bA\xe4\x82\xcb\x17\0\0\0\0\0\0\0\0\x01\x01\0\0\0b\x01\0\0\02\0\0\0\0\0\0\xe0\xaa\xc7SX\xcb\x17\0\0\0\0\0\0\
\0\0\0\0\0\0\0\0\0\0\0
want 3 \x010\0\0\0\x05\x09\0\0\0\0\0\0\0\x01\0\0\x0bA\xe4\x82\xcb\x17\0\0\0\0\0\0\0\0\x03\x01\0\0\0b\0\xa09f\xc7Q\xcb\x17\0\0\0\0\0\0\0\0
want 3 \x01K\0\0\0\x05\x0a\0\0\0\0\0\0\0\x01\0\0\x0bA\xe4\x82\xcb\x17\0\0\0\0\0\0\0\0\x02\x01\0\0\0b\0\0\0\0\0\0\0\x80c\xf8\x99[\xcb\x17\0\0\0\0\0\0\0\0\0\0\
\x01\x01\0\0\0z\0\0\0\0\0\0\0\0\0\0\0\0\0
want 3 \x01K\0\0\0\x05\x0b\0\0\0\0\0\0\0\x01\0\0\x0bA\xe4\x82\xcb\x17\0\0\0\0\0\0\0\0\x02\x01\0\0\0b\0\0\0\0\0\0\0\x80c\xf8\x99[\xcb\x17\0\0\0\0\0\0\0\0\0\0\
\x01\x01\0\0\0a\0\0\0\0\0\0\0\0\0\0\0\0\0
want 3 \x01\x18\0\0\0\x02\x01\0\0\0c\x01\0\0z\xa8\xe6\xfe\xc1\x17\0\0\0\0\0\0\0\0\0
want 3 \0
same
ask nodes[certname, deactivated, expired]{node_state = "any"}
told [{"certname":"a","deactivated":"2024-05-01T12:00:00.000Z","expired":null},{"certname":"b","deactivated":null,"expired":null},{"certname":"c",\
"deactivated":null,"expired":"2024-04-08T00:00:00.000Z"}]
ask facts[certname, value]{node_state = "any"}
told [{"certname":"a","value":2},{"certname":"b","value":3}]
ask catalogs[certname, version]{}
told [{"certname":"b","version":"2"}]
ask reports[certname, receive_time, status]{node_state = "any"}
told [{"certname":"a","receive_time":null,"status":null},{"certname":"b","receive_time":"2024-05-02T00:00:00.000Z","status":"a"},{"certname":"b",\
"receive_time":"2024-05-02T00:00:00.000Z","status":"z"}]
do compact
end 0
crash 0
turned
same
"#;

#[test]
fn a_compaction_writes_the_other_files(rt: HostRuntime) -> Result<(), AllocError> {
    play(&rt, rt.alloc(), "", LOGS)
}
