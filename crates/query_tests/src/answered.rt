//! Small fleets, what they are asked, and what is answered.
use crate::play::play;
use std::alloc::AllocError;

const FLEETS: &str = r#"fleet numbers keep their spelling, and are equal by value
facts {"certname":"a","environment":"production","values":{"k":0.10},"producer_timestamp":"2024-05-01T10:00:00Z","producer":"m"}
facts {"certname":"b","environment":"production","values":{"k":1e-1},"producer_timestamp":"2024-05-01T10:00:00Z","producer":"m"}
facts {"certname":"c","environment":"production","values":{"k":1e400},"producer_timestamp":"2024-05-01T10:00:00Z","producer":"m"}
ask ["from","facts",["extract",["value"]]]
told [{"value":0.10},{"value":1e-1},{"value":1e400}]
ask ["from","facts",["extract",["certname"],["=","value",0.1]]]
told [{"certname":"a"},{"certname":"b"}]
fleet a sum of groups
facts {"certname":"a","environment":"production","values":{"k":0.10},"producer_timestamp":"2024-05-01T10:00:00Z","producer":"m"}
facts {"certname":"b","environment":"production","values":{"k":1e-1},"producer_timestamp":"2024-05-01T10:00:00Z","producer":"m"}
ask ["from","facts",["extract",[["function","sum","value"],"name"],["group_by","name"]]]
told [{"sum":0.2,"name":"k"}]
fleet resources
catalog {"certname":"a","version":"1","environment":"production","transaction_uuid":null,"catalog_uuid":null,"code_id":null,"job_id":null,"producer_timestamp":"2024-05-01T10:00:00Z","producer":"m","edges":[],"resources":[{"type":"Class","title":"Ntp","exported":false,"file":null,"line":null,"tags":["class"],"parameters":{}}]}
catalog {"certname":"b","version":"1","environment":"production","transaction_uuid":null,"catalog_uuid":null,"code_id":null,"job_id":null,"producer_timestamp":"2024-05-01T10:00:00Z","producer":"m","edges":[],"resources":[{"type":"Class","title":"Ntp","exported":false,"file":null,"line":null,"tags":["class"],"parameters":{}}]}
catalog {"certname":"c","version":"1","environment":"production","transaction_uuid":null,"catalog_uuid":null,"code_id":null,"job_id":null,"producer_timestamp":"2024-05-01T10:00:00Z","producer":"m","edges":[],"resources":[{"type":"Class","title":"Ntp","exported":false,"file":null,"line":null,"tags":["class"],"parameters":{"mode":"0644","size":7}}]}
ask ["from","nodes",["extract",["certname"],["subquery","resources",["and",["=","type","Class"],["=","title","Ntp"]]]],["order_by",[["certname","desc"]]],["limit",1],["offset",1]]
told [{"certname":"b"}]
ask ["from","resources",["extract","certname",["and",["=","tag","class"],[">",["parameter","size"],6.5]]]]
told [{"certname":"c"}]
ask ["from","resources",["extract","certname",["null?",["parameter","mode"],true]]]
told [{"certname":"a"},{"certname":"b"}]
ask ["from","resources",["=","tag","web"]]
told []
fleet pages in the order of the tables and in others, and counts; node b is deactivated
facts {"certname":"b","environment":"production","values":{"k":1,"j":2},"producer_timestamp":"2024-05-01T10:00:00Z","producer":"m"}
facts {"certname":"a","environment":"production","values":{"l":3,"j":4},"producer_timestamp":"2024-05-01T10:00:00Z","producer":"m"}
facts {"certname":"c","environment":"production","values":{"k":5},"producer_timestamp":"2024-05-01T10:00:00Z","producer":"m"}
facts {"certname":"d","environment":"production","values":{"j":6},"producer_timestamp":"2024-05-01T10:00:00Z","producer":"m"}
deactivate {"certname":"b","producer_timestamp":"2024-05-01T10:00:00Z"}
ask ["from","facts",["extract",["certname","name"]],["limit",2],["offset",1]]
told [{"certname":"a","name":"l"},{"certname":"c","name":"k"}]
ask ["from","facts",["extract",["certname","value"],["=","name","j"]],["limit",2]]
told [{"certname":"a","value":4},{"certname":"d","value":6}]
ask ["from","nodes",["extract",["certname"]],["order_by",[["certname","asc"]]],["limit",2]]
told [{"certname":"a"},{"certname":"c"}]
ask ["from","nodes",["extract",["certname"]],["order_by",[["certname","desc"]]],["limit",2]]
told [{"certname":"d"},{"certname":"c"}]
ask ["from","facts",["extract",["certname","name"]],["order_by",[["certname","asc"],["name","asc"]]],["limit",1],["offset",2]]
told [{"certname":"c","name":"k"}]
ask ["from","facts",["extract",["certname","name"]],["order_by",[["certname","asc"],["name","desc"]]],["limit",2]]
told [{"certname":"a","name":"l"},{"certname":"a","name":"j"}]
ask ["from","facts",["extract",["certname","name"]],["order_by",[["name","asc"],["certname","asc"]]],["limit",2]]
told [{"certname":"a","name":"j"},{"certname":"d","name":"j"}]
ask ["from","facts",["extract",["name"]],["limit",3],["offset",4]]
told []
ask ["from","nodes",["extract",[["function","count"]]]]
told [{"count":3}]
ask ["from","facts",["extract",[["function","count"]]]]
told [{"count":4}]
ask ["from","facts",["extract",[["function","count"]],["=","node_state","any"]]]
told [{"count":6}]
ask ["from","nodes",["extract",[["function","count"]],["=","node_state","inactive"]]]
told [{"count":1}]
ask ["from","reports",["extract",[["function","count"]]]]
told [{"count":0}]
ask ["from","facts",["extract",[["function","count"]]],["limit",1],["offset",1]]
told []
fleet a node that is deactivated; a level within speaks for itself
facts {"certname":"a","environment":"production","values":{"k":1},"producer_timestamp":"2024-05-01T10:00:00Z","producer":"m"}
deactivate {"certname":"a","producer_timestamp":"2024-05-01T10:00:00Z"}
ask ["from","nodes",["extract",["certname","deactivated"],["=","node_state","any"]]]
told [{"certname":"a","deactivated":"2024-05-01T10:00:00.000Z"}]
ask ["from","facts"]
told []
ask ["from","facts",["extract","value",["=","node_state","inactive"]]]
told [{"value":1}]
ask ["from","facts",["not",["=","node_state","inactive"]]]
told []
ask ["from","nodes",["and",["=","node_state","any"],["subquery","facts"]]]
told []
ask ["from","nodes",["extract","certname",["and",["=","node_state","any"],["subquery","facts",["=","node_state","any"]]]]]
told [{"certname":"a"}]
fleet and revived; comparisons of moments, and with null
facts {"certname":"a","environment":"production","values":{"k":1},"producer_timestamp":"2024-05-01T10:00:00Z","producer":"m"}
deactivate {"certname":"a","producer_timestamp":"2024-05-01T10:00:00Z"}
facts {"certname":"a","environment":"production","values":{"k":1},"producer_timestamp":"2024-05-01T10:00:00.000000001Z","producer":"m"}
ask ["from","nodes",["extract",["certname","deactivated"],["=","node_state","any"]]]
told [{"certname":"a","deactivated":null}]
ask ["from","facts"]
told [{"certname":"a","environment":"production","name":"k","value":1}]
ask ["from","nodes",["extract","certname",["=","facts_timestamp","2024-05-01T12:00:00.000000001+02:00"]]]
told [{"certname":"a"}]
ask ["from","nodes",["extract","certname",["<=","facts_timestamp","2024-05-01T10:00:00Z"]]]
told []
ask ["from","nodes",["extract","certname",["not",["<","report_timestamp","2025-01-01T00:00:00Z"]]]]
told [{"certname":"a"}]
ask ["from","nodes",["extract","certname",["=",["fact","k"],1.0]]]
told [{"certname":"a"}]
fleet levels within, and patterns, of which the first that is refused is named
facts {"certname":"n","values":{"k":"web1","l":"web2","m":null},"producer_timestamp":"2024-05-01T10:00:00Z"}
facts {"certname":"o","values":{"k":"db1"},"producer_timestamp":"2024-05-01T10:00:00Z"}
ask ["from","nodes",["extract","certname",["in","certname",["extract","certname",["select_facts",["~","value","^web"]]]]]]
told [{"certname":"n"}]
ask ["from","nodes",["extract","certname",["in","certname",["from","facts",["extract","certname"],["order_by",[["certname","desc"]]],["limit",1]]]]]
told [{"certname":"o"}]
ask ["from","facts",["extract","name",["in",["name","value"],["extract",["name","value"],["select_facts",["=","certname","n"]]]]]]
told [{"name":"k"},{"name":"l"}]
ask ["from","factsets",["extract","certname",["not",["subquery","facts",["null?","value",true]]]]]
told [{"certname":"o"}]
nodes ["in","certname",["extract","certname",["select_facts",["~","value","("]]]]
told bad pattern 2.2.1.2
ask ["from","facts",["and",["~","value","a"],["not",["~","name","["]],["~","name","("]]]
told bad pattern 2.2.1.2
ask ["from","facts",["and",["~","value","("],["subquery","facts",["~","name","["]]]]
told bad pattern 2.1.2
ask ["from","facts",["and",["subquery","facts",["~","name","["]],["~","value","("]]]
told bad pattern 2.1.2.2
ask ["from","reports",["~","status","("]]
told bad pattern 2.2
fleet each pattern is read before a text is tried on one, and nothing is tried where one is refused
facts {"certname":"n","values":{"k":"web1","l":"db1","m":null},"producer_timestamp":"2024-05-01T10:00:00Z"}
facts {"certname":"o","values":{"k":"web2"},"producer_timestamp":"2024-05-01T10:00:00Z"}
course ["from","facts",["and",["~","value","w"],["~","name","k"]]]
told read w;read k;tried w web1;tried w db1;tried w ;tried w web2;tried k k;tried k l;tried k m;tried k k;
course ["from","nodes",["and",["~","certname","n"],["in","certname",["extract","certname",["select_facts",["~","value","w"]]]]]]
told read n;read w;tried w web1;tried w db1;tried w ;tried w web2;tried n n;tried n o;
course ["from","facts",["and",["~","value","w"],["~","name","("],["~","name","k"]]]
told read w;refused (;
course ["from","facts",["=","name","k"]]
told
course ["from","reports",["or",["~","status","a"],["~","status","b"]]]
told read a;read b;
fleet a sum on either side of its limit
facts {"certname":"a","values":{"a":9999999999999999999,"b":9999999999999999999,"c":9999999999999999999,"d":9999999999999999999,"e":9999999999999999999,"f":9999999999999999999,"g":9999999999999999999,"h":9999999999999999999,"i":9999999999999999999,"j":9999999999999999999,"k":9999999999999999999,"l":9999999999999999999,"m":9999999999999999999,"n":9999999999999999999,"o":9999999999999999999,"p":9999999999999999999,"q":9999999999999999999,"r":9999999999999999999},"producer_timestamp":"2024-05-01T10:00:00Z"}
ask ["from","facts",["extract",[["function","sum","value"]],["not",["=","name","r"]]]]
told [{"sum":169999999999999999983}]
ask ["from","facts",["extract",[["function","sum","value"]]]]
told sum too large 2.1.0.2
ask ["from","facts",["extract",[["function","sum","value"]],["or",["=","certname","a"],["~","name","("]]]]
told bad pattern 2.2.2.2
fleet a sum at its greatest and one step above it
facts {"certname":"a","values":{"a":9999999999999999999,"b":9999999999999999999,"c":9999999999999999999,"d":9999999999999999999,"e":9999999999999999999,"f":9999999999999999999,"g":9999999999999999999,"h":9999999999999999999,"i":9999999999999999999,"j":9999999999999999999,"k":9999999999999999999,"l":9999999999999999999,"m":9999999999999999999,"n":9999999999999999999,"o":9999999999999999999,"p":9999999999999999999,"q":9999999999999999999,"r":141183460469231748.687303715884105727,"s":0.000000000000000001},"producer_timestamp":"2024-05-01T10:00:00Z"}
ask ["from","facts",["extract",[["function","sum","value"]],["not",["=","name","s"]]]]
told [{"sum":170141183460469231731.687303715884105727}]
ask ["from","facts",["extract",[["function","sum","value"]]]]
told sum too large 2.1.0.2
fleet a sum at its least and one step below it
facts {"certname":"a","values":{"a":-9999999999999999999,"b":-9999999999999999999,"c":-9999999999999999999,"d":-9999999999999999999,"e":-9999999999999999999,"f":-9999999999999999999,"g":-9999999999999999999,"h":-9999999999999999999,"i":-9999999999999999999,"j":-9999999999999999999,"k":-9999999999999999999,"l":-9999999999999999999,"m":-9999999999999999999,"n":-9999999999999999999,"o":-9999999999999999999,"p":-9999999999999999999,"q":-9999999999999999999,"r":-141183460469231748.687303715884105728,"s":-0.000000000000000001},"producer_timestamp":"2024-05-01T10:00:00Z"}
ask ["from","facts",["extract",[["function","sum","value"]],["not",["=","name","s"]]]]
told [{"sum":-170141183460469231731.687303715884105728}]
ask ["from","facts",["extract",[["function","sum","value"]]]]
told sum too large 2.1.0.2
fleet a prefix of a sum that is too large, though the rest brings it back
facts {"certname":"a","values":{"a":9999999999999999999,"b":9999999999999999999,"c":9999999999999999999,"d":9999999999999999999,"e":9999999999999999999,"f":9999999999999999999,"g":9999999999999999999,"h":9999999999999999999,"i":9999999999999999999,"j":9999999999999999999,"k":9999999999999999999,"l":9999999999999999999,"m":9999999999999999999,"n":9999999999999999999,"o":9999999999999999999,"p":9999999999999999999,"q":9999999999999999999,"r":9999999999999999999,"s":-9999999999999999999,"t":-9999999999999999999},"producer_timestamp":"2024-05-01T10:00:00Z"}
ask ["from","facts",["extract",[["function","sum","value"]]]]
told sum too large 2.1.0.2
fleet the same numbers with the small ones first
facts {"certname":"a","values":{"a":-9999999999999999999,"b":-9999999999999999999,"c":9999999999999999999,"d":9999999999999999999,"e":9999999999999999999,"f":9999999999999999999,"g":9999999999999999999,"h":9999999999999999999,"i":9999999999999999999,"j":9999999999999999999,"k":9999999999999999999,"l":9999999999999999999,"m":9999999999999999999,"n":9999999999999999999,"o":9999999999999999999,"p":9999999999999999999,"q":9999999999999999999,"r":9999999999999999999,"s":9999999999999999999,"t":9999999999999999999},"producer_timestamp":"2024-05-01T10:00:00Z"}
ask ["from","facts",["extract",[["function","sum","value"]]]]
told [{"sum":159999999999999999984}]
fleet of several sums that are too large the first, and an inner one before an outer one
facts {"certname":"a","values":{"a":9999999999999999999,"b":9999999999999999999,"c":9999999999999999999,"d":9999999999999999999,"e":9999999999999999999,"f":9999999999999999999,"g":9999999999999999999,"h":9999999999999999999,"i":9999999999999999999,"j":9999999999999999999,"k":9999999999999999999,"l":9999999999999999999,"m":9999999999999999999,"n":9999999999999999999,"o":9999999999999999999,"p":9999999999999999999,"q":9999999999999999999,"r":9999999999999999999},"producer_timestamp":"2024-05-01T10:00:00Z"}
ask ["from","facts",["or",["in","value",["from","facts",["extract",[["function","sum","value"]]]]],["in","value",["from","facts",["extract",[["function","sum","value"]]]]]]]
told sum too large 2.1.2.2.1.0.2
ask ["from","facts",["or",["in","value",["from","facts",["extract",[["function","sum","value"]],["=","name","a"]]]],["in","value",["from","facts",["extract",[["function","sum","value"]]]]]]]
told sum too large 2.2.2.2.1.0.2
ask ["from","facts",["extract",[["function","sum","value"]],["or",["=","certname","a"],["in","value",["from","facts",["extract",[["function","sum","value"]]]]]]]]
told sum too large 2.2.2.2.2.1.0.2
ask ["from","facts",["extract",[["function","sum","value"]],["or",["=","certname","a"],["in","value",["from","facts",["extract",[["function","sum","value"]],["=","name","a"]]]]]]]
told sum too large 2.1.0.2
ask ["from","facts",["in","value",["from","facts",["extract",[["function","sum","value"]],["or",["=","certname","a"],["in","value",["from","facts",["extract",[["function","sum","value"]]]]]]]]]]
told sum too large 2.2.2.2.2.2.2.1.0.2
fleet cells of each kind, compared and in order
facts {"certname":"a","values":{"a":null,"b":"5","c":2,"d":1e400,"e":[1,"x"],"f":false,"g":2.0,"h":{"x":1},"i":true,"j":-1},"producer_timestamp":"2024-05-01T10:00:00Z"}
ask ["from","facts",["extract","name",["=","value","5"]]]
told [{"name":"b"}]
ask ["from","facts",["extract","name",["=","value",20e-1]]]
told [{"name":"c"},{"name":"g"}]
ask ["from","facts",["extract","name",["=","value",false]]]
told [{"name":"f"}]
ask ["from","facts",["extract","name",["=","value",1e400]]]
told [{"name":"d"}]
ask ["from","facts",["extract","name",["<","value",2]]]
told [{"name":"j"}]
ask ["from","facts",["extract","name",[">=","value",2]]]
told [{"name":"c"},{"name":"g"}]
ask ["from","facts",["extract","name",["not",["<=","value",2]]]]
told [{"name":"a"},{"name":"b"},{"name":"d"},{"name":"e"},{"name":"f"},{"name":"h"},{"name":"i"}]
ask ["from","facts",["extract","name",["~","value",""]]]
told [{"name":"b"}]
ask ["from","facts",["extract","name",["null?","value",true]]]
told [{"name":"a"}]
ask ["from","facts",["extract","name",["in","value",["array",["5",2.00,true,"none"]]]]]
told [{"name":"b"},{"name":"c"},{"name":"g"},{"name":"i"}]
ask ["from","facts",["extract","name"],["order_by",["value"]]]
told [{"name":"a"},{"name":"f"},{"name":"i"},{"name":"j"},{"name":"c"},{"name":"g"},{"name":"d"},{"name":"b"},{"name":"e"},{"name":"h"}]
ask ["from","facts",["extract",["name","certname","name"]],["order_by",["certname",["value","desc"]]],["limit",2]]
told [{"name":"h","certname":"a"},{"name":"e","certname":"a"}]
ask ["from","facts",["extract","name"],["order_by",[["certname","desc"]]],["offset",9],["limit",9223372036854775807]]
told [{"name":"j"}]
fleet groups in the order of their cells
facts {"certname":"a","values":{"k":1,"l":"x","m":null,"n":[1,"b"]},"producer_timestamp":"2024-05-01T10:00:00Z"}
facts {"certname":"b","values":{"k":1.0,"l":0.5,"m":true,"n":[1.0,"a"]},"producer_timestamp":"2024-05-01T10:00:00Z"}
facts {"certname":"c","values":{"k":10e-1,"l":1e400,"m":{"b":1,"a":2},"n":[1.00,"b"]},"producer_timestamp":"2024-05-01T10:00:00Z"}
facts {"certname":"d","values":{"m":{"a":2.0,"b":1}},"producer_timestamp":"2024-05-01T10:00:00Z"}
ask ["from","facts",["extract",[["function","count"]]]]
told [{"count":13}]
ask ["from","facts",["extract",[["function","count","value"],["function","sum","value"],["function","min","value"],["function","max","value"]],["=","name","none"]]]
told [{"count":0,"sum":null,"min":null,"max":null}]
ask ["from","facts",["extract",[["function","count"],"name"],["=","name","none"],["group_by","name"]]]
told []
ask ["from","facts",["extract",["name",["function","count","value"],["function","sum","value"]],["group_by","name"]]]
told [{"name":"k","count":3,"sum":3},{"name":"l","count":3,"sum":0.5},{"name":"m","count":3,"sum":null},{"name":"n","count":3,"sum":null}]
ask ["from","facts",["extract",[["function","min","value"],["function","max","value"],"name"],["group_by","name"]]]
told [{"min":1,"max":10e-1,"name":"k"},{"min":0.5,"max":"x","name":"l"},{"min":true,"max":{"a":2.0,"b":1},"name":"m"},{"min":[1,"b"],"max":[1.00,"b"],"name":"n"}]
ask ["from","facts",["extract",[["function","count"],"value"],["or",["=","name","k"],["=","name","m"]],["group_by","value"]]]
told [{"count":1,"value":null},{"count":1,"value":true},{"count":3,"value":1},{"count":2,"value":{"b":1,"a":2}}]
ask ["from","facts",["extract",["value",["function","count"]],["=","name","n"],["group_by","value"]]]
told [{"value":[1,"b"],"count":2},{"value":[1.0,"a"],"count":1}]
ask ["from","facts",["extract",["name",["function","count"]],["group_by","name"]],["order_by",[["count","desc"],["name","desc"]]],["limit",2]]
told [{"name":"m","count":4},{"name":"n","count":3}]
fleet texts and values of the other kinds, negated too, where what is compared with null isn't so
facts {"certname":"a","environment":null,"values":{"f":false,"l":[1,"x"],"n":5,"o":{"a":1},"t":"5","u":1e400,"y":true,"z":null},"producer_timestamp":"2024-05-01T10:00:00Z"}
ask ["from","facts",["extract","name",["=","value",true]]]
told [{"name":"y"}]
ask ["from","facts",["extract","name",["=","value",10e399]]]
told []
ask ["from","facts",["extract","name",["<","value",1e400]]]
told []
ask ["from","facts",["extract","name",[">=","value",1e400]]]
told [{"name":"u"}]
ask ["from","facts",["extract","name",["<","value",6]]]
told [{"name":"n"}]
ask ["from","facts",["extract","name",["<","value",5]]]
told []
ask ["from","facts",["extract","name",["<=","value",5]]]
told [{"name":"n"}]
ask ["from","facts",["extract","name",[">","value",5]]]
told []
ask ["from","facts",["extract","name",["not",["=","value",5]]]]
told [{"name":"f"},{"name":"l"},{"name":"o"},{"name":"t"},{"name":"u"},{"name":"y"},{"name":"z"}]
ask ["from","facts",["extract","name",["~","value","^5$"]]]
told [{"name":"t"}]
ask ["from","facts",["extract","name",["null?","value",false]]]
told [{"name":"f"},{"name":"l"},{"name":"n"},{"name":"o"},{"name":"t"},{"name":"u"},{"name":"y"}]
ask ["from","facts",["extract","name",["and",["=","environment","x"],["=","name","n"]]]]
told []
ask ["from","facts",["extract","name",["or",["=","value",5],["=","value","5"],["=","value",5]]]]
told [{"name":"n"},{"name":"t"}]
fleet moments
facts {"certname":"a","values":{},"producer_timestamp":"2024-05-01T10:00:00.000000001Z"}
report {"certname":"b","producer_timestamp":"2024-05-01T10:00:00Z"}
ask ["from","nodes",["extract","certname",["=","facts_timestamp","2024-05-01T10:00:00Z"]]]
told []
ask ["from","nodes",["extract","certname",[">","facts_timestamp","2024-05-01T10:00:00Z"]]]
told [{"certname":"a"}]
ask ["from","nodes",["extract","certname",["<=","report_timestamp","2024-05-01T10:00:00Z"]]]
told [{"certname":"b"}]
ask ["from","nodes",["extract",["certname","facts_timestamp"],["null?","facts_timestamp",false]]]
told [{"certname":"a","facts_timestamp":"2024-05-01T10:00:00.000Z"}]
fleet tags, parameters and the facts of a node
catalog {"certname":"a","version":"1","producer_timestamp":"2024-05-01T10:00:00Z","edges":[],"resources":[{"type":"File","title":"/a","tags":["file","web"],"parameters":{"mode":"0644","size":7}},{"type":"File","title":"/b","tags":["file"],"parameters":{"mode":null}}]}
facts {"certname":"a","values":{"cores":4},"producer_timestamp":"2024-05-01T10:00:00Z"}
facts {"certname":"b","values":{"cores":"4"},"producer_timestamp":"2024-05-01T10:00:00Z"}
ask ["from","resources",["extract","title",["=","tag","web"]]]
told [{"title":"/a"}]
ask ["from","resources",["extract","title",["=","tag","file"]]]
told [{"title":"/a"},{"title":"/b"}]
ask ["from","resources",["extract","title",["null?",["parameter","mode"],true]]]
told [{"title":"/b"}]
ask ["from","resources",["extract","title",["~",["parameter","mode"],"^06"]]]
told [{"title":"/a"}]
ask ["from","nodes",["extract","certname",["=",["fact","cores"],4]]]
told [{"certname":"a"}]
ask ["from","nodes",["extract","certname",["~",["fact","cores"],"4"]]]
told [{"certname":"b"}]
ask ["from","nodes",["extract","certname",["null?",["fact","other"],true]]]
told [{"certname":"a"},{"certname":"b"}]
ask ["from","facts",["extract",["certname","value"],["in","certname",["extract","certname",["select_nodes",["=",["fact","cores"],"4"]]]]]]
told [{"certname":"b","value":"4"}]
ask ["from","nodes",["extract","certname",["and",["null?",["fact","cores"],false],["subquery","resources",["=","tag","web"]]]]]
told [{"certname":"a"}]
fleet levels within
facts {"certname":"a","environment":"x","values":{"k":"web1","l":"web2","m":null},"producer_timestamp":"2024-05-01T10:00:00Z"}
facts {"certname":"b","environment":"y","values":{"k":"db1"},"producer_timestamp":"2024-05-01T10:00:00Z"}
facts {"certname":"c","environment":"x","values":{"k":1.0},"producer_timestamp":"2024-05-01T10:00:00Z"}
facts {"certname":"d","environment":"x","values":{"k":1},"producer_timestamp":"2024-05-01T10:00:00Z"}
ask ["from","nodes",["extract","certname",["not",["in","certname",["extract","certname",["select_facts"]]]]]]
told []
ask ["from","nodes",["extract","certname",["in","certname",["array",["b","d","e"]]]]]
told [{"certname":"b"},{"certname":"d"}]
ask ["from","nodes",["extract","certname",["in","certname",["from","facts",["extract","certname"],["order_by",[["certname","desc"]]],["limit",2]]]]]
told [{"certname":"c"},{"certname":"d"}]
ask ["from","facts",["extract",["certname","name"],["in",["name","value"],["extract",["name","value"],["select_facts",["=","certname","c"]]]]]]
told [{"certname":"c","name":"k"},{"certname":"d","name":"k"}]
ask ["from","facts",["extract","name",["and",["=","certname","a"],["in",["name","value"],["extract",["name","value"],["select_facts"]]]]]]
told [{"name":"k"},{"name":"l"}]
ask ["from","factsets",["extract","certname",["subquery","facts",["=","value","db1"]]]]
told [{"certname":"b"}]
ask ["from","nodes",["extract","certname",["subquery","factsets",["in","environment",["extract","environment",["select_factsets",["subquery","facts",["=","value","db1"]]]]]]]]
told [{"certname":"b"}]
nodes ["extract",["certname","facts_environment"],["in","certname",["extract","certname",["select_facts",["~","value","^web"]]]]]
told [{"certname":"a","facts_environment":"x"}]
fleet rows that tie stay as they came, and what is past the end is nothing
facts {"certname":"a","values":{"a":null,"b":"x"},"producer_timestamp":"2024-05-01T10:00:00Z"}
facts {"certname":"b","values":{"a":"y"},"producer_timestamp":"2024-05-01T10:00:00Z"}
ask ["from","facts",["extract",["certname","name"]],["order_by",["name",["certname","desc"]]],["limit",2]]
told [{"certname":"b","name":"a"},{"certname":"a","name":"a"}]
ask ["from","facts",["extract",["certname","name"]],["order_by",[["certname","desc"]]]]
told [{"certname":"b","name":"a"},{"certname":"a","name":"a"},{"certname":"a","name":"b"}]
ask ["from","facts",["extract","name"],["offset",3]]
told []
ask ["from","facts",["extract","name"],["offset",9223372036854775807],["limit",9223372036854775807]]
told []
ask ["from","facts",["extract","name"],["limit",0]]
told []
ask ["from","facts",["extract",["environment","name"],["group_by","name","environment"]],["offset",1]]
told [{"environment":null,"name":"b"}]
ask ["from","facts",["extract",["name",["function","count","value"]],["group_by","name"]]]
told [{"name":"a","count":1},{"name":"b","count":1}]
fleet a node that expired, at the moment before it and behind it
facts {"certname":"a","environment":"production","values":{"k":1},"producer_timestamp":"2024-05-01T10:00:00Z","producer":"m"}
facts {"certname":"b","environment":"production","values":{"k":2},"producer_timestamp":"2024-05-08T10:00:00Z","producer":"m"}
expire 2024-05-08T10:00:00Z
ask ["from","facts",["extract","certname"]]
told [{"certname":"a"},{"certname":"b"}]
expire 2024-05-08T10:00:00.000000001Z
ask ["from","facts",["extract","certname"]]
told [{"certname":"b"}]
ask ["from","nodes",["extract",["certname","expired"],["=","node_state","inactive"]]]
told [{"certname":"a","expired":"2024-05-08T10:00:00.000Z"}]
fleet rows and literals that are found by their texts, of which one text may be that of a number and of a text
facts {"certname":"a","values":{"k1":1,"k2":"x","k3":null,"k4":{"a":1,"b":[2]},"k5":true,"k6":1e400,"k7":"1000000000000000000","k8":0.5,"k9":"y"},"producer_timestamp":"2024-05-01T10:00:00Z"}
facts {"certname":"b","values":{"k1":1.0,"k2":"x","k3":null,"k4":{"b":[2.0],"a":1.00},"k5":true,"k6":10e399,"k7":1,"k8":5e-1,"k9":"z"},"producer_timestamp":"2024-05-02T10:00:00Z"}
facts {"certname":"c","values":{},"producer_timestamp":"2024-05-03T10:00:00Z"}
ask ["from","facts",["extract","name",["and",["=","certname","b"],["in",["name","value"],["extract",["name","value"],["select_facts",["=","certname","a"]]]]]]]
told [{"name":"k1"},{"name":"k2"},{"name":"k4"},{"name":"k5"},{"name":"k8"}]
ask ["from","facts",["extract","name",["and",["=","certname","b"],["not",["in",["name","value"],["extract",["name","value"],["select_facts",["=","certname","a"]]]]]]]]
told [{"name":"k3"},{"name":"k6"},{"name":"k7"},{"name":"k9"}]
ask ["from","facts",["extract","name",["and",["=","certname","a"],["in","value",["extract","value",["select_facts",["=","certname","b"]]]]]]]
told [{"name":"k1"},{"name":"k2"},{"name":"k4"},{"name":"k5"},{"name":"k8"}]
ask ["from","nodes",["extract","certname",["subquery","facts"]]]
told [{"certname":"a"},{"certname":"b"}]
ask ["from","nodes",["extract","certname",["not",["subquery","facts",["not",["=","certname","b"]]]]]]
told [{"certname":"b"},{"certname":"c"}]
ask ["from","facts",["extract","name",["and",["=","certname","a"],["in","value",["array",["x",1.00,true,"2024-05-01T10:00:00Z","y",0.50,false,7,8,"9"]]]]]]
told [{"name":"k1"},{"name":"k2"},{"name":"k5"},{"name":"k8"},{"name":"k9"}]
ask ["from","facts",["extract",["certname","name"],["in","value",["array",["1000000000000000000",2,3,4,5,6,7,8,9,10,"",1e400]]]]]
told [{"certname":"a","name":"k6"},{"certname":"a","name":"k7"}]
ask ["from","nodes",["extract","certname",["in","facts_timestamp",["array",["2024-05-01T12:00:00+02:00","2024-05-03T10:00:00.000Z","2020-01-01T00:00:00Z","2020-01-02T00:00:00Z","2020-01-03T00:00:00Z","2020-01-04T00:00:00Z","2020-01-05T00:00:00Z","2020-01-06T00:00:00Z","2020-01-07T00:00:00Z"]]]]]
told [{"certname":"a"},{"certname":"c"}]
fleet a paging behind that of the query, which tells how many rows there were
facts {"certname":"a","values":{"x":1,"y":2,"z":3},"producer_timestamp":"2024-05-01T10:00:00Z"}
page ["from","facts",["extract","name"]]|["from","facts",["order_by",[["name","desc"]]],["limit",1],["offset",1]]
told 3 [{"name":"y"}]
fleet texts that are refused
ask ["from","facts",["=","value",01]]
told not json at 30
ask {}
told pql bad at 0
ask ["from","facts",["=","value"]]
told not a query 2
ask ["from","fact"]
told unknown entity 1
ask ["from","facts",["=","version","1"]]
told unknown field 2.1
ask ["from","facts",["<","value","1"]]
told bad operand 2.2
ask ["from","facts",["extract",[["function","sum","value"]],["~","value","("]]]
told bad pattern 2.2.2
nodes ["=","certname",["a"]]
told not a query 2"#;

#[test]
fn small_fleets_are_answered(rt: HostRuntime) -> Result<(), AllocError> {
    play(&rt, rt.alloc(), FLEETS)
}
