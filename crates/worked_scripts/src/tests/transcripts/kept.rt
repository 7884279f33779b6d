//! Snapshots read while the text is edited, and the stops of a cursor.

pub const KEPT: &str = r#"
a snapshot is read and closed
{"cmd":"open","text":"hi"} => ok 1 2 1
{"cmd":"snapshot"} => ok 1
{"cmd":"edit","ops":[{"at":[0,0],"text":"x"}]} => ok 2 3 1
{"cmd":"read","id":1,"count":2} => ok "hi"
{"cmd":"read","id":1,"count":2} => ok ""
{"cmd":"close","id":1} => ok
{"cmd":"close","id":1} => ! unknown
{"cmd":"snapshot"} => ok 2

snapshots of two moments
{"cmd":"open","text":"ab"} => ok 1 2 1
{"cmd":"snapshot"} => ok 1
{"cmd":"edit","ops":[{"at":[1,1],"text":"\r\n"}]} => ok 2 4 2
{"cmd":"snapshot"} => ok 2
{"cmd":"undo"} => ok 3 2 1
{"cmd":"read","id":2,"count":2} => ok "a\r"
{"cmd":"redo"} => ok 4 4 2
{"cmd":"read","id":1,"count":9} => ok "ab"
{"cmd":"close","id":1} => ok
{"cmd":"read","id":2,"count":9} => ok "\nb"

a pair of surrogates is not cut
{"cmd":"open","text":"a😀"} => ok 1 3 1
{"cmd":"snapshot"} => ok 1
{"cmd":"read","id":1,"count":2} => ok "a"
{"cmd":"read","id":1,"count":2} => ok "😀"

a read of one unit
{"cmd":"open","text":"hi"} => ok 1 2 1
{"cmd":"snapshot"} => ok 1
{"cmd":"read","id":1,"count":1} => ! range
{"cmd":"read","id":2,"count":1} => ! unknown
{"cmd":"read","id":1,"count":18446744073709551615} => ok "hi"

a new document has no snapshots
{"cmd":"snapshot"} => ok 1
{"cmd":"open","text":"hi"} => ok 1 2 1
{"cmd":"read","id":1,"count":2} => ! unknown
{"cmd":"snapshot"} => ok 1

snapshot commands with other fields
{"cmd":"snapshot","id":1} => ! syntax
{"cmd":"read","id":1} => ! syntax
{"cmd":"close"} => ! syntax
{"cmd":"stops","n":1,"id":1} => ! syntax

where a cursor may stop
{"cmd":"open","text":"e\u0301x"} => ok 1 3 1
{"cmd":"stops","n":1} => ok 1 3
{"cmd":"stops","n":2} => ! range
{"cmd":"stops","n":0} => ! range
{"cmd":"open","text":""} => ok 1 0 1
{"cmd":"stops","n":1} => ok
"#;
