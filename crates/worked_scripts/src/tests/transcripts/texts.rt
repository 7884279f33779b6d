//! Texts, their edits, lines and positions, and lines that are not commands.

pub const TEXTS: &str = r#"
an edit over a break
{"cmd":"open","text":"ab\ncd"} => ok 1 5 2
{"cmd":"edit","ops":[{"at":[1,4],"text":"X"}]} => ok 2 3 1
{"cmd":"line","n":1} => ok "aXd"
{"cmd":"size"} => ok 3 1

a new document
{"cmd":"size"} => ok 0 1

a place inside an emoji
{"cmd":"open","text":"😀"} => ok 1 2 1
{"cmd":"edit","ops":[{"at":[1,1],"text":"x"}]} => ! range
{"cmd":"size"} => ok 2 1

a text with escapes
{"cmd":"open","text":"a\"\\\t\u0001"} => ok 1 5 1
{"cmd":"line","n":1} => ok "a\"\\\t\u0001"

positions and offsets
{"cmd":"open","text":"a\r\nb\rc\nd"} => ok 1 8 4
{"cmd":"position","offset":2} => ok 1 3
{"cmd":"offset","line":1,"col":3} => ! range
{"cmd":"offset","line":4,"col":2} => ok 8
{"cmd":"position","offset":9} => ! range

breaks that an edit splits and joins
{"cmd":"open","text":"a\r\nb"} => ok 1 4 2
{"cmd":"edit","ops":[{"at":[2,2],"text":"X"}]} => ok 2 5 3
{"cmd":"open","text":"a\r"} => ok 1 2 2
{"cmd":"edit","ops":[{"at":[2,2],"text":"\n"}]} => ok 2 3 2

edits by range
{"cmd":"open","text":"a\r\nb"} => ok 1 4 2
{"cmd":"edit","ops":[{"range":[1,3,2,1],"text":"-"}]} => ! range
{"cmd":"edit","ops":[{"range":[1,2,2,1],"text":"-"}]} => ok 2 3 1
{"cmd":"value","at":[0,3]} => ok "a-b"

lines that are no commands
{"cmd":"size","x":1} => ! syntax
{"cmd":"line","n":1.0} => ! syntax
{"cmd":"line","n":-1} => ! syntax
{"cmd":"line","n":18446744073709551616} => ! syntax
{"cmd":"edit","ops":[]} => ! syntax
{"cmd":"open"} => ! syntax
{"cmd":"open","text":"\ud83d"} => ! syntax
[] => ! syntax
{} => ! syntax
{"cmd":"size"} x => ! syntax
{"cmd":"size"} => ok 0 1
"#;
