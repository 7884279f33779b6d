//! A script that contains each command once, with its replies.

pub const EVERY_COMMAND: &str = r#"
{"cmd":"open","text":"(a)\r\nb"} => ok 1 6 2
{"cmd":"decorate","owner":1,"remove":[],"add":[{"at":[1,2],"stick":0}]} => ok 1 1
{"cmd":"snapshot"} => ok 1
{"cmd":"brackets","from":1,"to":2} => ok 1 1 1 0 o 0 1 3 1 0 c 0
{"cmd":"edit","ops":[{"at":[4,4],"text":"["},{"at":[1,1],"text":"x"}]} => ok 2 8 3
{"cmd":"stop"} => ok
{"cmd":"mirror"} => ok 2
{"cmd":"match","line":1,"col":1} => ok 1 4 1
{"cmd":"level","line":2,"col":2} => ok 1
{"cmd":"deco","id":1} => ok 1 3 0 1
{"cmd":"decos","at":[0,8]} => ok 1 1 3
{"cmd":"undo"} => ok 3 6 2
{"cmd":"changes"} => ok 3 5 6 "" 1 2 ""
{"cmd":"send"} => ok 1 2
{"cmd":"deliver","n":1} => ok 3 6 2
{"cmd":"mirrored","n":1} => ok "(a)"
{"cmd":"redo"} => ok 4 8 3
{"cmd":"version"} => ok 4 2
{"cmd":"size"} => ok 8 3
{"cmd":"line","n":1} => ok "(xa)"
{"cmd":"value","at":[4,7]} => ok "\r[\n"
{"cmd":"offset","line":3,"col":1} => ok 7
{"cmd":"position","offset":5} => ok 2 1
{"cmd":"stops","n":1} => ok 1 2 3 4
{"cmd":"find","text":"a"} => ok 2 3
{"cmd":"read","id":1,"count":4} => ok "(a)\r"
{"cmd":"close","id":1} => ok
{"cmd":"replace","find":"x","text":"yy"} => ok 5 9 3
{"cmd":"eol","kind":"crlf"} => ok 6 11 3
{"cmd":"joint","edits":[{"doc":0,"ops":[{"at":[0,0],"text":"z"}]},{"doc":1,"ops":[{"at":[0,0],"text":"w"}]}]} => ok 0 7 12 3 1 2 1 1
"#;
