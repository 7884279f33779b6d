//! Documents with a kind of line ending.

pub const ENDINGS: &str = r#"
lf becomes cr lf and is had back
{"cmd":"open","text":"a\r\nb\rc","eol":"lf"} => ok 1 5 3
{"cmd":"decorate","owner":1,"remove":[],"add":[{"at":[2,3],"stick":0}]} => ok 1 1
{"cmd":"eol","kind":"crlf"} => ok 2 7 3
{"cmd":"deco","id":1} => ok 3 4 0 1
{"cmd":"position","offset":2} => ! range
{"cmd":"edit","ops":[{"at":[7,7],"text":"x\ny"}]} => ok 3 11 4
{"cmd":"undo"} => ok 4 7 3
{"cmd":"undo"} => ok 5 5 3
{"cmd":"deco","id":1} => ok 2 3 0 1
{"cmd":"eol","kind":"lf"} => ok none

a decoration inside a line ending goes before it
{"cmd":"open","text":"a\r\nb"} => ok 1 4 2
{"cmd":"decorate","owner":1,"remove":[],"add":[{"at":[2,2],"stick":0}]} => ok 1 1
{"cmd":"eol","kind":"lf"} => ok 2 3 2
{"cmd":"deco","id":1} => ok 1 1 0 1
{"cmd":"undo"} => ok 3 4 2
{"cmd":"deco","id":1} => ok 1 1 0 1

a change of kind is a step of its own
{"cmd":"open","text":"a","eol":"lf"} => ok 1 1 1
{"cmd":"edit","ops":[{"at":[1,1],"text":"\r"}]} => ok 2 2 2
{"cmd":"eol","kind":"lf"} => ok none
{"cmd":"edit","ops":[{"at":[2,2],"text":"b"}]} => ok 3 3 2
{"cmd":"eol","kind":"crlf"} => ok 4 4 2
{"cmd":"version"} => ok 4 4
{"cmd":"edit","ops":[{"at":[4,4],"text":"c"}]} => ok 5 5 2
{"cmd":"undo"} => ok 6 4 2
{"cmd":"undo"} => ok 7 3 2
{"cmd":"version"} => ok 7 3
{"cmd":"undo"} => ok 8 1 1
{"cmd":"redo"} => ok 9 3 2
{"cmd":"redo"} => ok 10 4 2
{"cmd":"value","at":[0,4]} => ok "a\r\nb"
{"cmd":"eol","kind":"lf"} => ok 11 3 2
{"cmd":"redo"} => ok none

an undo gives back line endings of all kinds
{"cmd":"open","text":"a\rb\n\r\nc"} => ok 1 7 4
{"cmd":"eol","kind":"crlf"} => ok 2 9 4
{"cmd":"value","at":[0,9]} => ok "a\r\nb\r\n\r\nc"
{"cmd":"undo"} => ok 3 7 4
{"cmd":"value","at":[0,7]} => ok "a\rb\n\r\nc"
{"cmd":"edit","ops":[{"at":[5,5],"text":"\r"}]} => ok 4 8 5
{"cmd":"eol","kind":"lf"} => ok 5 7 5

no place between a cr and its lf
{"cmd":"open","text":"a\nb","eol":"crlf"} => ok 1 4 2
{"cmd":"edit","ops":[{"at":[2,2],"text":"x"}]} => ! range
{"cmd":"edit","ops":[{"at":[0,2],"text":""}]} => ! range
{"cmd":"decorate","owner":1,"remove":[],"add":[{"at":[2,3],"stick":0}]} => ! range
{"cmd":"decos","at":[1,2]} => ! range
{"cmd":"value","at":[2,4]} => ! range
{"cmd":"offset","line":1,"col":3} => ! range
{"cmd":"edit","ops":[{"range":[1,2,2,1],"text":"\r\n\r"}]} => ok 2 6 3
{"cmd":"value","at":[0,6]} => ok "a\r\n\r\nb"

brackets and snapshots stay
{"cmd":"open","text":"(\n[\n]","eol":"crlf"} => ok 1 7 3
{"cmd":"match","line":2,"col":1} => ok 3 1 1
{"cmd":"snapshot"} => ok 1
{"cmd":"eol","kind":"lf"} => ok 2 5 3
{"cmd":"match","line":2,"col":1} => ok 3 1 1
{"cmd":"level","line":3,"col":1} => ok 2
{"cmd":"read","id":1,"count":9} => ok "(\r\n[\r\n]"

lines that name no kind
{"cmd":"open","text":"a","eol":"mixed"} => ! syntax
{"cmd":"open","text":"a","eol":null} => ! syntax
{"cmd":"eol"} => ! syntax
{"cmd":"eol","kind":"LF"} => ! syntax
{"cmd":"eol","kind":"lf","n":1} => ! syntax
{"cmd":"eol","kind":"lf"} => ok 2 0 1
"#;
