//! Brackets hidden by comments and strings.

pub const HIDDEN: &str = r#"
a comment over two lines, and an edit that takes its beginning away
{"cmd":"open","text":"( /* )\n) */ )","marks":{"block":["/*","*/"]}} => ok 1 13 2
{"cmd":"brackets","from":1,"to":2} => ok 1 1 1 0 o 0 2 6 1 0 c 0
{"cmd":"edit","ops":[{"at":[2,4],"text":""}]} => ok 2 11 2
{"cmd":"brackets","from":1,"to":2} => ok 1 1 1 0 o 0 1 4 1 0 c 0 2 1 1 0 x 0 2 6 1 0 x 0
{"cmd":"undo"} => ok 3 13 2
{"cmd":"brackets","from":1,"to":2} => ok 1 1 1 0 o 0 2 6 1 0 c 0
{"cmd":"redo"} => ok 4 11 2
{"cmd":"match","line":1,"col":1} => ok 1 4 1

a comment that an edit begins, and no line ends
{"cmd":"open","text":"(\n(\n(","marks":{"block":["/*","*/"]}} => ok 1 5 3
{"cmd":"level","line":3,"col":2} => ok 3
{"cmd":"edit","ops":[{"at":[1,1],"text":"/*"}]} => ok 2 7 3
{"cmd":"level","line":3,"col":2} => ok 1
{"cmd":"match","line":2,"col":1} => ok none
{"cmd":"brackets","from":2,"to":3} => ok

a quote behind a backslash
{"cmd":"open","text":"\"(\\\"(\" (","marks":{"quotes":["\""]}} => ok 1 8 1
{"cmd":"brackets","from":1,"to":1} => ok 1 8 1 0 u 0

a string and a line comment end with their line
{"cmd":"open","text":"'(\n( // )\n)","marks":{"line":"//","quotes":["'"]}} => ok 1 11 3
{"cmd":"brackets","from":1,"to":3} => ok 2 1 1 0 o 0 3 1 1 0 c 0

the mark of a line comment comes before all others, and a mark before a bracket
{"cmd":"open","text":"/* (\n[","marks":{"line":"/","block":["/*","*/"]}} => ok 1 6 2
{"cmd":"brackets","from":1,"to":2} => ok 2 1 1 1 u 0
{"cmd":"open","text":"((a","marks":{"block":["((","))"]}} => ok 1 3 1
{"cmd":"level","line":1,"col":4} => ok 0

marks that name nothing
{"cmd":"open","text":"/*(","marks":{}} => ok 1 3 1
{"cmd":"brackets","from":1,"to":1} => ok 1 3 1 0 u 0

lines that name no marks
{"cmd":"open","text":"(","marks":{"line":""}} => ! syntax
{"cmd":"open","text":"(","marks":{"line":"//","lines":"//"}} => ! syntax
{"cmd":"open","text":"(","marks":{"block":["/*"]}} => ! syntax
{"cmd":"open","text":"(","marks":{"quotes":["\\"]}} => ! syntax
{"cmd":"open","text":"(","marks":{"quotes":["''"]}} => ! syntax
{"cmd":"open","text":"(","marks":{"quotes":["'","'"]}} => ! syntax
{"cmd":"open","text":"(","marks":null} => ! syntax
{"cmd":"size"} => ok 0 1
"#;
