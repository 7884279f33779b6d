//! Edits of several documents at once, and their history steps.

pub const JOINED: &str = r#"
a joint edit is undone and made again in both documents, until one can no longer make it again
{"cmd":"open","text":"a"} => ok 1 1 1
{"cmd":"open","doc":1,"text":"b"} => ok 1 1 1
{"cmd":"joint","edits":[{"doc":0,"ops":[{"at":[1,1],"text":"x"}]},{"doc":1,"ops":[{"at":[0,0],"text":"y"}]}]} => ok 0 2 2 1 1 2 2 1
{"cmd":"edit","doc":1,"ops":[{"at":[2,2],"text":"z"}]} => ok 3 3 1
{"cmd":"undo"} => ! joint 1
{"cmd":"undo","doc":1} => ok 4 2 1
{"cmd":"undo"} => ok 3 1 1
{"cmd":"size","doc":1} => ok 1 1
{"cmd":"redo","doc":1} => ok 6 2 1
{"cmd":"line","n":1} => ok "ax"
{"cmd":"undo"} => ok 5 1 1
{"cmd":"edit","doc":1,"ops":[{"at":[0,0],"text":"q"}]} => ok 8 2 1
{"cmd":"redo"} => ok 6 2 1
{"cmd":"line","doc":1,"n":1} => ok "qb"
{"cmd":"size","doc":64} => ! unknown
{"cmd":"joint","edits":[{"doc":0,"ops":[{"at":[1,1],"text":"x"}]},{"doc":1,"ops":[{"at":[9,9],"text":"y"}]}]} => ! range
{"cmd":"version"} => ok 6 2
"#;
