//! Batches, undo and redo.

pub const BATCHES: &str = r#"
an undo takes cr lf apart
{"cmd":"open","text":"a\rX\nb"} => ok 1 5 3
{"cmd":"edit","ops":[{"at":[2,3],"text":""}]} => ok 2 4 2
{"cmd":"undo"} => ok 3 5 3

two edits in the other order
{"cmd":"open","text":"abcdef"} => ok 1 6 1
{"cmd":"edit","ops":[{"at":[4,5],"text":"Y"},{"at":[1,2],"text":"XX"}]} => ok 2 7 1
{"cmd":"value","at":[0,7]} => ok "aXXcdYf"

two inserts at one place
{"cmd":"open","text":"ab"} => ok 1 2 1
{"cmd":"edit","ops":[{"at":[1,1],"text":"1"},{"at":[1,1],"text":"2"}]} => ok 2 4 1
{"cmd":"line","n":1} => ok "a12b"
{"cmd":"undo"} => ok 3 2 1
{"cmd":"line","n":1} => ok "ab"

edits that overlap and edits that touch
{"cmd":"open","text":"abcde"} => ok 1 5 1
{"cmd":"edit","ops":[{"at":[1,4],"text":""},{"at":[3,3],"text":"z"}]} => ! overlap
{"cmd":"edit","ops":[{"at":[1,3],"text":""},{"at":[3,3],"text":"z"}]} => ok 2 4 1
{"cmd":"line","n":1} => ok "azde"

a range that is none comes before an overlap
{"cmd":"open","text":"abcde"} => ok 1 5 1
{"cmd":"edit","ops":[{"at":[1,4],"text":""},{"at":[3,3],"text":""},{"range":[1,1,2,1],"text":""}]} => ! range

nothing to undo
{"cmd":"undo"} => ok none
{"cmd":"version"} => ok 1 1

steps back and on with their versions
{"cmd":"open","text":""} => ok 1 0 1
{"cmd":"edit","ops":[{"at":[0,0],"text":"a"}]} => ok 2 1 1
{"cmd":"edit","ops":[{"at":[1,1],"text":"b"}]} => ok 3 2 1
{"cmd":"stop"} => ok
{"cmd":"edit","ops":[{"at":[2,2],"text":"c"}]} => ok 4 3 1
{"cmd":"undo"} => ok 5 2 1
{"cmd":"version"} => ok 5 3
{"cmd":"undo"} => ok 6 0 1
{"cmd":"version"} => ok 6 1
{"cmd":"redo"} => ok 7 2 1
{"cmd":"version"} => ok 7 3
{"cmd":"redo"} => ok 8 3 1
{"cmd":"version"} => ok 8 4
{"cmd":"redo"} => ok none
"#;
