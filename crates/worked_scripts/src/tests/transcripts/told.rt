//! The effect of the last change, as a sequence of edits.

pub const TOLD: &str = r#"
a batch is told from its last op to its first
{"cmd":"open","text":"abcdef"} => ok 1 6 1
{"cmd":"changes"} => ok 1
{"cmd":"edit","ops":[{"at":[4,5],"text":"Y"},{"at":[1,2],"text":"XX"},{"at":[1,1],"text":"-"}]} => ok 2 8 1
{"cmd":"changes"} => ok 2 4 5 "Y" 1 2 "XX" 1 1 "-"
{"cmd":"undo"} => ok 3 6 1
{"cmd":"changes"} => ok 3 6 7 "e" 2 4 "b" 1 2 ""
{"cmd":"redo"} => ok 4 8 1
{"cmd":"changes"} => ok 4 4 5 "Y" 1 2 "XX" 1 1 "-"

an undo of several edits begins with the last one
{"cmd":"open","text":""} => ok 1 0 1
{"cmd":"edit","ops":[{"at":[0,0],"text":"one long text"}]} => ok 2 13 1
{"cmd":"edit","ops":[{"at":[4,9],"text":""}]} => ok 3 8 1
{"cmd":"changes"} => ok 3 4 9 ""
{"cmd":"undo"} => ok 4 0 1
{"cmd":"changes"} => ok 4 4 4 "long " 0 13 ""
{"cmd":"redo"} => ok 5 8 1
{"cmd":"changes"} => ok 5 0 0 "one long text" 4 9 ""
{"cmd":"undo"} => ok 6 0 1
{"cmd":"undo"} => ok none
{"cmd":"changes"} => ok 6 4 4 "long " 0 13 ""

what changes no text leaves the last change
{"cmd":"open","text":"ab"} => ok 1 2 1
{"cmd":"edit","ops":[{"at":[1,1],"text":"\"\\\n"}]} => ok 2 5 2
{"cmd":"edit","ops":[{"at":[9,9],"text":"c"}]} => ! range
{"cmd":"decorate","owner":1,"remove":[],"add":[{"at":[0,1],"stick":0}]} => ok 1 1
{"cmd":"snapshot"} => ok 1
{"cmd":"stop"} => ok
{"cmd":"replace","find":"z","text":"y"} => ok none
{"cmd":"changes"} => ok 2 1 1 "\"\\\n"

only the endings that differ are told, and the same ones on the way back
{"cmd":"open","text":"a\r\nb\nc\r\r\nd"} => ok 1 10 5
{"cmd":"eol","kind":"crlf"} => ok 2 12 5
{"cmd":"changes"} => ok 2 6 7 "\r\n" 4 5 "\r\n"
{"cmd":"undo"} => ok 3 10 5
{"cmd":"changes"} => ok 3 7 9 "\r" 4 6 "\n"
{"cmd":"redo"} => ok 4 12 5
{"cmd":"changes"} => ok 4 6 7 "\r\n" 4 5 "\r\n"
{"cmd":"eol","kind":"lf"} => ok 5 8 5
{"cmd":"changes"} => ok 5 9 11 "\n" 7 9 "\n" 4 6 "\n" 1 3 "\n"

a change of kind without an ending to change
{"cmd":"open","text":"a\nb"} => ok 1 3 2
{"cmd":"eol","kind":"lf"} => ok 2 3 2
{"cmd":"changes"} => ok 2
{"cmd":"edit","ops":[{"at":[3,3],"text":"\r\n"}]} => ok 3 4 3
{"cmd":"changes"} => ok 3 3 3 "\n"

each document of a joint edit has its own, and so have a replace and an undo
{"cmd":"open","text":"aa"} => ok 1 2 1
{"cmd":"joint","edits":[{"doc":0,"ops":[{"at":[1,1],"text":"x"}]},{"doc":7,"ops":[{"at":[0,0],"text":"y"}]}]} => ok 0 2 3 1 7 2 1 1
{"cmd":"changes"} => ok 2 1 1 "x"
{"cmd":"changes","doc":7} => ok 2 0 0 "y"
{"cmd":"replace","find":"a","text":"bb"} => ok 3 5 1
{"cmd":"changes"} => ok 3 2 3 "bb" 0 1 "bb"
{"cmd":"changes","doc":7} => ok 2 0 0 "y"
{"cmd":"undo"} => ok 4 3 1
{"cmd":"undo"} => ok 5 2 1
{"cmd":"changes"} => ok 5 1 2 ""
{"cmd":"changes","doc":7} => ok 3 0 1 ""
{"cmd":"changes","doc":64} => ! unknown
{"cmd":"changes","n":1} => ! syntax
"#;
