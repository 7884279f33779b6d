//! Brackets while the text is edited.

pub const NESTED: &str = r#"
a bracket that an edit pairs
{"cmd":"open","text":"x\n)"} => ok 1 3 2
{"cmd":"brackets","from":1,"to":2} => ok 2 1 1 0 x 0
{"cmd":"edit","ops":[{"at":[0,0],"text":"("}]} => ok 2 4 2
{"cmd":"brackets","from":1,"to":2} => ok 1 1 1 0 o 0 2 1 1 0 c 0

paired unclosed and unexpected
{"cmd":"open","text":"([)]{"} => ok 1 5 1
{"cmd":"brackets","from":1,"to":1} => ok 1 1 1 0 o 0 1 2 1 1 u 1 1 3 1 0 c 0 1 4 1 1 x 0 1 5 1 2 u 0
{"cmd":"match","line":1,"col":1} => ok 1 3 1
{"cmd":"match","line":1,"col":2} => ok none
{"cmd":"level","line":1,"col":3} => ok 2
{"cmd":"level","line":1,"col":4} => ok 0
{"cmd":"level","line":1,"col":6} => ok 1
{"cmd":"brackets","from":1,"to":2} => ! range
{"cmd":"level","line":2,"col":1} => ! range

texts of more units
{"cmd":"open","text":"begin ab end","brackets":[["begin","end"]]} => ok 1 12 1
{"cmd":"brackets","from":1,"to":1} => ok 1 1 5 0 o 0 1 10 3 0 c 0
{"cmd":"open","text":"<<<","brackets":[["<","<<"]]} => ok 1 3 1
{"cmd":"brackets","from":1,"to":1} => ok 1 1 2 0 x 0 1 3 1 0 u 0
{"cmd":"open","text":"a","brackets":[]} => ! syntax
{"cmd":"open","text":"a","brackets":[["a","a"]]} => ! syntax
{"cmd":"size"} => ok 3 1

an undo of brackets
{"cmd":"open","text":"()"} => ok 1 2 1
{"cmd":"match","line":1,"col":1} => ok 1 2 1
{"cmd":"edit","ops":[{"at":[1,1],"text":"]"}]} => ok 2 3 1
{"cmd":"match","line":1,"col":1} => ok 1 3 1
{"cmd":"brackets","from":1,"to":1} => ok 1 1 1 0 o 0 1 2 1 1 x 1 1 3 1 0 c 0
{"cmd":"undo"} => ok 3 2 1
{"cmd":"brackets","from":1,"to":1} => ok 1 1 1 0 o 0 1 2 1 0 c 0
{"cmd":"redo"} => ok 4 3 1
{"cmd":"level","line":1,"col":3} => ok 1
"#;
