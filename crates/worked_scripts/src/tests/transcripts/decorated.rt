//! Decorations while the text under them is edited.

/// One decoration of each mode.
pub const FOUR_MODES: &str = r#"
{"cmd":"open","text":"abcdefgh"} => ok 1 8 1
{"cmd":"decorate","owner":1,"remove":[],"add":[{"at":[2,5],"stick":0}]} => ok 1 1
{"cmd":"decorate","owner":1,"remove":[],"add":[{"at":[2,5],"stick":1}]} => ok 2 1
{"cmd":"decorate","owner":1,"remove":[],"add":[{"at":[2,5],"stick":2}]} => ok 3 1
{"cmd":"decorate","owner":1,"remove":[],"add":[{"at":[2,5],"stick":3}]} => ok 4 1
"#;

/// How edits change the decorations of `FOUR_MODES`.
pub const EACH_MODE: &str = r#"
each mode at its start
{"cmd":"edit","ops":[{"at":[2,2],"text":"xyz"}]} => ok 2 11 1
{"cmd":"deco","id":1} => ok 2 8 0 1
{"cmd":"deco","id":2} => ok 5 8 1 1
{"cmd":"deco","id":3} => ok 2 8 2 1
{"cmd":"deco","id":4} => ok 5 8 3 1

each mode at its end
{"cmd":"edit","ops":[{"at":[5,5],"text":"xyz"}]} => ok 2 11 1
{"cmd":"decos","at":[0,11]} => ok 2 2 5 3 2 5 1 2 8 4 2 8
"#;

pub const DECORATED: &str = r#"
an undo does not put decorations back
{"cmd":"open","text":"abcdefgh"} => ok 1 8 1
{"cmd":"decorate","owner":1,"remove":[],"add":[{"at":[2,5],"stick":1}]} => ok 1 1
{"cmd":"edit","ops":[{"at":[0,8],"text":""}]} => ok 2 0 1
{"cmd":"deco","id":1} => ok 0 0 1 1
{"cmd":"undo"} => ok 3 8 1
{"cmd":"deco","id":1} => ok 8 8 1 1

refusals of decorations
{"cmd":"decorate","owner":1,"remove":[],"add":[{"at":[0,0],"stick":0}]} => ok 1 1
{"cmd":"decorate","owner":1,"remove":[1,1],"add":[]} => ! unknown
{"cmd":"decorate","owner":2,"remove":[1],"add":[]} => ! unknown
{"cmd":"deco","id":1} => ok 0 0 0 1
{"cmd":"decorate","owner":1,"remove":[1],"add":[]} => ok 2 0
{"cmd":"deco","id":1} => ! unknown
{"cmd":"decorate","owner":1,"remove":[],"add":[{"at":[0,0],"stick":4}]} => ! range

one collapses and one does not
{"cmd":"open","text":"abcdefgh"} => ok 1 8 1
{"cmd":"decorate","owner":1,"remove":[],"add":[{"at":[2,5],"stick":0,"collapse":true},{"at":[2,5],"stick":0}]} => ok 1 2
{"cmd":"edit","ops":[{"at":[1,6],"text":"XYZ"}]} => ok 2 6 1
{"cmd":"deco","id":1} => ok 1 1 0 1
{"cmd":"deco","id":2} => ok 2 4 0 1

force moves what stands at the edit
{"cmd":"open","text":"ab"} => ok 1 2 1
{"cmd":"decorate","owner":1,"remove":[],"add":[{"at":[1,1],"stick":0}]} => ok 1 1
{"cmd":"edit","ops":[{"at":[1,1],"text":"x","force":true}]} => ok 2 3 1
{"cmd":"deco","id":1} => ok 2 2 0 1
{"cmd":"undo"} => ok 3 2 1
{"cmd":"deco","id":1} => ok 1 1 0 1
{"cmd":"redo"} => ok 4 3 1
{"cmd":"deco","id":1} => ok 1 2 0 1

without force it grows
{"cmd":"open","text":"ab"} => ok 1 2 1
{"cmd":"decorate","owner":1,"remove":[],"add":[{"at":[1,1],"stick":0}]} => ok 1 1
{"cmd":"edit","ops":[{"at":[1,1],"text":"x"}]} => ok 2 3 1
{"cmd":"deco","id":1} => ok 1 2 0 1

decorations that touch a span
{"cmd":"open","text":"abcdefgh"} => ok 1 8 1
{"cmd":"decorate","owner":1,"remove":[],"add":[{"at":[2,5],"stick":0}]} => ok 1 1
{"cmd":"decorate","owner":1,"remove":[],"add":[{"at":[5,5],"stick":1}]} => ok 2 1
{"cmd":"decorate","owner":1,"remove":[],"add":[{"at":[6,8],"stick":0}]} => ok 3 1
{"cmd":"decos","at":[5,5]} => ok 1 2 5 2 5 5
{"cmd":"decos","at":[5,5],"owner":9} => ok
{"cmd":"decos","at":[5,9]} => ! range
"#;
