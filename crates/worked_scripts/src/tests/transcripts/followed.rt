//! A mirror and the events sent to it.

pub const FOLLOWED: &str = r#"
events come in another order, and again
{"cmd":"open","text":"ab"} => ok 1 2 1
{"cmd":"mirror"} => ok 1
{"cmd":"edit","ops":[{"at":[0,0],"text":"x"}]} => ok 2 3 1
{"cmd":"send"} => ok 1 1
{"cmd":"edit","ops":[{"at":[3,3],"text":"y"}]} => ok 3 4 1
{"cmd":"send"} => ok 2 2
{"cmd":"deliver","n":2} => ! gap 1 2
{"cmd":"deliver","n":1} => ok 2 3 1
{"cmd":"deliver","n":1} => ok old
{"cmd":"mirrored","n":1} => ok "xab"
{"cmd":"deliver","n":2} => ok 3 4 1
{"cmd":"mirrored","n":1} => ok "xaby"
{"cmd":"deliver","n":3} => ! unknown
{"cmd":"deliver","n":0} => ! unknown
{"cmd":"mirrored","n":0} => ! range
{"cmd":"mirrored","n":2} => ! range

an undo and a redo of several batches
{"cmd":"open","text":"abcdef"} => ok 1 6 1
{"cmd":"edit","ops":[{"at":[4,5],"text":"Y"},{"at":[1,2],"text":"XX\n"}]} => ok 2 8 2
{"cmd":"edit","ops":[{"at":[0,4],"text":""}]} => ok 3 4 1
{"cmd":"mirror"} => ok 3
{"cmd":"undo"} => ok 4 6 1
{"cmd":"send"} => ok 1 3
{"cmd":"redo"} => ok 5 4 1
{"cmd":"send"} => ok 2 4
{"cmd":"deliver","n":1} => ok 4 6 1
{"cmd":"mirrored","n":1} => ok "abcdef"
{"cmd":"deliver","n":2} => ok 5 4 1
{"cmd":"mirrored","n":1} => ok "cdYf"

other line endings
{"cmd":"open","text":"a\r\nb\rc","eol":"lf"} => ok 1 5 3
{"cmd":"mirror"} => ok 1
{"cmd":"eol","kind":"crlf"} => ok 2 7 3
{"cmd":"send"} => ok 1 1
{"cmd":"edit","ops":[{"at":[7,7],"text":"\n"}]} => ok 3 9 4
{"cmd":"send"} => ok 2 2
{"cmd":"deliver","n":1} => ok 2 7 3
{"cmd":"deliver","n":2} => ok 3 9 4
{"cmd":"mirrored","n":3} => ok "c"
{"cmd":"undo"} => ok 4 7 3
{"cmd":"undo"} => ok 5 5 3
{"cmd":"send"} => ok 3 4
{"cmd":"deliver","n":3} => ! gap 3 4

two halves of a line break in two ops
{"cmd":"open","text":"a😀"} => ok 1 3 1
{"cmd":"mirror"} => ok 1
{"cmd":"edit","ops":[{"at":[1,3],"text":"\r"},{"at":[3,3],"text":"\n"}]} => ok 2 3 2
{"cmd":"send"} => ok 1 1
{"cmd":"deliver","n":1} => ok 2 3 2
{"cmd":"mirrored","n":2} => ok ""

what changes no text is no event
{"cmd":"send"} => ok none
{"cmd":"undo"} => ok none
{"cmd":"send"} => ok none
{"cmd":"edit","ops":[{"at":[0,0],"text":""}]} => ok 2 0 1
{"cmd":"send"} => ok 1 1
{"cmd":"stop"} => ok
{"cmd":"snapshot"} => ok 1
{"cmd":"decorate","owner":1,"remove":[],"add":[{"at":[0,0],"stick":0}]} => ok 1 1
{"cmd":"send"} => ok 2 1

without a mirror
{"cmd":"deliver","n":1} => ! unknown
{"cmd":"mirrored","n":1} => ! unknown
{"cmd":"edit","ops":[{"at":[0,0],"text":"a"}]} => ok 2 1 1
{"cmd":"send"} => ok 1 1
{"cmd":"deliver","n":1} => ! unknown
{"cmd":"mirror"} => ok 2
{"cmd":"deliver","n":1} => ok old
{"cmd":"mirrored","n":1} => ok "a"

a second mirror takes the place of the first, and a new document of both
{"cmd":"mirror"} => ok 1
{"cmd":"edit","ops":[{"at":[0,0],"text":"a"}]} => ok 2 1 1
{"cmd":"send"} => ok 1 1
{"cmd":"mirror"} => ok 2
{"cmd":"deliver","n":1} => ok old
{"cmd":"open","text":"b","eol":"cr"} => ! syntax
{"cmd":"mirrored","n":1} => ok "a"
{"cmd":"open","text":"b"} => ok 1 1 1
{"cmd":"mirrored","n":1} => ! unknown
{"cmd":"mirror"} => ok 1
{"cmd":"deliver","n":1} => ! unknown

mirror commands with other fields
{"cmd":"mirror","n":1} => ! syntax
{"cmd":"send","n":1} => ! syntax
{"cmd":"deliver"} => ! syntax
{"cmd":"deliver","n":"1"} => ! syntax
{"cmd":"mirrored","line":1} => ! syntax
"#;
