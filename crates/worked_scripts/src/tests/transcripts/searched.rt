//! Searches, and replacements of all matches.

pub const SEARCHED: &str = r#"
what is found does not overlap, and all of it is replaced
{"cmd":"open","text":"aaaa"} => ok 1 4 1
{"cmd":"find","text":"aa"} => ok 0 2 2 4
{"cmd":"replace","find":"aa","text":"b"} => ok 2 2 1
{"cmd":"line","n":1} => ok "bb"
{"cmd":"undo"} => ok 3 4 1
{"cmd":"replace","find":"z","text":""} => ok none
{"cmd":"version"} => ok 3 1
{"cmd":"find","text":""} => ! syntax
{"cmd":"redo"} => ok 4 2 1

a text that an insert brings together
{"cmd":"open","text":"ab"} => ok 1 2 1
{"cmd":"edit","ops":[{"at":[1,1],"text":"xy"}]} => ok 2 4 1
{"cmd":"find","text":"ax"} => ok 0 2

a text whose pieces what is sought crosses
{"cmd":"open","text":"abaabba"} => ok 1 7 1
{"cmd":"edit","ops":[{"at":[2,2],"text":"b"}]} => ok 2 8 1
{"cmd":"find","text":"bba"} => ok 1 4 5 8
{"cmd":"find","text":"aba"} => ok
{"cmd":"replace","find":"aba","text":"X"} => ok none
{"cmd":"replace","find":"bba","text":"X"} => ok 3 4 1
{"cmd":"line","n":1} => ok "aXaX"
{"cmd":"undo"} => ok 4 8 1
{"cmd":"line","n":1} => ok "abbaabba"

what is found overlaps nothing that was found before it
{"cmd":"open","text":"aab"} => ok 1 3 1
{"cmd":"edit","ops":[{"at":[1,1],"text":"aa"}]} => ok 2 5 1
{"cmd":"find","text":"aa"} => ok 0 2 2 4
{"cmd":"find","text":"aab"} => ok 2 5
{"cmd":"find","text":"aaaaba"} => ok

pairs that an insert parts or brings together
{"cmd":"open","text":"a😀😀b"} => ok 1 6 1
{"cmd":"edit","ops":[{"at":[3,3],"text":"b"}]} => ok 2 7 1
{"cmd":"find","text":"😀b"} => ok 1 4 4 7
{"cmd":"open","text":"a\rb"} => ok 1 3 2
{"cmd":"edit","ops":[{"at":[2,2],"text":"\n"}]} => ok 2 4 2
{"cmd":"find","text":"\n"} => ok 2 3

a replace is a step of its own, and one that finds nothing is none
{"cmd":"open","text":"b"} => ok 1 1 1
{"cmd":"edit","ops":[{"at":[0,0],"text":"a"}]} => ok 2 2 1
{"cmd":"replace","find":"x","text":""} => ok none
{"cmd":"edit","ops":[{"at":[0,0],"text":"a"}]} => ok 3 3 1
{"cmd":"replace","find":"aa","text":"xxxx"} => ok 4 5 1
{"cmd":"edit","ops":[{"at":[0,0],"text":"a"}]} => ok 5 6 1
{"cmd":"undo"} => ok 6 5 1
{"cmd":"undo"} => ok 7 3 1
{"cmd":"undo"} => ok 8 1 1
{"cmd":"undo"} => ok none

line endings of one kind are found whole, and brought
{"cmd":"open","text":"a\nb","eol":"crlf"} => ok 1 4 2
{"cmd":"find","text":"\n"} => ok
{"cmd":"find","text":"\r\n"} => ok 1 3
{"cmd":"replace","find":"\n","text":""} => ok none
{"cmd":"replace","find":"a","text":"\n"} => ok 2 5 3
{"cmd":"value","at":[0,5]} => ok "\r\n\r\nb"

of any kind in parts
{"cmd":"open","text":"a\r\nb\n"} => ok 1 5 3
{"cmd":"find","text":"\n"} => ok 2 3 4 5
{"cmd":"replace","find":"\n","text":"\r"} => ok 2 5 4
{"cmd":"value","at":[0,5]} => ok "a\r\rb\r"

brackets and a mirror follow a replace
{"cmd":"open","text":"(a)(b)"} => ok 1 6 1
{"cmd":"match","line":1,"col":1} => ok 1 3 1
{"cmd":"mirror"} => ok 1
{"cmd":"replace","find":")(","text":"\n"} => ok 2 5 2
{"cmd":"match","line":1,"col":1} => ok 2 2 1
{"cmd":"send"} => ok 1 1
{"cmd":"deliver","n":1} => ok 2 5 2
{"cmd":"mirrored","n":2} => ok "b)"

search commands with other fields
{"cmd":"open","text":"a"} => ok 1 1 1
{"cmd":"find"} => ! syntax
{"cmd":"find","text":1} => ! syntax
{"cmd":"find","text":"a","at":[0,1]} => ! syntax
{"cmd":"replace","find":"a"} => ! syntax
{"cmd":"replace","text":"a"} => ! syntax
{"cmd":"replace","find":"","text":"b"} => ! syntax
{"cmd":"replace","find":"a","text":null} => ! syntax
{"cmd":"replace","find":"a","text":"b","force":true} => ! syntax
{"cmd":"replace","find":"a","text":""} => ok 2 0 1
{"cmd":"find","text":"a"} => ok
"#;
