//! Generated scripts, which a flat document must answer as the program does.

use super::draws::Draws;
use super::flat_document::OneList;
use script_checks::{plain_difference, push_times};
use std::alloc::{AllocError, Global};
use std::process::Abort;
use std::test::Fail;

/// A kind of script. Its texts are written as in a script.
struct Kind {
    name: &'static str,
    /// The initial text of the document: each of these, repeated this many times.
    parts: &'static [(&'static str, u64)],
    /// The members of `open` for the pairs, unless they are the standard ones, for the marks of comments and strings,
    /// if any, and for the kind of line ending, if one is fixed.
    members: &'static str,
    /// The number of places, from the start of the text on, at which edits begin.
    places: u64,
    /// The texts that edits insert. One of them, or two concatenated, are searched for.
    texts: [&'static str; 8],
    /// The number of scripts, and the number of rounds of each.
    scripts: u64,
    rounds: u64,
}

const ALL: u64 = u64::MAX;

/// Two units, and one character.
const EMOJI: &str = "\u{1F600}";

const TEXTS: &[Kind] = &[
    Kind {
        name: "breaks",
        parts: &[("a\\r\\nb", 1)],
        members: "",
        places: ALL,
        texts: ["a", "\\n", "\\r", "\\r\\n", "", EMOJI, "b\\nc", "\\n\\r"],
        scripts: 4,
        rounds: 60,
    },
    Kind {
        name: "line endings of one kind",
        parts: &[("a\\r\\nb\\r", 3)],
        members: ",\"eol\":\"crlf\"",
        places: ALL,
        texts: ["a", "\\n", "\\r", "\\r\\n", "", EMOJI, "(\\nc", "\\n\\r)"],
        scripts: 2,
        rounds: 60,
    },
    // Few letters, so that matches often overlap each other and edits.
    Kind {
        name: "few letters",
        parts: &[("aba", 40)],
        members: "",
        places: ALL,
        texts: ["a", "b", "ab", "ba", "aa", EMOJI, "", ""],
        scripts: 4,
        rounds: 60,
    },
];

const BRACKETS: &[Kind] = &[
    Kind {
        name: "standard brackets",
        parts: &[("f(x) { a[0] }\\n", 12)],
        members: "",
        places: ALL,
        texts: ["(", ")", "[", "}", "", "{\\n", "()", "]\\r\\n("],
        scripts: 3,
        rounds: 40,
    },
    // Some bracket texts are prefixes of others, so that an edit of one unit splits or joins them.
    Kind {
        name: "brackets of several units",
        parts: &[("begin ((a)) do\\r\\nod end\\n", 8)],
        members: ",\"brackets\":[[\"begin\",\"end\"],[\"do\",\"od\"],[\"(\",\")\"],[\"((\",\"))\"]]",
        places: ALL,
        texts: ["begin", "end", "do", "o", "(", "))", "", "d\\n"],
        scripts: 3,
        rounds: 40,
    },
];

const DEEP_BRACKETS: &[Kind] = &[
    // At the end more brackets are open than a parse keeps open, so that edits turn the last ones into text and back
    // into brackets.
    Kind {
        name: "more brackets than are kept open",
        parts: &[("([{([{([{\\n", 32), ("[({[({[({[({[()]})]})]})]})]\\n", 6)],
        members: "",
        places: ALL,
        texts: ["([", "[{(", "{(", "(", "(\\n", "{\\r\\n[", "", "}"],
        scripts: 2,
        rounds: 30,
    },
];

const COMMENTS: &[Kind] = &[Kind {
    name: "comments and strings",
    parts: &[
        ("f(x) { // ]\\n", 4),
        ("/* ( */ g[\\\"(\\\"]\\n", 3),
        ("h('\\\\'') }\\n", 2),
    ],
    members: r#","marks":{"line":"//","block":["/*","*/"],"quotes":["\"","'"]}"#,
    places: ALL,
    texts: ["/*", "*/(", "//", "\\\"", "'", "\\\\", "\\n", ""],
    scripts: 8,
    rounds: 60,
}];

const LONG_COMMENTS: &[Kind] = &[
    // Edits at the top begin and end a comment that extends to a line in the middle, or to the end.
    Kind {
        name: "long comments",
        parts: &[
            ("f(x) { a[0] }\\n", 20),
            ("( */ )\\n", 1),
            ("f(x) { a[0] }\\n", 20),
        ],
        members: r#","marks":{"block":["/*","*/"]}"#,
        places: 6,
        texts: ["/*", "*/", "/*", "*/", "", "/", "*", "(\\n"],
        scripts: 4,
        rounds: 60,
    },
];

const MARKS_BESIDE_BRACKETS: &[Kind] = &[
    // Some brackets begin like a mark, and some contain a mark.
    Kind {
        name: "marks beside brackets",
        parts: &[("begin (- (x) -) end\\n", 4), ("(* ( *) e*) -- end\\n", 4)],
        members: concat!(
            r#","brackets":[["begin","end"],["(",")"],["(-","-)"],["e*)","(*e"]]"#,
            r#","marks":{"line":"--","block":["(*","*)"],"quotes":["g"]}"#,
        ),
        places: ALL,
        texts: ["(*", "*)", "--", "(-", "e", "begin", "", "d\\n"],
        scripts: 4,
        rounds: 40,
    },
];

/// A growing script, with the flat document's replies to it.
#[derive(Drop)]
struct Growing {
    alloc: Global,
    draws: Draws,
    document: OneList,
    script: String,
    replies: Vec<u8>,
}

impl Growing {
    fn new(alloc: Global, seed: u64) -> Growing {
        Growing {
            alloc,
            draws: Draws::new(seed),
            document: OneList::new(alloc),
            script: String::new(alloc),
            replies: Vec::new(alloc),
        }
    }

    /// Appends the lines to the script.
    fn put(&mut self, lines: &str) -> Result<(), AllocError> {
        for line in lines.lines() {
            self.document.answer(line.as_bytes(), &mut self.replies)?;
        }
        self.script.push_str(lines)
    }

    fn open(&mut self, kind: &Kind) -> Result<(), AllocError> {
        let mut line = String::from_str(self.alloc, "{\"cmd\":\"open\",\"text\":\"")?;
        for (part, times) in kind.parts {
            push_times(part, *times, &mut line)?;
        }
        line.push('"')?;
        line.push_str(kind.members)?;
        line.push_str("}\n")?;
        self.put(line.as_str())
    }

    /// Appends an edit, or now and then a replacement of all matches or another kind of line ending, then questions,
    /// and now and then an undo and a redo of the step.
    fn go_on(&mut self, kind: &Kind, round: u64) -> Result<(), AllocError> {
        match round % 15 {
            2 | 12 | 14 => self.replace(kind)?,
            4 | 7 => self.put("{\"cmd\":\"eol\",\"kind\":\"crlf\"}\n")?,
            9 => self.put("{\"cmd\":\"eol\",\"kind\":\"lf\"}\n")?,
            _ => self.edit(kind)?,
        }
        self.ask(kind)?;
        if round % 5 == 4 {
            self.put("{\"cmd\":\"undo\"}\n")?;
            self.ask(kind)?;
            self.put("{\"cmd\":\"redo\"}\n")?;
            self.ask(kind)?;
        }
        Ok(())
    }

    /// Appends an edit, with a `z` at the end in the same batch. Its span is now and then beyond the text or reversed.
    fn edit(&mut self, kind: &Kind) -> Result<(), AllocError> {
        let len = self.document.len();
        let start = self.draws.below(len.saturating_add(2).min(kind.places));
        let end = start.saturating_add(self.draws.below(5)).saturating_sub(1);
        let text = self.drawn_text(kind);
        let edit = format!(in self.alloc;
            "{{\"cmd\":\"edit\",\"ops\":[{{\"at\":[{start},{end}],\"text\":\"{text}\"}},\
            {{\"at\":[{len},{len}],\"text\":\"z\"}}]}}\n"
        )?;
        self.put(edit.as_str())
    }

    fn replace(&mut self, kind: &Kind) -> Result<(), AllocError> {
        let (first, second, text) = (
            self.drawn_text(kind),
            self.drawn_text(kind),
            self.drawn_text(kind),
        );
        let replace = format!(in self.alloc;
            "{{\"cmd\":\"replace\",\"find\":\"{first}{second}\",\"text\":\"{text}\"}}\n"
        )?;
        self.put(replace.as_str())
    }

    fn drawn_text(&mut self, kind: &Kind) -> &'static str {
        kind.texts[self.draws.below(8) as usize % 8]
    }

    fn ask(&mut self, kind: &Kind) -> Result<(), AllocError> {
        self.ask_for_text()?;
        self.ask_for_spans(kind)?;
        self.ask_for_brackets()
    }

    fn ask_for_text(&mut self) -> Result<(), AllocError> {
        let (len, lines) = (self.document.len(), self.document.line_count());
        let line = self.draws.below(lines.saturating_add(3));
        let column = self.draws.below(4);
        let from = self.draws.below(len.saturating_add(2));
        let to = self.draws.below(len.saturating_add(3));
        let questions = format!(in self.alloc;
            "{{\"cmd\":\"line\",\"n\":{line}}}\n{{\"cmd\":\"size\"}}\n\
            {{\"cmd\":\"value\",\"at\":[{from},{to}]}}\n{{\"cmd\":\"position\",\"offset\":{from}}}\n\
            {{\"cmd\":\"offset\",\"line\":{line},\"col\":{column}}}\n"
        )?;
        self.put(questions.as_str())
    }

    fn ask_for_spans(&mut self, kind: &Kind) -> Result<(), AllocError> {
        let (first, second) = (self.drawn_text(kind), self.drawn_text(kind));
        let question = format!(in self.alloc;
            "{{\"cmd\":\"find\",\"text\":\"{first}{second}\"}}\n"
        )?;
        self.put(question.as_str())
    }

    fn ask_for_brackets(&mut self) -> Result<(), AllocError> {
        let lines = self.document.line_count();
        let from = self.draws.below(lines.saturating_add(1));
        let more = self
            .draws
            .below(lines.saturating_sub(from).saturating_add(2));
        let to = from.saturating_add(more);
        let line = self.draws.below(lines).saturating_add(1);
        let column = self.draws.below(14);
        let questions = format!(in self.alloc;
            "{{\"cmd\":\"level\",\"line\":{line},\"col\":{column}}}\n\
            {{\"cmd\":\"match\",\"line\":{line},\"col\":{column}}}\n\
            {{\"cmd\":\"brackets\",\"from\":{from},\"to\":{to}}}\n"
        )?;
        self.put(questions.as_str())
    }
}

#[test]
fn edits_of_texts(rt: HostRuntime) -> Result<(), Fail> {
    expect_all_same(&rt, TEXTS)?;
    Ok(())
}

#[test]
fn edits_among_brackets(rt: HostRuntime) -> Result<(), Fail> {
    expect_all_same(&rt, BRACKETS)?;
    Ok(())
}

#[test]
fn edits_among_deep_brackets(rt: HostRuntime) -> Result<(), Fail> {
    expect_all_same(&rt, DEEP_BRACKETS)?;
    Ok(())
}

#[test]
fn edits_among_comments(rt: HostRuntime) -> Result<(), Fail> {
    expect_all_same(&rt, COMMENTS)?;
    Ok(())
}

#[test]
fn edits_among_long_comments(rt: HostRuntime) -> Result<(), Fail> {
    expect_all_same(&rt, LONG_COMMENTS)?;
    Ok(())
}

#[test]
fn edits_among_marks_beside_brackets(rt: HostRuntime) -> Result<(), Fail> {
    expect_all_same(&rt, MARKS_BESIDE_BRACKETS)?;
    Ok(())
}

fn expect_all_same<R: AllocGlobal + Abort>(rt: &R, kinds: &[Kind]) -> Result<(), AllocError> {
    for kind in kinds {
        for seed in 0..kind.scripts {
            expect_same(rt, kind, seed)?;
        }
    }
    Ok(())
}

fn expect_same<R: AllocGlobal + Abort>(rt: &R, kind: &Kind, seed: u64) -> Result<(), AllocError> {
    let mut growing = Growing::new(rt.alloc(), seed);
    growing.open(kind)?;
    for round in 0..kind.rounds {
        growing.go_on(kind, round)?;
    }
    let status = if growing.document.was_refused() { 1 } else { 0 };
    let (script, replies) = (growing.script.as_bytes(), growing.replies.as_slice());
    let found = plain_difference(rt.alloc(), kind.name, script, replies, status)?;
    assert!(rt; found.is_none(), "{found:?}");
    Ok(())
}
