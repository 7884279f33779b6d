//! The table.

use super::every_command::EVERY_COMMAND;
use super::parts::Part;
use super::serving::{SERVED, Serving};
use super::table::{Case, PLAIN, READ_FAULT, Run, WRITE_FAULT};
use memory_streams::Fault;
use script_runner::Served;

/// The most bytes in a line, excluding its LF.
const MOST_LINE_BYTES: usize = 1 << 24;

const SIZE: &str = "{\"cmd\":\"size\"}\n";

const SIZES: &[Part] = &[Part::Times(SIZE, 3)];

const BROKEN: &[Part] = &[Part::Text("{\"cmd\":\"edit\"")];

const QUESTIONS: &str = r#"{"cmd":"brackets","from":1,"to":1}
{"cmd":"level","line":1,"col":100001}
{"cmd":"level","line":1,"col":300}
{"cmd":"match","line":1,"col":1}
"#;

const SNAPSHOT: &str = "{\"cmd\":\"snapshot\"}\n";

/// Commands on closed, open and new ids.
const OTHER_IDS: &str = r#"{"cmd":"read","id":1,"count":9}
{"cmd":"read","id":2,"count":9}
{"cmd":"close","id":500}
{"cmd":"close","id":500}
{"cmd":"snapshot"}
{"cmd":"read","id":1002,"count":9}
"#;

const ONE_REPLY: &[Part] = &[Part::Text("ok 0 1\n")];

const SYNTAX: &str = "! syntax\n";

const LIMIT: &str = "! limit\n";

pub const CASES: &[Case] = &[
    Case::Run(Run {
        name: "byte by byte",
        script: SIZES,
        most_read: 1,
        most_taken: 1,
        written: &[Part::Times("ok 0 1\n", 3)],
        ..PLAIN
    }),
    Case::Run(Run {
        name: "an emoji byte by byte",
        script: &[Part::Text("{\"cmd\":\"open\",\"text\":\"\u{1F600}\"}\n")],
        most_read: 1,
        most_taken: 1,
        written: &[Part::Text("ok 1 2 1\n")],
        ..PLAIN
    }),
    Case::EachReadFails(EVERY_COMMAND),
    Case::EachWriteFails(EVERY_COMMAND),
    Case::Run(Run {
        name: "a read that fails at once",
        script: SIZES,
        failing_read: Some(1),
        ..READ_FAULT
    }),
    Case::Run(Run {
        name: "a read that fails after a line",
        script: SIZES,
        most_read: 15,
        written: ONE_REPLY,
        ..READ_FAULT
    }),
    // The second line lacks its LF, and the end was not reached.
    Case::Run(Run {
        name: "a read that fails inside a line",
        script: SIZES,
        most_read: 29,
        written: ONE_REPLY,
        ..READ_FAULT
    }),
    Case::Run(Run {
        name: "a read that fails inside the first line",
        script: BROKEN,
        most_read: 29,
        ..READ_FAULT
    }),
    Case::Run(Run {
        name: "a write that fails at once",
        script: SIZES,
        faults: &[Fault::Fails { call: 1 }],
        ..WRITE_FAULT
    }),
    Case::Run(Run {
        name: "a write that fails inside a reply",
        script: SIZES,
        faults: &[Fault::Short { call: 1, most: 3 }, Fault::Fails { call: 2 }],
        written: &[Part::Text("ok ")],
        ..WRITE_FAULT
    }),
    Case::Run(Run {
        name: "a write that takes nothing",
        script: SIZES,
        faults: &[Fault::Short { call: 2, most: 0 }],
        written: ONE_REPLY,
        ..WRITE_FAULT
    }),
    Case::Run(Run {
        name: "the second write fails",
        script: SIZES,
        faults: &[Fault::Fails { call: 2 }],
        written: ONE_REPLY,
        ..WRITE_FAULT
    }),
    Case::Run(Run {
        name: "a script of one line",
        script: &[Part::Text(SIZE)],
        written: ONE_REPLY,
        ..PLAIN
    }),
    Case::Run(Run {
        name: "a last line without its break",
        script: &[Part::Text(SIZE), Part::Text("{\"cmd\":\"size\"}")],
        written: &[Part::Times("ok 0 1\n", 2)],
        ..PLAIN
    }),
    Case::Refused("a broken line at the end", BROKEN, SYNTAX),
    Case::Refused(
        "a byte that UTF-8 has nowhere",
        &[Part::Bytes(b"\xFF\n")],
        SYNTAX,
    ),
    Case::Run(Run {
        name: "such a byte at each place of a line",
        script: &[Part::BrokenAtEachByte("{\"cmd\":\"open\",\"text\":\"e\u{301} \u{1F600}\"}")],
        written: &[Part::Times(SYNTAX, 32)],
        status: 1,
        ..PLAIN
    }),
    Case::Refused(
        "something behind a command",
        &[Part::Text("{\"cmd\":\"size\"} x\n")],
        SYNTAX,
    ),
    Case::Refused(
        "half a pair",
        &[Part::Text("{\"cmd\":\"open\",\"text\":\"\\ud83d\"}\n")],
        SYNTAX,
    ),
    // A line may nest 127 levels deep, including its own braces.
    Case::Run(Run {
        name: "values nested as deep as may be",
        script: &[
            Part::Text("{\"cmd\":"),
            Part::Times("[", 126),
            Part::Times("]", 126),
            Part::Text(",\"cmd\":\"size\"}\n"),
        ],
        written: ONE_REPLY,
        ..PLAIN
    }),
    Case::Refused(
        "values nested deeper",
        &[
            Part::Text("{\"cmd\":"),
            Part::Times("[", 127),
            Part::Times("]", 127),
            Part::Text(",\"cmd\":\"size\"}\n"),
        ],
        SYNTAX,
    ),
    Case::Refused(
        "arrays that are not closed",
        &[Part::Times("[", 128), Part::Text("\n")],
        SYNTAX,
    ),
    // Of a hundred thousand opening brackets in one line 300 are open at its end; the others are text.
    Case::Run(Run {
        name: "brackets that are not closed",
        script: &[
            Part::Text("{\"cmd\":\"open\",\"text\":\""),
            Part::Times("(", 100_000),
            Part::Text("\"}\n"),
            Part::Text(QUESTIONS),
        ],
        written: &[
            Part::Text("ok 1 100000 1\n"),
            Part::Unclosed(300),
            Part::Text("ok 300\nok 299\nok none\n"),
        ],
        ..PLAIN
    }),
    Case::Run(Run {
        name: "as many snapshots as may be",
        script: &[
            Part::Text("{\"cmd\":\"open\",\"text\":\"ab\"}\n"),
            Part::Times(SNAPSHOT, 1001),
            Part::Text("{\"cmd\":\"close\",\"id\":1}\n"),
            Part::Text(SNAPSHOT),
            Part::Text(OTHER_IDS),
        ],
        written: &[
            Part::Text("ok 1 2 1\n"),
            Part::Counted(1000),
            Part::Text("! limit\nok\nok 1001\n"),
            Part::Text("! unknown\nok \"ab\"\nok\n! unknown\nok 1002\nok \"ab\"\n"),
        ],
        status: 1,
        ..PLAIN
    }),
    Case::Run(Run {
        name: "a blank line as long as may be",
        script: &[Part::Blanks(MOST_LINE_BYTES), Part::Text("\n")],
        ..PLAIN
    }),
    Case::Run(Run {
        name: "a longer one, and a command",
        script: &[
            Part::Blanks(MOST_LINE_BYTES + 1),
            Part::Text("\n"),
            Part::Text(SIZE),
        ],
        written: &[Part::Text(LIMIT), Part::Text("ok 0 1\n")],
        status: 1,
        ..PLAIN
    }),
    Case::Refused(
        "a longer one, and the end",
        &[Part::Blanks(MOST_LINE_BYTES + 1)],
        LIMIT,
    ),
    Case::Serving(Serving {
        name: "no byte",
        most: 0,
        ended: Served::TooLong,
        written: b"",
        reads: 0,
        writes: 0,
        ..SERVED
    }),
    Case::Serving(Serving {
        name: "too few bytes",
        most: 10,
        ended: Served::TooLong,
        written: b"",
        reads: 2,
        writes: 0,
        ..SERVED
    }),
    Case::Serving(Serving {
        name: "no byte more than the script has",
        most: 15,
        ended: Served::TooLong,
        reads: 3,
        ..SERVED
    }),
    Case::Serving(Serving {
        name: "one more",
        most: 16,
        ..SERVED
    }),
    Case::Serving(SERVED),
    Case::Serving(Serving {
        name: "a write after a short one",
        faults: &[Fault::Short { call: 1, most: 3 }],
        writes: 2,
        ..SERVED
    }),
];
