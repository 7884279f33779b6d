mod bracket_replies;
mod draws;
mod flat_document;
mod flat_lines;
mod flat_marks;
mod generated;
mod marked;
mod whole_parse;
