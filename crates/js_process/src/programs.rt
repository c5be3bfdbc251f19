//! The programs beside `js_lex` that end by `end_program`: their names, and what each prints where its arguments are not
//! valid.

/// The name of `js_edit`.
pub const EDIT: &str = "js_edit";

/// What `js_edit` prints where its arguments are not valid.
pub const EDIT_USAGE: &str =
    "usage: js_edit module|script|unambiguous START END TEXT COMMAND[*N].. [-- COMMAND[*N]..]";

/// The name of `js_bench`.
pub const BENCH: &str = "js_bench";

/// What `js_bench` prints where its arguments are not valid.
pub const BENCH_USAGE: &str =
    "usage: js_bench module|script|unambiguous tokens|no-tokens|lists N [jsx]";

/// The name of `js_parse_example`.
pub const PARSE_EXAMPLE: &str = "js_parse_example";

/// How `js_parse_example` is called: with no arguments.
pub const PARSE_EXAMPLE_USAGE: &str = "usage: js_parse_example";
