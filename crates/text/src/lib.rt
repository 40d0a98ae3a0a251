// The text of a record: decimal numbers and lines, written and parsed. Document 01, "Files".
//
// One definition of a line, `line_of` of specs/Line, is what is written and what is parsed: specs/LineLaws shows that a written line parses to its record
// and that only a written line parses. No input wraps or stops a parser: what is no such line is refused.
// The floors above call `parse_line`, `line_length` and `write_line_back` for files, `width` and `write_number` for counts,
// `order` and `ordered` to sort; for lines of another form what a line is made of: `read_number`, `read_point`, `point_length`, `number_back`, `point_back`,
// `digits_back`, `write_bytes`; for lines that others wrote `spelled`, a line of any numbers, and `in_limits`.
#![tactic(auto)]

mod bytes;
mod decimal;
mod limits;
mod line;
mod line_order;

pub use bytes::write_bytes;
pub use decimal::{digits_back, number_back, read_number, width, write_number};
pub use limits::in_limits;
pub use line::{
    FEED, Line, TAB, line_length, parse_line, point_back, point_length, read_point, spelled,
    write_line_back,
};
pub use line_order::{order, ordered};
