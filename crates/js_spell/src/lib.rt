//! Readers of one spelling each, and the values of integers.
#![tactic(auto)]

mod angle;
mod comment;
mod digits;
mod escape;
mod items;
mod jsx;
mod name;
mod number;
mod numeric;
mod ordinary;
mod parts;
mod punctuator;
mod recovery;
mod regular_expression;
mod sequence;
mod spelt;
mod string;
mod template;
mod unicode_escape;
mod unseparated_number;

pub use angle::read_right_angle;
pub use comment::{BlockEnd, skip_block, skip_line};
pub use escape::read_escape;
pub use jsx::{read_jsx_child, read_jsx_identifier, read_jsx_string};
pub use name::{
    begins_name, read_name, read_private_name, read_unescaped_name, read_unescaped_name_by,
    read_unescaped_private_name,
};
pub use number::{parse_big_int, parse_int};
pub use numeric::read_number;
pub use parts::name_parts;
pub use punctuator::read_punctuator;
pub use recovery::{Recovered, recover};
pub use regular_expression::read_regular_expression;
pub use sequence::advance_if_sequence;
pub use spelt::{Spelt, SpeltValue};
pub use string::{read_string, read_unescaped_string};
pub use template::{read_template_part, read_unescaped_part};
pub use unseparated_number::read_unseparated_number;
