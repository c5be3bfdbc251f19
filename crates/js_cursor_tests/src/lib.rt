//! Tests of js_cursor, and of js_parse_tool above it, by their public calls. They stand in a crate of their own, since a
//! crate's functions are proved again with its tests.
#![tactic(auto)]

#[cfg(test)]
mod asked;
#[cfg(test)]
mod faults;
#[cfg(test)]
mod first;
#[cfg(test)]
mod lists;
#[cfg(test)]
mod loops;
#[cfg(test)]
mod printed;
#[cfg(test)]
mod script;
#[cfg(test)]
mod scripts;
