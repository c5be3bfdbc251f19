//! Tests of js_lex_tool, and of js_process, js_strip and js_squeeze below it, by public calls. They stand in a crate of
//! their own, since a crate's functions are proved again with its tests.
#![tactic(auto)]

#[cfg(test)]
mod buffers;
#[cfg(test)]
mod devices;
#[cfg(test)]
mod memory;
#[cfg(test)]
mod run;
#[cfg(test)]
mod squeezed;
#[cfg(test)]
mod status;
#[cfg(test)]
mod streams;
#[cfg(test)]
mod stripped;
