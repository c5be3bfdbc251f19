//! What a program has from its process: its words, its input and outputs, its statuses, and how it ends.
#![tactic(auto)]

mod arguments;
mod calls;
mod exit;
mod memory_in;
mod memory_out;
mod outside;
pub mod programs;
mod read_all;
pub mod status;
mod std_streams;
pub mod system;
mod text_maker;
pub mod write_all;

pub use arguments::{program_words, status_without_words, words_behind_name};
pub use exit::end_program;
pub use memory_in::{MemoryIn, SureIn};
pub use memory_out::{MemoryOut, SureOut};
pub use outside::{ByteIn, ByteOut, Course, FlushAnswer, InAnswer, OutAnswer};
pub use read_all::{MOST_BYTES, ReadFault, read_to_end};
pub use status::{StatusLine, line_for, status_line};
pub use std_streams::{StdIn, StdOut};
pub use text_maker::{TextMaker, text_run};
