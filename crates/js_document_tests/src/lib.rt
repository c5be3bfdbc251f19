//! Tests of js_relex, js_document and js_document_c, by their public calls: what the stored run of `js_document_replay`
//! can't tell. They stand in a crate of their own, since a crate's functions are proved again with its tests.
#![tactic(auto)]

#[cfg(test)]
mod edits;
#[cfg(test)]
mod faults;
#[cfg(test)]
mod held;
#[cfg(test)]
mod held_values;
#[cfg(test)]
mod items;
#[cfg(test)]
mod relexed;
#[cfg(test)]
mod values;
