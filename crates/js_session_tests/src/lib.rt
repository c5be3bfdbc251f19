//! Tests of js_session, js_auto, js_jsx and js_lists, by their public calls: what the runs of `js_lex_runs` can't tell.
//! They stand in a crate of their own, since a crate's functions are proved again with its tests.
#![tactic(auto)]

#[cfg(test)]
mod by_hand;
#[cfg(test)]
mod chosen;
#[cfg(test)]
mod driven;
#[cfg(test)]
mod jsx_chosen;
#[cfg(test)]
mod jsx_rows;
#[cfg(test)]
mod listed;
#[cfg(test)]
mod marks;
#[cfg(test)]
mod shifted;
#[cfg(test)]
mod taken;
