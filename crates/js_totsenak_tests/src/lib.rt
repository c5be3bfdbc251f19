//! Tests of js_totsenak, js_imports, js_imports_text, js_licences, js_page and js_html, by their public calls. They stand
//! in a crate of their own, since a crate's functions are proved again with its tests.
#![tactic(auto)]

#[cfg(test)]
mod imports;
#[cfg(test)]
mod licences;
#[cfg(test)]
mod names;
#[cfg(test)]
mod pages;
#[cfg(test)]
mod run;
#[cfg(test)]
mod told;
