//! Edits that cannot be made, of documents that choose their goals.

use crate::edits::{Edits, make_edits};
use js_document::{DocumentFault, Edit, EditsFault};
use std::marker::Brand;
use std::sync::ledger::Blank;
use std::test::Fail;

/// Edits of `aé b`, one behind the other; how many are made before the first that is none, and how many bytes the text
/// has then.
static FAULTS: [(&[Edit<'static>], Option<usize>, usize); 5] = [
    (
        &[Edit {
            start: 3,
            end: 1,
            text: "xy",
        }],
        Some(0),
        5,
    ),
    (
        &[Edit {
            start: 2,
            end: 3,
            text: "xy",
        }],
        Some(0),
        5,
    ),
    (
        &[Edit {
            start: 3,
            end: 6,
            text: "xy",
        }],
        Some(0),
        5,
    ),
    (
        &[Edit {
            start: 0,
            end: 1,
            text: "xy",
        }],
        None,
        6,
    ),
    (
        &[
            Edit {
                start: 0,
                end: 1,
                text: "xy",
            },
            Edit {
                start: 7,
                end: 7,
                text: "xy",
            },
        ],
        Some(1),
        6,
    ),
];

#[test]
fn faults_of_edits(rt: HostRuntime) -> Result<(), Fail> {
    for &(edits, made, length) in &FAULTS {
        let edits = Edits {
            text: "aé b",
            edits,
        };
        let (document, found) = make_edits::<Brand>(rt.alloc(), &edits, Blank::new(1)).ok_or(
            "no document",
        )?;
        let fault = DocumentFault::BadEdit;
        let wanted = made.map(|made| EditsFault { made, fault });
        assert_eq!(rt; (found, document.text().len()), (wanted, length));
    }
    Ok(())
}
