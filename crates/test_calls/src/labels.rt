//! Labels that were chosen to collide.

use annotated_asm::assembler::assemble;
use std::alloc::{AllocError, Global};
use std::test::Fail;

// A text with 123,000 labels. Without a key all names that begin with these 24 letters have one hash.
fn labels_of_one_hash(alloc: Global) -> Result<String, AllocError> {
    let mut text = String::new(alloc);
    for number in 10_000_000..10_123_000 {
        writeln!(text, "XhORumEyUXRDkdbRzxW4OGOA{number}:")?;
    }
    text.push_str(".task A create=- targets=-\nA: halt\n")?;
    Ok(text)
}

// The labels are found by a key of the text. If the look-up of each walked through the others, four times
// would take minutes, and a test that takes one fails.
#[test]
fn labels_chosen_to_collide(rt: HostRuntime) -> Result<(), Fail> {
    let text = labels_of_one_hash(rt.alloc())?;
    for _ in 0..4 {
        assert!(rt; assemble(rt.alloc(), text.as_bytes()).is_ok());
    }
    Ok(())
}
