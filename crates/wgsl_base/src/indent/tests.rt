//! What is printed, by hand.

use crate::indent::Indent;
use std::alloc::{AllocError, Global};
use std::test::Fail;

/// Whether a text is printed so.
fn prints(alloc: Global, text: &str, wanted: &str) -> Result<bool, AllocError> {
    let printed = format!(in alloc; "{}", Indent(text))?;
    Ok(printed.as_str() == wanted)
}

#[test]
fn each_line_is_indented(rt: HostRuntime) -> Result<(), Fail> {
    let alloc = rt.alloc();
    assert!(rt; prints(alloc, "", "")?);
    assert!(rt; prints(alloc, "a", "    a")?);
    assert!(rt; prints(alloc, "a\nb\n", "    a\n    b\n")?);
    assert!(rt; prints(alloc, "\n\nb", "    \n    \n    b")?);
    assert!(rt; prints(alloc, "{\n    ;\n}\n", "    {\n        ;\n    }\n")?);
    Ok(())
}

#[test]
fn a_text_in_pieces_is_indented_as_a_whole(rt: HostRuntime) -> Result<(), Fail> {
    let alloc = rt.alloc();
    let twice = format!(in alloc; "{}", Indent(Indent("a\nb")))?;
    assert!(rt; twice.as_str() == "        a\n        b");
    let end = "\nb";
    let pieces = format!(in alloc; "{}", Indent(format_args!("a{end}c\n{}", 5)))?;
    assert!(rt; pieces.as_str() == "    a\n    bc\n    5");
    Ok(())
}
