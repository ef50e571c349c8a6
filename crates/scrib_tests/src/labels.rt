//! Tags and names: what is taken from lines, what is put back, and the numbers of names.

use scrib_labels::session_line::{push_numbered_line, session_line};
use scrib_labels::session_name::is_session_name;
use scrib_labels::session_names::SessionNames;
use scrib_labels::tag::{TagCut, tag_cut};
use scrib_report::label::Label;
use scrib_report::put_back::push_labelled_line;
use std::alloc::{AllocError, Global};
use std::test::Fail;

// As many bytes as a tag may have.
const LONGEST_TAG: &[u8] = b"0123456789abcdef0123456789abcdef0123456789abcdef0123456789abcdef";

// Lines, and how each is cut: its tag and the rest of the line, apart by `|`.
const CUTS: [(&str, &str); 9] = [
    ("ask 1", "no tag"),
    ("", "no tag"),
    (" @17 ask 1", "no tag"),
    ("@17 ask 1", "17| ask 1"),
    ("@17\task 1", "17|\task 1"),
    ("@@!~", "@!~|"),
    ("@", "bad"),
    ("@ ask 1", "bad"),
    ("@1\u{7f} ask 1", "bad"),
];

// Lines of replies, and the same with the tag `17` and the name `order-8f3a`.
const REPLIES: [(&str, &str); 7] = [
    ("3.14 permitted\n", "@17 order-8f3a.14 permitted\n"),
    ("3 stale\n", "@17 order-8f3a stale\n"),
    ("open 3: demo.Hello\n", "@17 open order-8f3a: demo.Hello\n"),
    ("close 3: complete\n", "@17 close order-8f3a: complete\n"),
    ("refused NoConversation\n", "@17 refused NoConversation\n"),
    ("put demo: +demo.Hello\n", "@17 put demo: +demo.Hello\n"),
    (
        "3.4 offence at 4 by B, allowed: none\n",
        "@17 order-8f3a.4 offence at 4 by B, allowed: none\n",
    ),
];

// Lines with names, and the same with the number 3.
const LINES: [(&str, &str); 8] = [
    ("open order-8f3a demo.Hello", "open 3  demo.Hello"),
    ("send a.b:c A B hello()", "send 3  A B hello()"),
    (" \tjson  ask x ", "json ask 3  "),
    ("close 1", "close 3 "),
    ("turn", "none"),
    ("withdraw demo", "none"),
    ("# send a", "none"),
    ("json json ask a", "none"),
];

const NAMES: [(&str, bool); 8] = [
    ("order-8f3a", true),
    ("01", true),
    ("a_.:-Z", true),
    ("", false),
    ("a b", false),
    ("a/b", false),
    ("refused", false),
    ("open", false),
];

fn push_cut(out: &mut Vec<u8>, line: &str) -> Result<(), AllocError> {
    match tag_cut(line.as_bytes()) {
        TagCut::Untagged => out.extend_from_slice(b"no tag"),
        TagCut::Bad => out.extend_from_slice(b"bad"),
        TagCut::Tagged { tag, rest } => {
            out.extend_from_slice(tag)?;
            out.extend_from_slice(b"|")?;
            out.extend_from_slice(rest)
        }
    }
}

#[test]
fn lines_are_cut_behind_their_tags(rt: HostRuntime) -> Result<(), Fail> {
    for (line, expected) in CUTS {
        let mut cut = Vec::new(rt.alloc());
        push_cut(&mut cut, line)?;
        assert_eq!(rt; cut.as_slice(), expected.as_bytes());
    }
    Ok(())
}

#[test]
fn a_tag_has_at_most_64_bytes(rt: HostRuntime) -> Result<(), Fail> {
    let mut line = Vec::from_slice(rt.alloc(), b"@")?;
    line.extend_from_slice(LONGEST_TAG)?;
    assert!(rt; matches!(tag_cut(line.as_slice()), TagCut::Tagged { .. }));
    line.extend_from_slice(b"0")?;
    assert!(rt; matches!(tag_cut(line.as_slice()), TagCut::Bad));
    Ok(())
}

#[test]
fn tags_and_names_are_put_back(rt: HostRuntime) -> Result<(), Fail> {
    let label = Label {
        tag: Some(b"17"),
        name: Some(b"order-8f3a"),
        line: None,
        conversation: None,
    };
    for (line, expected) in REPLIES {
        let mut labelled = Vec::new(rt.alloc());
        push_labelled_line(&mut labelled, line.as_bytes(), label)?;
        assert_eq!(rt; labelled.as_slice(), expected.as_bytes());
    }
    Ok(())
}

fn push_numbered(out: &mut Vec<u8>, line: &str) -> Result<(), AllocError> {
    match session_line(line.as_bytes()) {
        Some(found) => push_numbered_line(out, found, 3),
        None => out.extend_from_slice(b"none"),
    }
}

#[test]
fn numbers_stand_for_names(rt: HostRuntime) -> Result<(), Fail> {
    for (line, expected) in LINES {
        let mut numbered = Vec::new(rt.alloc());
        push_numbered(&mut numbered, line)?;
        assert_eq!(rt; numbered.as_slice(), expected.as_bytes());
    }
    Ok(())
}

#[test]
fn names_are_words(rt: HostRuntime) -> Result<(), Fail> {
    for (name, expected) in NAMES {
        assert_eq!(rt; is_session_name(name.as_bytes()), expected);
    }
    Ok(())
}

#[test]
fn names_keep_their_numbers_until_removed(rt: HostRuntime) -> Result<(), Fail> {
    let mut names = SessionNames::new(rt.alloc());
    let first = names.add("a")?;
    let second = names.add("b")?;
    assert!(rt; first != second);
    assert_eq!(rt; names.number_of("a"), Some(first));
    names.remove("a");
    assert_eq!(rt; names.number_of("a"), None);
    assert_eq!(rt; names.number_of("b"), Some(second));
    assert_eq!(rt; names.vacant(), Some(first));
    Ok(())
}

#[test]
fn names_are_found_by_their_bytes(rt: HostRuntime) -> Result<(), Fail> {
    let mut names = SessionNames::new(rt.alloc());
    assert_eq!(rt; names.find(b"a"), None);
    let first = names.add("a")?;
    assert_eq!(rt; names.find(b"a"), Some(first));
    assert_eq!(rt; names.find(b"b"), None);
    names.remove("a");
    assert_eq!(rt; names.find(b"a"), None);
    let again = names.add("a")?;
    assert_eq!(rt; names.find(b"a"), Some(again));
    Ok(())
}
