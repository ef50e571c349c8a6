//! Objects, and what each stands for.

use scrib_core::format::Format;
use scrib_objects::exchange_members::exchange_in_any_order;
use scrib_objects::exchange_object::{ExchangeObject, exchange_object};
use scrib_objects::object_line::{ObjectBody, ObjectLine};
use scrib_objects::object_options::ObjectOptions;
use scrib_objects::object_reader::ObjectReader;
use std::alloc::{AllocError, Global};
use std::test::Fail;

const ALL: ObjectOptions = ObjectOptions {
    tags: true,
    names: true,
};

const NONE: ObjectOptions = ObjectOptions {
    tags: false,
    names: false,
};

// Objects, and what each stands for where tags and names are allowed.
const OBJECTS: [(&str, &str); 28] = [
    ("{\"do\":\"withdraw\",\"module\":\"demo\"}", "withdraw demo"),
    (
        "{\"do\":\"profile\",\"profile\":\"plain\"}",
        "profile plain",
    ),
    (
        "{\"do\":\"open\",\"id\":1,\"protocol\":\"demo.Hello\"}",
        "open 1 demo.Hello",
    ),
    (
        "{\"do\":\"join\",\"id\":\"order-8f3a\",\"role\":\"A\"}",
        "join order-8f3a A",
    ),
    (
        "{\"do\":\"send\",\"id\":1,\"from\":\"A\",\"to\":\"B\",\"message\":\"hello()\"}",
        "send 1 A B hello()",
    ),
    (
        " {\"message\":\"hello()\",\"to\":\"B\",\"from\":\"\\u0041\",\"id\":1,\"do\":\"recv\"} ",
        "recv 1 A B hello()",
    ),
    ("{\"do\":\"turn\",\"id\":1}", "turn 1"),
    ("{\"do\":\"ask\",\"id\":01}", "bad"),
    ("{\"do\":\"ask\",\"id\":1,\"json\":true}", "json ask 1"),
    (
        "{\"do\":\"ask\",\"id\":1,\"json\":false,\"tag\":\"17\"}",
        "@17 ask 1",
    ),
    (
        "{\"do\":\"close\",\"id\":1,\"time\":[{\"do\":0}]}",
        "close 1",
    ),
    (
        "{\"do\":\"put\",\"text\":\"module demo;\\n\"}",
        "put module demo;\n",
    ),
    (
        "{\"do\":\"put\",\"text\":\"\",\"json\":true,\"tag\":\"!\"}",
        "@! json put ",
    ),
    ("", "bad"),
    ("{\"do\":\"ask\",\"id\":1", "bad"),
    ("[\"ask\",1]", "bad"),
    ("{\"id\":1}", "bad"),
    ("{\"do\":1,\"id\":1}", "bad"),
    ("{\"do\":\"json\",\"id\":1}", "bad"),
    ("{\"do\":\"ask\",\"id\":1,\"id\":1}", "bad"),
    (
        "{\"do\":\"ask\",\"id\":1,\"time\":[{\"a\":0,\"a\":0}]}",
        "bad",
    ),
    ("{\"do\":\"ask\",\"id\":\"a b\"}", "bad"),
    ("{\"do\":\"ask\",\"id\":1,\"json\":\"true\"}", "bad"),
    ("{\"do\":\"ask\",\"id\":1,\"tag\":\"a b\"}", "bad"),
    ("{\"do\":\"ask\",\"id\":1,\"tag\":null}", "bad"),
    ("{\"do\":\"withdraw\",\"module\":\"\"}", "bad"),
    ("{\"do\":\"json\",\"id\":1,\"tag\":\"17\"}", "@17 bad"),
    ("{\"tag\":\"17\"}", "@17 bad"),
];

// The same where no tags and names are allowed.
const PLAIN_OBJECTS: [(&str, &str); 3] = [
    ("{\"do\":\"ask\",\"id\":-1e3}", "ask -1e3"),
    ("{\"do\":\"ask\",\"id\":\"1\"}", "bad"),
    ("{\"do\":\"ask\",\"id\":1,\"tag\":0}", "ask 1"),
];

// Objects, and what they stand for where they are exchanges that are spelled as the program prints objects.
const EXCHANGES: [(&str, &str); 7] = [
    (
        "{\"do\":\"send\",\"from\":\"A\",\"id\":1,\"message\":\"hello(Int)\",\"to\":\"B\"}",
        "send 1 A B hello(Int)",
    ),
    (
        "{\"do\":\"recv\",\"from\":\"A\",\"id\":\"order-8\",\"message\":\"hello()\",\"tag\":\"17\",\"to\":\"B\"}",
        "@17 recv order-8 A B hello()",
    ),
    (
        "{\"do\":\"recv\", \"from\":\"A\",\"id\":1,\"message\":\"hello()\",\"to\":\"B\"}",
        "other",
    ),
    (
        "{\"from\":\"A\",\"do\":\"recv\",\"id\":1,\"message\":\"hello()\",\"to\":\"B\"}",
        "other",
    ),
    (
        "{\"do\":\"recv\",\"from\":\"\\u0041\",\"id\":1,\"message\":\"hello()\",\"to\":\"B\"}",
        "other",
    ),
    (
        "{\"do\":\"recv\",\"from\":\"A\",\"id\":01,\"message\":\"hello()\",\"to\":\"B\"}",
        "other",
    ),
    ("{\"do\":\"join\",\"id\":1,\"role\":\"A\"}", "other"),
];

// Objects, and what they stand for where they are exchanges without escapes and other members.
const ANY_EXCHANGES: [(&str, &str); 14] = [
    (
        "{\"do\": \"send\", \"id\": 1, \"from\": \"A\", \"to\": \"B\", \"message\": \"hello(Int)\"}",
        "send 1 A B hello(Int)",
    ),
    (
        "\t{ \"tag\" :\"17\", \"to\":\"B\",\"message\":\"m()\",\"id\":\"order-8\",\"from\":\"A\",\"do\":\"recv\" } ",
        "@17 recv order-8 A B m()",
    ),
    (
        "{\"do\":\"recv\",\"from\":\"A\",\"id\":1,\"message\":\"hello()\",\"to\":\"B\"}",
        "recv 1 A B hello()",
    ),
    (
        "{\"do\":\"recv\",\"from\":\"A\",\"from\":\"A\",\"id\":1,\"message\":\"hello()\",\"to\":\"B\"}",
        "other",
    ),
    (
        "{\"do\":\"recv\",\"from\":\"A\",\"id\":1,\"json\":true,\"message\":\"hello()\",\"to\":\"B\"}",
        "other",
    ),
    (
        "{\"do\":\"recv\",\"from\":\"A\",\"id\":1,\"message\":\"hello()\"}",
        "other",
    ),
    (
        "{\"do\":\"recv\",\"from\":\"A B\",\"id\":1,\"message\":\"hello()\",\"to\":\"B\"}",
        "other",
    ),
    (
        "{\"do\":\"recv\",\"from\":1,\"id\":1,\"message\":\"hello()\",\"to\":\"B\"}",
        "other",
    ),
    (
        "{\"do\":\"recv\",\"from\":\"\\u0041\",\"id\":1,\"message\":\"hello()\",\"to\":\"B\"}",
        "other",
    ),
    (
        "{\"do\":\"recv\",\"from\":\"A\",\"id\":01,\"message\":\"hello()\",\"to\":\"B\"}",
        "other",
    ),
    (
        "{\"do\":\"turn\",\"from\":\"A\",\"id\":1,\"message\":\"hello()\",\"to\":\"B\"}",
        "other",
    ),
    (
        "{\"do\":\"recv\",\"from\":\"A\",\"id\":1,\"message\":\"hello()\",\"to\":\"B\",}",
        "other",
    ),
    (
        "{\"do\":\"recv\",\"from\":\"A\",\"id\":1,\"message\":\"hello()\",\"to\":\"B\"}{}",
        "other",
    ),
    (
        "{\"do\":\"recv\",\"from\":\"A\",\"id\":1,\"message\":\"hello()\",\"to\":\"B\"",
        "other",
    ),
];

// The same where no tags and names are allowed.
const PLAIN_EXCHANGES: [(&str, &str); 2] = [
    (
        "{\"tag\": \"17\", \"do\": \"recv\", \"id\": 1, \"from\": \"A\", \"to\": \"B\", \"message\": \"hello()\"}",
        "recv 1 A B hello()",
    ),
    (
        "{\"do\": \"recv\", \"id\": \"1\", \"from\": \"A\", \"to\": \"B\", \"message\": \"hello()\"}",
        "other",
    ),
];

// The line, behind its tag.
fn printed_exchange(
    alloc: Global,
    object: Option<ExchangeObject<'_>>,
) -> Result<Vec<u8>, AllocError> {
    let mut out = Vec::new(alloc);
    let Some(object) = object else {
        out.extend_from_slice(b"other")?;
        return Ok(out);
    };
    if let Some(tag) = object.tag {
        out.extend_from_slice(b"@")?;
        out.extend_from_slice(tag)?;
        out.extend_from_slice(b" ")?;
    }
    out.extend_from_slice(object.word)?;
    for field in [object.id, object.from, object.to, object.message] {
        out.extend_from_slice(b" ")?;
        out.extend_from_slice(field)?;
    }
    Ok(out)
}

#[test]
fn exchanges_are_read_in_one_pass(rt: HostRuntime) -> Result<(), Fail> {
    for (object, wanted) in EXCHANGES {
        let line = printed_exchange(rt.alloc(), exchange_object(ALL, object.as_bytes()))?;
        assert_eq!(rt; line.as_slice(), wanted.as_bytes(), "{object}");
    }
    Ok(())
}

#[test]
fn exchanges_are_read_in_any_order(rt: HostRuntime) -> Result<(), Fail> {
    let alloc = rt.alloc();
    for (object, wanted) in ANY_EXCHANGES {
        let line = printed_exchange(alloc, exchange_in_any_order(ALL, object.as_bytes()))?;
        assert_eq!(rt; line.as_slice(), wanted.as_bytes(), "{object}");
    }
    for (object, wanted) in PLAIN_EXCHANGES {
        let line = printed_exchange(alloc, exchange_in_any_order(NONE, object.as_bytes()))?;
        assert_eq!(rt; line.as_slice(), wanted.as_bytes(), "{object}");
    }
    Ok(())
}

// The line, behind its tag, and a put with its text.
fn printed(alloc: Global, line: Option<ObjectLine>) -> Result<Vec<u8>, AllocError> {
    let mut out = Vec::new(alloc);
    let Some(ObjectLine { tag, body }) = line else {
        out.extend_from_slice(b"bad")?;
        return Ok(out);
    };
    if let Some(tag) = tag {
        out.extend_from_slice(b"@")?;
        out.extend_from_slice(&tag)?;
        out.extend_from_slice(b" ")?;
    }
    match body {
        ObjectBody::Line(bytes) => out.extend_from_slice(&bytes)?,
        ObjectBody::Put { format, text } => {
            if let Format::Json = format {
                out.extend_from_slice(b"json ")?;
            }
            out.extend_from_slice(b"put ")?;
            out.extend_from_slice(&text)?;
        }
        ObjectBody::Bad => out.extend_from_slice(b"bad")?,
    }
    Ok(out)
}

#[test]
fn objects_stand_for_lines(rt: HostRuntime) -> Result<(), Fail> {
    let alloc = rt.alloc();
    let mut reader = ObjectReader::new(alloc);
    for (object, wanted) in OBJECTS {
        let line = printed(alloc, reader.read(ALL, object.as_bytes())?)?;
        assert_eq!(rt; line.as_slice(), wanted.as_bytes(), "{object}");
    }
    for (object, wanted) in PLAIN_OBJECTS {
        let line = printed(alloc, reader.read(NONE, object.as_bytes())?)?;
        assert_eq!(rt; line.as_slice(), wanted.as_bytes(), "{object}");
    }
    Ok(())
}

#[test]
fn bytes_that_are_no_text_are_bad(rt: HostRuntime) -> Result<(), Fail> {
    let mut reader = ObjectReader::new(rt.alloc());
    let line = reader.read(ALL, b"{\"do\":\"ask\",\"id\":1,\"time\":\"\xff\"}")?;
    assert!(rt; line.is_none());
    Ok(())
}
