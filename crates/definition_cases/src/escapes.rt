//! The escapes of the tables, written out by hand.
use case_text::unescaped;
use std::test::Fail;

#[test]
fn escapes_stand_for_their_bytes(rt: HostRuntime) -> Result<(), Fail> {
    let cases: [(&[u8], &[u8]); 9] = [
        (b"a b", b"a b"),
        (b"\\n\\r\\t\\\\", b"\n\r\t\\"),
        (b"a\\x00\\xff\\x7eb", b"a\x00\xff~b"),
        (b"\\(3:ab)c", b"abababc"),
        (b"\\(12:=)\\n", b"============\n"),
        (b"\\(2:\\n)", b"\\n\\n"),
        (b"\\(0:a)\\\"", b"\""),
        (b"\\q\\", b"q"),
        (b"", b""),
    ];
    for (text, expected) in cases {
        assert_eq!(rt; unescaped(rt.alloc(), text)?.as_slice(), expected);
    }
    Ok(())
}
