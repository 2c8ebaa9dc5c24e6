use std::test::Fail;
use text::Line;

#[test]
fn line_is_answered_as_128_bytes_and_its_length(rt: HostRuntime) -> Result<(), Fail> {
    let mut line = Line::new();
    line.add(b"refused byte ");
    line.number(23);
    line.add(b"\n");
    let told = line.into_bytes();
    assert_eq!(rt; told.len, 16);
    assert!(rt; told.bytes.starts_with(b"refused byte 23\n"));
    assert!(rt; told.bytes[16..].iter().all(|b| *b == 0));
    assert_eq!(rt; told.as_slice().len(), 16);
    Ok(())
}
