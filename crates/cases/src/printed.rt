// Printed forms: put into buffers, offered to writers, byte by byte, and compared with texts.
use grammar::error::Refusal;
use printing::bytes::byte_at;
use printing::comparison::eq_text;
use printing::printing::{to_string, to_string_no_parens, write_as_string};
use sheet::row::{FieldRow, TypeRow};
use sheet::sheet::Sheet;
use std::test::Fail;
use writers::writer::{BufferWriter, MatchingWriter};

#[test]
fn fills_buffers_with_room(rt: HostRuntime) {
    let mut types = [TypeRow::BLANK; 8];
    let mut fields = [FieldRow::BLANK; 8];
    let mut sheet = Sheet::open(&mut types, &mut fields);
    assert_eq!(rt; sheet.from_bytes(b"(ya{sv})"), Ok(16));
    let mut exact = [b'.'; 8];
    assert_eq!(rt; to_string(&mut sheet, 16, &mut exact), Ok(8));
    assert_eq!(rt; exact, *b"(ya{sv})");
    let mut longer = [b'.'; 10];
    assert_eq!(rt; to_string(&mut sheet, 16, &mut longer), Ok(8));
    assert_eq!(rt; longer, *b"(ya{sv})..");
    let mut exact_bare = [b'.'; 6];
    assert_eq!(rt; to_string_no_parens(&mut sheet, 16, &mut exact_bare), Ok(6));
    assert_eq!(rt; exact_bare, *b"ya{sv}");
    let mut longer_bare = [b'.'; 8];
    assert_eq!(rt;
        to_string_no_parens(&mut sheet, 15, &mut longer_bare),
        Ok(5)
    );
    assert_eq!(rt; longer_bare, *b"a{sv}...");
}

#[test]
fn leaves_short_buffers_unchanged(rt: HostRuntime) {
    let mut types = [TypeRow::BLANK; 8];
    let mut fields = [FieldRow::BLANK; 8];
    let mut sheet = Sheet::open(&mut types, &mut fields);
    assert_eq!(rt; sheet.from_bytes(b"(ya{sv})"), Ok(16));
    let mut short = [b'.'; 7];
    assert_eq!(rt;
        to_string(&mut sheet, 16, &mut short),
        Err(Refusal::ShortBuffer)
    );
    assert_eq!(rt; short, *b".......");
    let mut short_bare = [b'.'; 5];
    assert_eq!(rt;
        to_string_no_parens(&mut sheet, 16, &mut short_bare),
        Err(Refusal::ShortBuffer)
    );
    assert_eq!(rt; short_bare, *b".....");
    assert_eq!(rt;
        to_string(&mut sheet, 17, &mut short),
        Err(Refusal::Unknown(0))
    );
    assert_eq!(rt; to_string(&mut sheet, 0, &mut []), Ok(0));
}

#[test]
fn stops_at_the_first_byte_declined(rt: HostRuntime) -> Result<(), Fail> {
    let mut types = [TypeRow::BLANK; 8];
    let mut fields = [FieldRow::BLANK; 8];
    let mut sheet = Sheet::open(&mut types, &mut fields);
    assert_eq!(rt; sheet.from_bytes(b"(ya{sv})"), Ok(16));
    let mut buffer = [b'.'; 3];
    let mut filling = BufferWriter::new(&mut buffer);
    let filled = write_as_string(&mut sheet, 16, &mut filling)?;
    assert_eq!(rt; (filled.taken, filled.all), (3, false));
    assert_eq!(rt; buffer, *b"(ya");
    let mut unlike = MatchingWriter::new(b"(yasv");
    let matched = write_as_string(&mut sheet, 16, &mut unlike)?;
    assert_eq!(rt; (matched.taken, matched.all), (3, false));
    let mut alike = MatchingWriter::new(b"(ya{sv})y");
    let whole = write_as_string(&mut sheet, 16, &mut alike)?;
    assert_eq!(rt; (whole.taken, whole.all), (8, true));
    Ok(())
}

#[test]
fn tells_bytes_by_place(rt: HostRuntime) {
    let mut types = [TypeRow::BLANK; 8];
    let mut fields = [FieldRow::BLANK; 8];
    let mut sheet = Sheet::open(&mut types, &mut fields);
    assert_eq!(rt; sheet.from_bytes(b"(ya{sv})"), Ok(16));
    assert_eq!(rt; byte_at(&mut sheet, 16, 4), Ok(Some(b's')));
    assert_eq!(rt; byte_at(&mut sheet, 16, 7), Ok(Some(b')')));
    assert_eq!(rt; byte_at(&mut sheet, 16, 8), Ok(None));
    assert_eq!(rt; byte_at(&mut sheet, 0, 0), Ok(None));
    assert_eq!(rt; byte_at(&mut sheet, 17, 0), Err(Refusal::Unknown(0)));
}

#[test]
fn compares_texts_with_forms(rt: HostRuntime) {
    let mut types = [TypeRow::BLANK; 8];
    let mut fields = [FieldRow::BLANK; 8];
    let mut sheet = Sheet::open(&mut types, &mut fields);
    assert_eq!(rt; sheet.from_bytes(b"a(y)"), Ok(16));
    assert_eq!(rt; eq_text(&mut sheet, 16, b"ay"), Ok(false));
    assert_eq!(rt; eq_text(&mut sheet, 15, b"y"), Ok(true));
    assert_eq!(rt; eq_text(&mut sheet, 15, b"(y)"), Ok(true));
    assert_eq!(rt; eq_text(&mut sheet, 15, b"(y)y"), Ok(false));
    assert_eq!(rt; eq_text(&mut sheet, 15, b"yy"), Ok(false));
    assert_eq!(rt; sheet.from_bytes(b"a{ayy}"), Ok(18));
    assert_eq!(rt; eq_text(&mut sheet, 18, b"a{ayy}"), Ok(true));
    assert_eq!(rt;
        eq_text(&mut sheet, 18, &[b'a', b'{', 0xc3, 0xa9]),
        Ok(false)
    );
    assert_eq!(rt; eq_text(&mut sheet, 0, b""), Ok(true));
    assert_eq!(rt; eq_text(&mut sheet, 1, b""), Ok(false));
    assert_eq!(rt; eq_text(&mut sheet, 19, b"y"), Err(Refusal::Unknown(0)));
}
