// Numbers on a sheet.
use grammar::error::Refusal;
use sheet::row::{FieldRow, TypeRow};
use sheet::serialized::Format;
use sheet::sheet::Sheet;

#[test]
fn files_equal_shapes_under_one_number(rt: HostRuntime) {
    let mut types = [TypeRow::BLANK; 8];
    let mut fields = [FieldRow::BLANK; 8];
    let mut sheet = Sheet::open(&mut types, &mut fields);
    assert_eq!(rt; sheet.from_bytes(b""), Ok(0));
    assert_eq!(rt; sheet.from_bytes(b"y"), Ok(1));
    assert_eq!(rt; sheet.counts(), (0, 0));
    assert_eq!(rt; sheet.from_bytes(b"(yy)"), Ok(15));
    assert_eq!(rt; sheet.from_bytes(b"yy"), Ok(15));
    assert_eq!(rt; sheet.counts(), (1, 2));
    assert_eq!(rt; sheet.from_bytes(b"(y)"), Ok(16));
    assert_eq!(rt; sheet.counts(), (2, 2));
    assert_eq!(rt; sheet.structure(&[1, 1]), Ok(15));
}

#[test]
fn refuses_in_order(rt: HostRuntime) {
    let mut types = [TypeRow::BLANK; 1];
    let mut fields = [FieldRow::BLANK; 1];
    let mut sheet = Sheet::open(&mut types, &mut fields);
    assert_eq!(rt; sheet.structure(&[0, 99]), Err(Refusal::Unknown(1)));
    assert_eq!(rt; sheet.dict(0, 0), Err(Refusal::UnitPart(0)));
    assert_eq!(rt; sheet.dict(1, 0), Err(Refusal::UnitPart(1)));
    assert_eq!(rt; sheet.structure(&[]), Err(Refusal::NoFields));
    assert_eq!(rt; sheet.from_bytes(b"(yb)"), Err(Refusal::NoRows));
    assert_eq!(rt; sheet.counts(), (0, 0));
    assert_eq!(rt; sheet.array(1), Ok(15));
    assert_eq!(rt; sheet.array(15), Err(Refusal::NoRows));
    assert_eq!(rt; sheet.structure(&[1]), Err(Refusal::NoRows));
    assert_eq!(rt; sheet.counts(), (1, 0));
}

#[test]
fn answers_by_kind(rt: HostRuntime) {
    let mut types = [TypeRow::BLANK; 8];
    let mut fields = [FieldRow::BLANK; 8];
    let mut sheet = Sheet::open(&mut types, &mut fields);
    assert_eq!(rt; sheet.from_bytes(b"may"), Ok(16));
    assert_eq!(rt; sheet.child(16), Ok(15));
    assert_eq!(rt; sheet.alignment(16, Format::DBus), Err(Refusal::WrongKind));
    assert_eq!(rt; sheet.alignment(16, Format::GVariant), Ok(1));
    assert_eq!(rt; sheet.key(16), Err(Refusal::WrongKind));
    assert_eq!(rt; sheet.get(16, 0), Err(Refusal::WrongKind));
    assert_eq!(rt; sheet.len(1), Err(Refusal::WrongKind));
    assert_eq!(rt; sheet.child(17), Err(Refusal::Unknown(0)));
    assert_eq!(rt; sheet.eq(16, 17), Err(Refusal::Unknown(1)));
    assert_eq!(rt; sheet.alignment(0, Format::GVariant), Ok(8));
}

#[test]
fn works_out_figures(rt: HostRuntime) {
    let mut types = [TypeRow::BLANK; 8];
    let mut fields = [FieldRow::BLANK; 8];
    let mut sheet = Sheet::open(&mut types, &mut fields);
    assert_eq!(rt; sheet.from_bytes(b"(bn)"), Ok(15));
    assert_eq!(rt; sheet.alignment(15, Format::GVariant), Ok(2));
    assert_eq!(rt; sheet.is_fixed_sized(15), Ok(true));
    assert_eq!(rt; sheet.from_bytes(b"(ys)"), Ok(16));
    assert_eq!(rt; sheet.alignment(16, Format::GVariant), Ok(1));
    assert_eq!(rt; sheet.is_fixed_sized(16), Ok(false));
    assert_eq!(rt; sheet.from_bytes(b"a{s(ma(x))}"), Ok(21));
    assert_eq!(rt; sheet.depths(21), Ok((2, 2)));
    assert_eq!(rt; sheet.string_len(21), Ok(11));
    assert_eq!(rt; sheet.contains_maybe(21), Ok(true));
}
