// Texts that are valid, and the faults of others.
use grammar::error::{Cause, Fault, Refusal};
use reader::validate;
use std::process::Abort;

fn valid(rt: &impl Abort, text: &[u8]) {
    assert_eq!(rt; validate(text), Ok(()));
}

fn faulty(rt: &impl Abort, text: &[u8], cause: Cause, place: usize) {
    assert_eq!(rt;
        validate(text),
        Err(Refusal::Invalid(Fault { cause, place }))
    );
}

#[test]
fn accepts_types_in_a_row(rt: HostRuntime) {
    valid(&rt, b"");
    valid(&rt, b"ybnqiuxtdsgovh");
    valid(&rt, b"a{sv}(ii)mmay");
    valid(&rt, b"a{(yy)aay}");
    valid(&rt, b"m(m(my))");
}

#[test]
fn ends_early(rt: HostRuntime) {
    faulty(&rt, b"a", Cause::Ended, 1);
    faulty(&rt, b"m", Cause::Ended, 1);
    faulty(&rt, b"(", Cause::Ended, 1);
    faulty(&rt, b"(y", Cause::Ended, 2);
    faulty(&rt, b"a{", Cause::Ended, 2);
    faulty(&rt, b"a{sv", Cause::Ended, 4);
}

#[test]
fn meets_an_unexpected_byte(rt: HostRuntime) {
    faulty(&rt, b"()", Cause::Unexpected, 1);
    faulty(&rt, b"a{s}", Cause::Unexpected, 3);
    faulty(&rt, b"a{svs}", Cause::Unexpected, 4);
    faulty(&rt, b"{sv}", Cause::Unexpected, 0);
    faulty(&rt, b"y)", Cause::Unexpected, 1);
    faulty(&rt, b"a{}", Cause::Unexpected, 2);
    faulty(&rt, b"sz", Cause::Unexpected, 1);
}

#[test]
fn takes_no_byte_past_ascii(rt: HostRuntime) {
    faulty(&rt, &[b's', 0xc3, 0xa9], Cause::Unexpected, 1);
    faulty(&rt, &[0xf9], Cause::Unexpected, 0);
    faulty(&rt, &[b'a', 0xff], Cause::Unexpected, 1);
    faulty(&rt, &[b'(', b'y', 0xa9], Cause::Unexpected, 2);
}

#[test]
fn counts_arrays(rt: HostRuntime) {
    valid(&rt, b"aaaaaaaaaaaaaaaaaaaaaaaaaaaaaaaay");
    faulty(
        &rt,
        b"aaaaaaaaaaaaaaaaaaaaaaaaaaaaaaaaay",
        Cause::TooDeep,
        32,
    );
    faulty(
        &rt,
        b"yaaaaaaaaaaaaaaaaaaaaaaaaaaaaaaaaa",
        Cause::TooDeep,
        33,
    );
    faulty(&rt, b"aaaaaaaaaaaaaaaaaaaaaaaaaaaaaaaa", Cause::Ended, 32);
}

#[test]
fn counts_structures(rt: HostRuntime) {
    valid(
        &rt,
        b"((((((((((((((((((((((((((((((((y))))))))))))))))))))))))))))))))",
    );
    faulty(
        &rt,
        b"(((((((((((((((((((((((((((((((((y)))))))))))))))))))))))))))))))))",
        Cause::TooDeep,
        32,
    );
    faulty(
        &rt,
        b"((((((((((((((((((((((((((((((((a(y",
        Cause::TooDeep,
        33,
    );
}

#[test]
fn counts_a_dictionary_as_an_array(rt: HostRuntime) {
    valid(&rt, b"aaaaaaaaaaaaaaaaaaaaaaaaaaaaaaaa{sy}");
    faulty(
        &rt,
        b"aaaaaaaaaaaaaaaaaaaaaaaaaaaaaaaaa{sy}",
        Cause::TooDeep,
        32,
    );
    faulty(
        &rt,
        b"aaaaaaaaaaaaaaaaaaaaaaaaaaaaaaaa{say}",
        Cause::TooDeep,
        34,
    );
}

#[test]
fn counts_each_kind_by_itself(rt: HostRuntime) {
    valid(
        &rt,
        b"a(a(a(a(a(a(a(a(a(a(a(a(a(a(a(a(a(a(a(a(a(a(a(a(a(a(a(a(a(a(a(a(y))))))))))))))))))))))))))))))))",
    );
    faulty(
        &rt,
        b"a(a(a(a(a(a(a(a(a(a(a(a(a(a(a(a(a(a(a(a(a(a(a(a(a(a(a(a(a(a(a(a(a",
        Cause::TooDeep,
        64,
    );
    faulty(
        &rt,
        b"a(a(a(a(a(a(a(a(a(a(a(a(a(a(a(a(a(a(a(a(a(a(a(a(a(a(a(a(a(a(a(a((",
        Cause::TooDeep,
        64,
    );
}

#[test]
fn counts_no_maybe(rt: HostRuntime) {
    valid(&rt, b"mmmmmmmmmmmmmmmmmmmmmmmmmmmmmmmmmmmmmmmmy");
    faulty(
        &rt,
        b"mamamamamamamamamamamamamamamamamamamamamamamamamamamamamamamamamay",
        Cause::TooDeep,
        65,
    );
}

#[test]
fn reads_long_texts(rt: HostRuntime) {
    valid(&rt, &[b'y'; 65_535]);
    assert_eq!(rt; validate(&[b'y'; 65_536]), Err(Refusal::TextTooLong));
    assert_eq!(rt; validate(&[0xff; 65_536]), Err(Refusal::TextTooLong));
}

#[test]
fn reads_long_runs_of_maybe(rt: HostRuntime) {
    let mut text = [b'm'; 65_535];
    faulty(&rt, &text, Cause::Ended, 65_535);
    text[65_534] = b'y';
    valid(&rt, &text);
    text[0] = b'(';
    faulty(&rt, &text, Cause::Ended, 65_535);
}
