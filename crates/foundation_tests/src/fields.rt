// Fields of fixed-column text.
use measures::amounts::Cents;
use text::fields::{read_number, write_dollars, write_number};

#[test]
fn a_field_reads_as_the_number_that_it_prints(rt: HostRuntime) {
    assert_eq!(rt; read_number(b"   12"), Some(12));
    assert_eq!(rt; read_number(b"  -12"), Some(-12));
    assert_eq!(rt; read_number(b"    0"), Some(0));
    assert_eq!(rt;
        read_number(b"-99999999999999999"),
        Some(-99_999_999_999_999_999)
    );
    assert_eq!(rt; read_number(b"012"), None);
    assert_eq!(rt; read_number(b"-0"), None);
    assert_eq!(rt; read_number(b"1 2"), None);
    assert_eq!(rt; read_number(b"12 "), None);
    assert_eq!(rt; read_number(b"- 1"), None);
    assert_eq!(rt; read_number(b"+12"), None);
    assert_eq!(rt; read_number(b"   "), None);
    assert_eq!(rt; read_number(b""), None);
    // more than 18 columns
    assert_eq!(rt; read_number(b"                  1"), None);
}

#[test]
fn a_text_that_does_not_fit_leaves_the_field(rt: HostRuntime) {
    let mut eight = *b"????????";
    assert!(rt; write_dollars(&mut eight, Cents(-84)));
    assert_eq!(rt; eight, *b"   -0.84");
    assert!(rt; write_dollars(&mut eight, Cents(1_234_509)));
    assert_eq!(rt; eight, *b"12345.09");
    assert!(rt; !write_dollars(&mut eight, Cents(-1_234_509)));
    assert_eq!(rt; eight, *b"12345.09");
    let mut three = *b"???";
    assert!(rt; !write_number(&mut three, -100));
    assert_eq!(rt; three, *b"???");
    assert!(rt; write_number(&mut three, -10));
    assert_eq!(rt; three, *b"-10");
}
