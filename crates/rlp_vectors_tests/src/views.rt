//! Rows of headers and views, and the texts of cut lists.

use crate::carried::HASHES;
use rlp_rows::rows::Line;
use rlp_vectors::note_row;
use std::test::Fail;

/// Rows of headers and views. No call takes memory.
pub(crate) const ROWS: &str = "
    header: The first bytes of strings, at the least and the greatest length of each form.
    00 | 0 + 1 = Some(1)
    7f | 0 + 1 = Some(1)
    80 | 1 + 0 = Some(1)
    81 | 1 + 1 = Some(2)
    b7 | 1 + 55 = Some(56)
    b838 | 2 + 56 = Some(58)
    b8ff | 2 + 255 = Some(257)
    b90100 | 3 + 256 = Some(259)
    b9ffff | 3 + 65535 = Some(65538)
    ba010000 | 4 + 65536 = Some(65540)
    baffffff | 4 + 16777215 = Some(16777219)
    bb01000000 | 5 + 16777216 = Some(16777221)
    bbffffffff | 5 + 4294967295 = Some(4294967300)
    bc0100000000 | 6 + 4294967296 = Some(4294967302)
    bfffffffffffffffff | 9 + 18446744073709551615 = None
    05ff | 0 + 1 = Some(1)
    bffffffffffffffff6 | 9 + 18446744073709551606 = Some(18446744073709551615)
    bffffffffffffffff7 | 9 + 18446744073709551607 = None
    header: The first bytes of lists, at the least and the greatest length of each form.
    c0 | 1 + 0 = Some(1)
    c1 | 1 + 1 = Some(2)
    f7 | 1 + 55 = Some(56)
    f838 | 2 + 56 = Some(58)
    f8ff | 2 + 255 = Some(257)
    f90100 | 3 + 256 = Some(259)
    f9ffff | 3 + 65535 = Some(65538)
    fa010000 | 4 + 65536 = Some(65540)
    faffffff | 4 + 16777215 = Some(16777219)
    fb01000000 | 5 + 16777216 = Some(16777221)
    fbffffffff | 5 + 4294967295 = Some(4294967300)
    fc0100000000 | 6 + 4294967296 = Some(4294967302)
    ffffffffffffffffff | 9 + 18446744073709551615 = None
    c001 | 1 + 0 = Some(1)
    header: Bytes that don't begin with a header.
    none | RlpIsTooShort
    b8 | RlpIsTooShort
    f8 | RlpIsTooShort
    b901 | RlpIsTooShort
    b800 | RlpDataLenWithZeroPrefix
    b900 | RlpDataLenWithZeroPrefix
    f800 | RlpListLenWithZeroPrefix
    f900 | RlpListLenWithZeroPrefix
    f801 | RlpInvalidIndirection
    b837 | RlpInvalidIndirection
    view kinds: A view that is null, empty, a list or a string.
    none | true false false false
    80 | false true false true
    c0 | false true true false
    05 | false false false true
    c105 | false false true false
    c88363617483646f67 | false false true false
    view int: Numbers at the front, and others.
    none | false
    81 | false
    8100 | false
    8105 | true
    00 | true
    b838 | false
    b83805 | true
    c0 | false
    view nested: Lists, and the limit within which they nest.
    80 0 | true
    c0 0 | false
    c0 1 | true
    c2c105 1 | false
    c2c105 2 | true
    c5 0 | true
    view sizes: Prototypes and sizes.
    none | Ok(Null) 0
    84636174 | Ok(Data(0)) 0
    8363617400 | Ok(Data(3)) 3
    05 | Ok(Data(1)) 1
    c5 | Ok(List(0)) 0
    c88363617483646f67 | Ok(List(2)) 0
    strict view sizes: The prototype of a strict view counts the items as that of a lenient view
    does.
    c10102 | Ok(List(1)) 0
    view canonical, strict view canonical: Encodings and other bytes, and a depth, for views
    of both kinds. The last two are a list of 56 numbers 1, whose header has two bytes.
    none 5 | false
    8105 5 | false
    c28105 5 | false
    c10102 5 | false
    c3058200 5 | false
    80 0 | true
    c0 0 | false
    c0 1 | true
    c1c0 1 | false
    c1c0 2 | true
    f8380101010101010101010101010101010101010101010101010101010101010101010101010101010101010101010\
     101010101010101010101 1 | true
    f8380101010101010101010101010101010101010101010101010101010101010101010101010101010101010101010\
     101010101010101010101 0 | false
";

// The first bytes of the list of hashes print as `null` if there are none, and else as `RlpIsTooShort`.
// The text of the whole list stands in `test_rlp_display`.
#[test]
fn texts_of_cut_lists(rt: HostRuntime) -> Result<(), Fail> {
    let mut wrong = Line::new();
    for len in 0..79usize {
        let want = if len == 0 { "null" } else { "RlpIsTooShort" };
        let digits = HASHES.get(..2 * len).unwrap_or("");
        note_row(rt.alloc(), "view text", digits, want, &mut wrong);
    }
    wrong.none_noted()
}
