//! All inputs of two bytes, by each call of a view and each type that is read from a string. The
//! expected numbers were counted by the tables of the format, not by these calls.

use bytes::{Bytes, BytesMut};
use rlp::{BasicDecoder, Decodable, DecoderError, PayloadInfo, Prototype, Rlp, Uint};
use rlp_rows::codec::{FAULTS, view_of};
use rlp_rows::rows::{Line, cut, number};
use rlp_rows::tables::{Calls, check_rows};
use std::alloc::Global;
use std::fmt;
use std::fmt::Write;
use std::test::Fail;

/// What a call gives for an input: what its result measures, such as a length, or 1 if it is `true`;
/// or a fault.
type Answer = Result<usize, DecoderError>;

/// The calls of rows: `tally` and `sum`.
#[derive(Clone, Copy)]
struct Tallies;

impl Calls for Tallies {
    fn note(&self, alloc: Global, calls: &str, given: &str, want: &str, wrong: &mut Line) {
        let mut said = Line::new();
        let _ = tell_tally(alloc, calls, given, &mut said);
        wrong.note(calls, given, said.as_str(), want);
    }
}

/// Tells how all inputs are answered: the number of `Ok` results, the numbers of each fault, in the
/// order in which the faults are declared, and then the sum of what the results measure. Or the sum
/// alone.
fn tell_tally(alloc: Global, call: &str, given: &str, out: &mut Line) -> fmt::Result {
    let mut counts = [0usize; 13];
    let mut sum = 0usize;
    for word in 0..=u16::MAX {
        let answer = answered(alloc, &word.to_be_bytes(), given);
        if let Some(count) = counts.get_mut(place_of(&answer)) {
            *count = count.saturating_add(1);
        }
        sum = sum.saturating_add(answer.unwrap_or(0));
    }
    if call == "sum" {
        return out.debug(sum);
    }
    for count in counts {
        write!(out, "{count} ")?;
    }
    out.debug(sum)
}

/// Returns the place of an answer in a tally.
fn place_of(answer: &Answer) -> usize {
    let Err(fault) = answer else {
        return 0;
    };
    let custom = 11;
    match FAULTS.iter().position(|other| other == fault) {
        Some(place) => place.saturating_add(1),
        None => custom,
    }
}

/// Returns what a call gives for an input: a call of a lenient or a strict view, or a way to read it.
fn answered(alloc: Global, bytes: &[u8], call: &str) -> Answer {
    let (kind, call) = cut(call);
    match kind {
        "header" => Ok(PayloadInfo::from(bytes)?.checked_total().unwrap_or(0)),
        "lenient" => of_view(&Rlp::new(bytes), call),
        "strict" => of_view(&Rlp::new_strict(bytes), call),
        "decoded" => decoded(alloc, bytes, call),
        "as_list" => Rlp::new(bytes).as_list::<u8>(alloc).and(Ok(0)),
        "val_at" => Rlp::new(bytes).val_at::<u8>(alloc, 0).and(Ok(0)),
        "list_at" => Rlp::new(bytes).list_at::<u8>(alloc, 0).and(Ok(0)),
        "decoder" => BasicDecoder::new(bytes).decode_value(length),
        "view's" => Rlp::new(bytes).decoder().decode_value(length),
        "begun" => Ok(usize::from(is_begun(alloc, bytes))),
        _ => Ok(usize::from(is_sound(bytes, false) && is_sound(bytes, true))),
    }
}

/// Returns the length of a string.
fn length(string: &[u8]) -> Answer {
    Ok(string.len())
}

/// Returns what a call of a view gives. A header measures the lengths of header and value together,
/// and an item its place.
fn of_view(view: &Rlp<'_>, call: &str) -> Answer {
    let (name, index) = (cut(call).0, number(cut(call).1));
    let measure = match name {
        "payload_info" => view.payload_info()?.checked_total().unwrap_or(0),
        "data" => view.data()?.len(),
        "item_count" => return view.item_count().and(Ok(0)),
        "at" => return view.at(index).and(Ok(0)),
        "item" => view.at_with_offset(index)?.1,
        "last" => view.at_with_offset(usize::MAX)?.1,
        "is_list" => usize::from(view.is_list()),
        "is_data" => usize::from(view.is_data()),
        "is_empty" => usize::from(view.is_empty()),
        "is_int" => usize::from(view.is_int()),
        "within" => usize::from(view.is_nested_within(index)),
        "canonical" => usize::from(view.is_canonical(index)),
        "size" => view.size(),
        "string" => lengths_of(view).0,
        "items" => lengths_of(view).1,
        "numbered" => usize::from(is_numbered(view)),
        "letters" => text_of(view).as_str().len(),
        _ => usize::from(text_of(view).as_str() == "[]"),
    };
    Ok(measure)
}

/// Returns the lengths in a view's prototype: of a string, and of a list.
fn lengths_of(view: &Rlp<'_>) -> (usize, usize) {
    match view.prototype() {
        Ok(Prototype::Data(len)) => (len, 0),
        Ok(Prototype::List(len)) => (0, len),
        _ => (usize::MAX, usize::MAX),
    }
}

/// Returns the text of a view.
fn text_of(view: &Rlp<'_>) -> Line {
    let mut text = Line::new();
    let _ = text.display(view);
    text
}

/// Returns whether a view of the bytes and its clone have these bytes and are of this kind.
fn is_sound(bytes: &[u8], is_strict: bool) -> bool {
    let view = view_of(bytes, is_strict);
    let copy = view.clone();
    let are_same = view.as_raw() == bytes && copy.as_raw() == bytes;
    !view.is_null() && view.is_strict() == is_strict && copy.is_strict() == is_strict && are_same
}

/// Returns whether each item of the iterator is the item of the same number by `at`, each of two
/// times, and the iterator gives the number of items that it announces, and then `None`.
fn is_numbered(view: &Rlp<'_>) -> bool {
    let mut items = view.iter();
    let (len, mut index) = (items.len(), 0usize);
    for item in view {
        let bytes = item.as_raw();
        let is_same = matches!(view.at(index), Ok(item) if item.as_raw() == bytes)
            && matches!(view.at(index), Ok(item) if item.as_raw() == bytes);
        if items.next().is_none() || !is_same {
            return false;
        }
        index = index.saturating_add(1);
    }
    items.next().is_none()
        && items.next().is_none()
        && items.len() == 0
        && items.size_hint() == (0, Some(0))
        && len == index
        && len == view.item_count().unwrap_or(0)
}

/// Rows of views.
const VIEWS: &str = "
    tally: What the calls give that read a header, or the value of a view. Strict views are whole
    where the input is exactly one framed item, which is `8100` to `81ff` or `c100` to `c1ff`.
    header | 61840 0 3570 0 0 0 8 8 110 0 0 0 0 912920
    lenient payload_info | 33792 0 31618 0 0 0 8 8 110 0 0 0 0 34304
    lenient data | 33792 0 31618 0 0 0 8 8 110 0 0 0 0 33280
    strict payload_info | 512 33280 31618 0 0 0 8 8 110 0 0 0 0 1024
    strict data | 512 33280 31618 0 0 0 8 8 110 0 0 0 0 512

    What the calls give that count or find items. Strict views have items where the input is
    exactly one list of framed items, `c100` to `c180` or `c1c0`. None of those lists has a second
    item.
    lenient item_count | 16384 0 0 49152 0 0 0 0 0 0 0 0 0 0
    lenient item 0 | 130 0 16191 49152 0 0 0 8 55 0 0 0 0 130
    lenient item 1 | 0 0 16321 49152 0 0 0 8 55 0 0 0 0 0
    lenient last item | 0 0 16321 49152 0 0 0 8 55 0 0 0 0 0
    strict item_count | 130 256 15935 49152 0 0 0 8 55 0 0 0 0 0
    strict at 0 | 130 256 15935 49152 0 0 0 8 55 0 0 0 0 0
    strict at 1 | 0 256 16065 49152 0 0 0 8 55 0 0 0 0 0

    sum: The numbers of inputs that are a list, are a string, are empty, begin with a number, and
    nest within 0, 1 and 2 lists, the sums of the sizes, of the lengths in prototypes of strings, and
    of the numbers of items in prototypes of lists, and the numbers of inputs that are canonical
    within the depths 0 to 3, by a lenient view and by a strict one. `8180` to `81ff` are canonical
    and have depth 0, `c100` to `c17f` and `c180` have depth 1, and `c1c0` has depth 2.
    sound | 65536
    lenient is_list | 16384
    lenient is_data | 49152
    lenient is_empty | 512
    lenient is_int | 47049
    lenient within 0 | 65024
    lenient within 1 | 65535
    lenient within 2 | 65536
    lenient size | 33024
    lenient string | 33024
    lenient items | 130
    lenient canonical 0 | 128
    lenient canonical 1 | 257
    lenient canonical 2 | 258
    lenient canonical 3 | 258
    strict canonical 0 | 128
    strict canonical 1 | 257
    strict canonical 2 | 258
    strict canonical 3 | 258
    lenient numbered | 65536
";

#[test]
fn views_of_two_bytes(rt: HostRuntime) -> Result<(), Fail> {
    check_rows(rt.alloc(), &Tallies, VIEWS)
}

/// Returns what reading an input as a `T` gives.
fn read<T: Decodable>(alloc: Global, bytes: &[u8]) -> Answer {
    rlp::decode::<T>(alloc, bytes).and(Ok(0))
}

/// Returns what reading an input as a value of a type gives.
fn decoded(alloc: Global, bytes: &[u8], of: &str) -> Answer {
    match of {
        "u8" => read::<u8>(alloc, bytes),
        "u16" => read::<u16>(alloc, bytes),
        "u32" => read::<u32>(alloc, bytes),
        "u64" => read::<u64>(alloc, bytes),
        "u128" => read::<u128>(alloc, bytes),
        "usize" => read::<usize>(alloc, bytes),
        "Uint" => read::<Uint<2>>(alloc, bytes),
        "bool" => read::<bool>(alloc, bytes),
        "Vec" => read::<Vec<u8>>(alloc, bytes),
        "Bytes" => read::<Bytes>(alloc, bytes),
        "BytesMut" => read::<BytesMut>(alloc, bytes),
        "[u8; 1]" => read::<[u8; 1]>(alloc, bytes),
        "String" => read::<String>(alloc, bytes),
        "Box" => read::<Box<u8>>(alloc, bytes),
        _ => read::<Option<u8>>(alloc, bytes),
    }
}

/// Rows of numbers.
const NUMBERS: &str = "
    tally: 256 inputs for each byte from 01 to 80, and `8180` to `81ff`, are numbers. 256 inputs for
    each of the bytes 01 and 80 are truth values, and other numbers are none. `decode_value`, by
    the view's decoder and by a new one, calls its closure with strings, of which are 256 for
    each byte up to 80, and `8180` to `81ff`. The sum of their lengths is 256 for each byte
    below 80, and 128 for `8180` to `81ff`.
    decoded u8 | 32896 0 0 0 16384 0 0 0 440 15816 0 0 0 0
    decoded u16 | 32896 0 0 0 16384 0 0 0 440 15816 0 0 0 0
    decoded u32 | 32896 0 0 0 16384 0 0 0 440 15816 0 0 0 0
    decoded u64 | 32896 0 0 0 16384 0 0 0 440 15816 0 0 0 0
    decoded u128 | 32896 0 0 0 16384 0 0 0 440 15816 0 0 0 0
    decoded usize | 32896 0 0 0 16384 0 0 0 440 15816 0 0 0 0
    decoded Uint | 32896 0 0 0 16384 0 0 0 440 15816 0 0 0 0
    decoded bool | 512 0 0 0 16384 0 0 0 440 15816 0 32384 0 0
    decoder | 33152 0 0 0 16384 0 0 0 184 15816 0 0 0 32896
    view's decoder | 33152 0 0 0 16384 0 0 0 184 15816 0 0 0 32896
";

#[test]
fn numbers_of_two_bytes(rt: HostRuntime) -> Result<(), Fail> {
    check_rows(rt.alloc(), &Tallies, NUMBERS)
}

/// Returns whether an input gives a number and begins with its encoding.
fn is_begun(alloc: Global, bytes: &[u8]) -> bool {
    let Ok(number) = rlp::decode::<u8>(alloc, bytes) else {
        return false;
    };
    match rlp::encode(alloc, &number) {
        Ok(encoding) => bytes.starts_with(encoding.as_slice()),
        Err(_) => false,
    }
}

/// Rows of strings and lists.
const STRINGS: &str = "
    tally: Strings are 256 inputs for each byte up to 80, and `8180` to `81ff`. The empty string is too
    short for an array, and the strings of `8180` to `81ff` are no texts. Each list but `c100`
    and `c1c0` is read as an option, most as `None`. All inputs but these two are read as lists,
    most as empty ones.
    decoded Vec | 33152 0 0 0 16384 0 0 0 184 15816 0 0 0 0
    decoded Bytes | 33152 0 0 0 16384 0 0 0 184 15816 0 0 0 0
    decoded BytesMut | 33152 0 0 0 16384 0 0 0 184 15816 0 0 0 0
    decoded [u8; 1] | 32896 0 256 0 16384 0 0 0 184 15816 0 0 0 0
    decoded String | 33024 0 0 0 16512 0 0 0 184 15816 0 0 0 0
    decoded Box | 32896 0 0 0 16384 0 0 0 440 15816 0 0 0 0
    decoded Option | 16382 0 0 49152 1 0 0 0 1 0 0 0 0 0
    as_list | 65534 0 0 0 1 0 0 0 1 0 0 0 0 0
    val_at | 128 0 16191 49152 1 0 0 8 56 0 0 0 0 0
    list_at | 130 0 16191 49152 0 0 0 8 55 0 0 0 0 0

    sum: The number of inputs that print as `[]`, the sum of the lengths of all texts, and the number
    of inputs that give a number, which are exactly those that begin with the encoding of one.
    lenient printed | 382
    lenient letters | 614694
    begun | 32896
";

#[test]
fn strings_and_lists_of_two_bytes(rt: HostRuntime) -> Result<(), Fail> {
    check_rows(rt.alloc(), &Tallies, STRINGS)
}
