//! The Recursive Length Prefix format: the canonical bytes of an item, which is a byte string or a
//! list of items.
//!
//! A [`Rlp`] is a view of bytes that may hold an item. A call reads no more bytes than it needs,
//! and every result is a function of the bytes.
//!
//! ```rust
//! let view = rlp::Rlp::new(&[0xc2, 0x05, 0x06]);
//! assert!(rt; view.is_list());
//! assert_eq!(rt; view.iter().count(), 2);
//! assert_eq!(rt; format!(in alloc; "{view}")?.as_str(), "[\"0x05\", \"0x06\"]");
//! ```
#![tactic(auto)]

ghost use Rattle.std.specs.{Prelude.{◌≡◌, IfOk, IfErr, IsOkAnd, IsTrue, ◌⊎◌, List, map, All}, Vec.vec_items};
ghost use Rattle.rlp_format.specs.{Format.Encoding.{list_of, encoding}, Values.Value.AreAlike};
ghost use Rattle.rlp_reading.specs.{declared.error.DecoderError.TheVariants.OutOfMemory, Views.View.{strict_view_of, view_of}, Form.{Faults, Gives, MayLackMemory, list_reading}};

mod impls;
pub mod laws;
mod rlpin;
mod structs;
mod traits;

pub use impls::RawItem;
pub use rlp_format::Uint;
pub use rlp_reading::{DecoderError, FlatItem, PayloadInfo, Prototype, TreeFault};
pub use rlp_write::{
    AppendFields, BasicEncoder, Chain, EMPTY_LIST_RLP, Each, Encodable, FieldsOf, Flattened,
    ListOf, NULL_RLP, Optional, OptionalGroupOf, OptionalListOf, RlpStream, encode, encode_list,
    write_envelope, write_struct,
};
pub use rlpin::{BasicDecoder, CountedFields, Envelope, Fields, Rlp, RlpIterator};
use std::alloc::Global;
pub use structs::{
    DecodeFields, DecodeFieldsPlaced, FieldFault, FixedFields, Groups, Joined, ListField,
    OptionalField, OptionalGroup, decode_struct, put_path_of,
};
pub use traits::{
    Decodable, DecodePlaced, PlacedFault, Record, RoundTrip, Scalar, StrictRead, decode_placed,
    put_list_path,
};

/// The value that the bytes begin with, read by [`Decodable::decode`] of its type from a lenient
/// view. The types of this crate ignore what follows the value's item.
///
/// ```rust
/// assert_eq!(rt; rlp::decode::<u64>(alloc, &[0x82, 0x01, 0x00])?, 256);
/// ```
#[inline(always)]
pub fn decode<T: Decodable>(alloc: Global, bytes: &[u8]) -> Result<T, DecoderError>
    ensures value { IfOk result (λ x. Gives T.reading (view_of bytes.now) x) }
    ensures fault { IfErr result (λ e. Faults T.reading (view_of bytes.now) e
        ⊎ ((e ≡ OutOfMemory) × MayLackMemory T.reading (view_of bytes.now))) }
{
    Rlp::new(bytes).as_val(alloc)
}

/// The values of the list that the bytes begin with, read by [`Rlp::as_list`] from a lenient view.
/// It ignores what follows the list.
///
/// ```rust
/// assert_eq!(rt; rlp::decode_list::<u64>(alloc, &[0xc2, 0x05, 0x06])?.as_slice(), [5, 6].as_slice());
/// ```
pub fn decode_list<T: Decodable>(alloc: Global, bytes: &[u8]) -> Result<Vec<T>, DecoderError>
    ensures value { IfOk result
        (λ values. Gives (list_reading vec_items T.reading) (view_of bytes.now) values) }
    ensures fault { IfErr result
        (λ e. Faults (list_reading (λ xs. xs) T.reading) (view_of bytes.now) e
        ⊎ ((e ≡ OutOfMemory)
        × MayLackMemory (list_reading (λ xs. xs) T.reading) (view_of bytes.now))) }
{
    Rlp::new(bytes).as_list(alloc)
}

/// The value whose whole encoding the bytes are: [`decode`] with a strict view. A type of this
/// crate that is read from one string fails with `RlpIsTooBig` if bytes follow the string.
///
/// ```rust
/// assert_eq!(rt; rlp::decode_strict::<u64>(alloc, &[0x82, 0x01, 0x00])?, 256);
/// assert!(rt; rlp::decode_strict::<u64>(alloc, &[0x05, 0x06]) == Err(rlp::DecoderError::RlpIsTooBig));
/// ```
pub fn decode_strict<T: Decodable>(alloc: Global, bytes: &[u8]) -> Result<T, DecoderError>
    ensures value { IfOk result (λ x. Gives T.reading (strict_view_of bytes.now) x) }
    ensures fault { IfErr result (λ e. Faults T.reading (strict_view_of bytes.now) e
        ⊎ ((e ≡ OutOfMemory) × MayLackMemory T.reading (strict_view_of bytes.now))) }
{
    Rlp::new_strict(bytes).as_val(alloc)
}

/// The values of the list whose whole encoding the bytes are: [`decode_list`] with a strict view.
///
/// Fails with the fault of an item, or with the first fault of the list: `RlpExpectedToBeList` if
/// the bytes don't begin a list, then the fault of a list that isn't framed, then `RlpIsTooBig` if
/// bytes follow the list, then the fault of bytes in the list that follow its last item.
///
/// ```rust
/// assert_eq!(rt; rlp::decode_list_strict::<u64>(alloc, &[0xc2, 0x05, 0x06])?.as_slice(), [5, 6].as_slice());
/// ```
pub fn decode_list_strict<T: Decodable>(alloc: Global, bytes: &[u8]) -> Result<Vec<T>, DecoderError>
    ensures value { IfOk result
        (λ values. Gives (list_reading vec_items T.reading) (strict_view_of bytes.now) values) }
    ensures fault { IfErr result
        (λ e. Faults (list_reading (λ xs. xs) T.reading) (strict_view_of bytes.now) e
        ⊎ ((e ≡ OutOfMemory)
        × MayLackMemory (list_reading (λ xs. xs) T.reading) (strict_view_of bytes.now))) }
{
    Rlp::new_strict(bytes).as_list(alloc)
}

/// The value whose whole encoding the bytes are, for a type with [`StrictRead`]. This is
/// [`decode_strict`] with a contract that says more, by the law of the trait:
///
/// - A value that is returned fits, and the bytes are its encoding.
/// - For the encoding of a value that fits, the result is a value alike to it, or `OutOfMemory` if
///   memory is refused.
///
/// ```rust
/// assert_eq!(rt; rlp::decode_whole::<u64>(alloc, &[0x82, 0x01, 0x00])?, 256);
/// ```
pub fn decode_whole<T: StrictRead>(alloc: Global, bytes: &[u8]) -> Result<T, DecoderError>
    ensures whole { IfOk result (λ w. T.fits w × (bytes.now ≡ encoding (T.item w))) }
    ensures fault { IfErr result (λ e. Faults T.reading (strict_view_of bytes.now) e
        ⊎ ((e ≡ OutOfMemory) × MayLackMemory T.reading (strict_view_of bytes.now))) }
    ensures only { (v : T) → IsOkAnd result (λ w. AreAlike T.item w v)
        → bytes.now ≡ encoding (T.item v) }
    ensures alike { (v : T) → T.fits v → bytes.now ≡ encoding (T.item v)
        → IfOk result (λ w. T.fits w × AreAlike T.item w v) }
    ensures memory { (v : T) → T.fits v → bytes.now ≡ encoding (T.item v)
        → IfErr result (λ e. (e ≡ OutOfMemory) × IsTrue T.reading.takes_memory) }
{
    laws::whole_encoding_is_read::<T>(bytes);
    decode_strict(alloc, bytes)
}

/// The values of the list whose whole encoding the bytes are, for a type with [`StrictRead`]:
/// [`decode_list_strict`], with what the law of the trait says of a list:
///
/// - Values that are returned fit, and the bytes are the encoding of the list of these values.
/// - For the encoding of a list of values that fit, the result has values alike to them, or is
///   `OutOfMemory` if memory is refused.
///
/// ```rust
/// assert_eq!(rt; rlp::decode_list_whole::<u64>(alloc, &[0xc2, 0x05, 0x06])?.as_slice(), [5, 6].as_slice());
/// ```
pub fn decode_list_whole<T: StrictRead>(alloc: Global, bytes: &[u8]) -> Result<Vec<T>, DecoderError>
    ensures whole { IfOk result (λ ws. All T.fits ws.items
        × (bytes.now ≡ encoding (list_of (map T.item ws.items)))) }
    ensures fault { IfErr result
        (λ e. Faults (list_reading (λ xs. xs) T.reading) (strict_view_of bytes.now) e
        ⊎ ((e ≡ OutOfMemory)
        × MayLackMemory (list_reading (λ xs. xs) T.reading) (strict_view_of bytes.now))) }
    ensures only { (vs : List T)
        → IsOkAnd result (λ ws. map T.item ws.items ≡ map T.item vs)
        → bytes.now ≡ encoding (list_of (map T.item vs)) }
    ensures alike { (vs : List T) → All T.fits vs → bytes.now ≡ encoding (list_of (map T.item vs))
        → IfOk result (λ ws. All T.fits ws.items × (map T.item ws.items ≡ map T.item vs)) }
    ensures memory { (vs : List T) → All T.fits vs
        → bytes.now ≡ encoding (list_of (map T.item vs)) → IfErr result (λ e. e ≡ OutOfMemory) }
{
    decode_list_strict(alloc, bytes)
}
