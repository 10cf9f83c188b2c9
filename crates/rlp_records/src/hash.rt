//! Hashes: strings of 32 bytes.

ghost use Rattle.std.specs.{Prelude.{◌≡◌, ◌⊎◌, ℕ, Err, IfErr, IfOk, IsTrue, List, Ok, OnOk, map}, Borrow.Bor};
ghost use Rattle.rlp.specs.{DecoderError.TheVariants.OutOfMemory, Format.Encoding.encoding, Views.View.strict_view_of};
ghost use Rattle.rlp_reading.specs.Form.{Faults, fault_of};
ghost use Rattle.rlp_records.specs.{Alone.bytes_alone, Hash.hash, Hashing.{IsHashOf, alone_of, hash_of, hashes_of, values_of}};

use crate::keccak256;
use rlp::{DecoderError, Encodable, Fields, Record, Rlp, RlpStream, StrictRead};
use std::alloc::{AllocError, Global};

/// A hash of 32 bytes: a Keccak-256 hash or the root of a trie, as in section 4.3 and appendix B of
/// the yellow paper. The fields of newer EIPs also hold hashes by SHA-256 and roots of SSZ trees.
#[derive(Debug, Clone, Copy, PartialEq, Eq)]
pub struct Hash(pub [u8; 32]);

/// Written as the array of its bytes.
impl Encodable for Hash {
    ghost item = { hash.item };

    ghost fits = { hash.Fits };

    fn rlp_append(&self, s: &mut RlpStream) -> Result<(), AllocError> {
        self.0.rlp_append(s)
    }
}

/// Read as an array of 32 bytes. Fails with `RlpIsTooShort` if the string is shorter, and with
/// `RlpIsTooBig` if it is longer. It doesn't allocate.
impl Record for Hash {
    ghost reading = { hash.reading };

    fn decode(alloc: Global, rlp: &Rlp<'_>) -> Result<Hash, DecoderError> {
        let bytes = rlp.as_val(alloc)?;
        Ok(Hash(bytes))
    }

    fn put_path(_alloc: Global, _rlp: &Rlp<'_>, _path: &mut Vec<usize>) -> Result<(), AllocError> {
        Ok(())
    }

    ghost lawful = { hash.reads_strictly };
}

/// Returns the hash of the encoding of a value, such as a header, whose hash names the block. Fails
/// as [`rlp::encode`] does.
pub fn encoding_hash<E: Encodable>(alloc: Global, value: &E) -> Result<Hash, AllocError>
    ensures fits { OnOk result (E.fits value.now) }
    ensures hash { IfOk result (λ h. IsHashOf h (encoding (E.item value.now))) }
{
    let encoding = rlp::encode(alloc, value)?;
    Ok(Hash(keccak256(encoding.as_slice())))
}

/// Reads a record strictly from its whole encoding, as [`rlp::decode_whole`] does, and returns it
/// with the hash of its standalone bytes: of the encoding of a list, and of a string without its
/// header, such as a typed transaction in a list. `hash` of a header, a transaction or a node of
/// the trie returns the same hash, but encodes the value for it.
///
/// Fails as [`rlp::decode_whole`] does.
#[tactic(auto, using(crate::proofs::ItemHashes::strict_hash, crate::proofs::ItemHashes::strict_hash_there))]
pub fn decode_with_hash<R: StrictRead>(
    alloc: Global,
    bytes: &[u8],
) -> Result<(R, Hash), DecoderError>
    ensures whole { IfOk result (λ r. R.fits r.0 × (bytes.now ≡ encoding (R.item r.0))) }
    ensures hash { IfOk result (λ r. IsHashOf r.1 (bytes_alone (R.item r.0))) }
    ensures fault { IfErr result (λ e. Faults R.reading (strict_view_of bytes.now) e
        ⊎ ((e ≡ OutOfMemory) × IsTrue R.reading.takes_memory)) }
    ensures memory { (v : R) → R.fits v → bytes.now ≡ encoding (R.item v)
        → IfErr result (λ e. (e ≡ OutOfMemory) × IsTrue R.reading.takes_memory) }
{
    let record = rlp::decode_whole(alloc, bytes)?;
    let hash = item_hash(&Rlp::new_strict(bytes))?;
    Ok((record, hash))
}

/// Returns the hash of the item that a view begins with, as it stands alone: of a list with its
/// header, or of a string without one. In a list of transactions this hash names the transaction.
/// It doesn't allocate.
///
/// Fails as [`Rlp::payload_info`] does for a list, and as [`rlp::BasicDecoder::string`] does for
/// anything else.
pub fn item_hash(rlp: &Rlp<'_>) -> Result<Hash, DecoderError>
    ensures hash { IfOk result (λ h. hash_of rlp.now ≡ Ok h.0) }
    ensures fault { IfErr result (λ e. hash_of rlp.now ≡ Err (fault_of e)) }
{
    let bytes = alone(rlp)?;
    Ok(Hash(keccak256(bytes)))
}

/// The bytes of the item that a view begins with, as it stands alone.
fn alone<'a>(rlp: &Rlp<'a>) -> Result<&'a [u8], DecoderError>
    ensures bytes { IfOk result (λ bytes. alone_of rlp.now ≡ Ok bytes.now) }
    ensures fault { IfErr result (λ e. alone_of rlp.now ≡ Err (fault_of e)) }
{
    if rlp.is_list() {
        let (item, _) = rlp.split_first()?;
        return Ok(item.as_raw());
    }
    rlp.decoder().string()
}

/// Returns the hash of each item of a view that is read as a list, in order, as [`item_hash`]
/// returns it.
///
/// Fails as [`Fields::of_list`] does, then with the first fault of [`item_hash`], and with
/// `OutOfMemory` if memory is refused.
#[tactic(auto, using(rlp_reading::proofs::ListLaws::pushed, rlp_reading::proofs::ListLaws::all_pushed))]
pub fn item_hashes(alloc: Global, rlp: &Rlp<'_>) -> Result<Vec<Hash>, DecoderError>
    ensures hashes { IfOk result (λ hs. hashes_of rlp.now ≡ Ok (map (λ h. h.0) hs.items)) }
    ensures fault { IfErr result (λ e. (hashes_of rlp.now ≡ Err (fault_of e)) ⊎ (e ≡ OutOfMemory)) }
{
    let mut items = Fields::of_list(rlp)?;
    let mut hashes = Vec::new(alloc);
    while let Some(item) = items.next() {
        let hash = item_hash(&item)?;
        hashes.push(hash)?;
    }
    Ok(hashes)
}

/// Returns the bytes of each item of a view that is read as a list, in order, as the item stands
/// alone: of a list with its header, or of a string without one. [`item_hashes`] returns the hashes
/// of these bytes. Nothing is copied.
///
/// Fails as [`item_hashes`] does.
#[tactic(auto, using(rlp_reading::proofs::ListLaws::pushed, rlp_reading::proofs::ListLaws::all_pushed))]
pub fn item_values<'a>(alloc: Global, rlp: &Rlp<'a>) -> Result<Vec<&'a [u8]>, DecoderError>
    ensures values { IfOk result
        (λ values. values_of rlp.now ≡ Ok (map (λ (s : Bor (List ℕ)). s.now) values.items)) }
    ensures fault { IfErr result (λ e. (values_of rlp.now ≡ Err (fault_of e)) ⊎ (e ≡ OutOfMemory)) }
{
    let mut items = Fields::of_list(rlp)?;
    let mut values = Vec::new(alloc);
    while let Some(item) = items.next() {
        let value = alone(&item)?;
        values.push(value)?;
    }
    Ok(values)
}
