//! What holds of receipts: different receipts have different bytes.

ghost use Rattle.std.specs.Prelude.{◌≡◌, ◌<◌, ◌^◌, length};
ghost use Rattle.rlp_records.specs.Alone.{bytes_alone};
ghost use Rattle.rlp_headers.specs.TypedReceipt.{any_receipt};

use crate::AnyReceipt;

/// Two receipts that [`AnyReceipt::to_bytes`] writes as the same bytes, fewer than 2^64, have the
/// same type and the same fields. These bytes are the values of the trie of receipts.
pub fn bytes_tell_receipts(one: &AnyReceipt, other: &AnyReceipt)
    ensures { any_receipt.Fits one.now → any_receipt.Fits other.now
        → length (bytes_alone (any_receipt.item one.now)) < 2 ^ 64
        → bytes_alone (any_receipt.item one.now) ≡ bytes_alone (any_receipt.item other.now)
        → any_receipt.reading.seen one.now ≡ any_receipt.reading.seen other.now }
{}
