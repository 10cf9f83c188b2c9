//! The bytes of a record that is given as text.

ghost use Rattle.std.specs.Prelude.{◌≡◌, option_map, IfOk};
ghost use Rattle.rlp_show.specs.Input.{base64_bytes, is_node_text, is_record, record_bytes};

use base64::DecodeAllocError;
use base64::engine::general_purpose::URL_SAFE_NO_PAD;
use rlp_lines::read_bytes;
use std::alloc::{AllocError, Global};

/// Returns the bytes that have this URL-safe base64 without padding, if it is such base64.
#[tactic(auto, unfolding(crate::specs::Input::base64_bytes))]
fn read_base64(alloc: Global, text: &[u8]) -> Result<Option<Vec<u8>>, AllocError>
    ensures { IfOk result (λ read. option_map (λ v. v.items) read ≡ base64_bytes text.now) }
{
    match URL_SAFE_NO_PAD.decode(alloc, text) {
        Ok(bytes) => Ok(Some(bytes)),
        Err(DecodeAllocError::OutOfMemory) => Err(AllocError),
        Err(DecodeAllocError::DecodeError(_)) => Ok(None),
    }
}

/// Returns whether a text is the text of a node record: it begins with `enr:`.
pub(crate) fn is_node_text(text: &[u8]) -> bool
    ensures { result ≡ is_node_text text.now }
{
    text.starts_with(b"enr:")
}

/// Returns whether an argument is a record: it begins with `0x` or `enr:`.
pub(crate) fn is_record(word: &str) -> bool
    ensures { result ≡ is_record word.now }
{
    word.starts_with("0x") || is_node_text(word.as_bytes())
}

/// Returns the bytes of a record that is given as digits, or as the text of a node record, or `None`
/// if the text is neither.
pub(crate) fn read_record(alloc: Global, text: &[u8]) -> Result<Option<Vec<u8>>, AllocError>
    ensures { IfOk result (λ read. option_map (λ v. v.items) read ≡ record_bytes text.now) }
{
    match read_bytes(alloc, text)? {
        Some(bytes) => Ok(Some(bytes)),
        None if is_node_text(text) => read_base64(alloc, &text[4..]),
        None => Ok(None),
    }
}
