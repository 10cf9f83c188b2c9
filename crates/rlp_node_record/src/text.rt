//! Node records as text.

ghost use Rattle.std.specs.{Prelude.{◌≡◌, ◌⊎◌, ◌++◌, IfErr, IfOk, MatchOption, codes}, String.string_bytes};
ghost use Rattle.base64.specs.GeneralPurpose.{IsBytes};
ghost use Rattle.rlp.specs.{DecoderError.TheVariants.OutOfMemory, Form.{custom, fault_of}};
ghost use Rattle.rlp_node_record.specs.{NodeRecord.IsNodeRecord, NodeText.{HasPrefix, IsNodeTextFault, IsNotBase64, base64_of, node_text, text_of}};

use crate::NodeRecord;
use base64::DecodeAllocError;
use base64::engine::general_purpose::URL_SAFE_NO_PAD;
use rlp::DecoderError;
use std::alloc::{AllocError, Global};

impl NodeRecord {
    /// The record as text: `enr:`, and then its encoding in URL-safe base64 without padding. Fails
    /// with `AllocError` if memory is refused.
    pub fn to_text(&self, alloc: Global) -> Result<String, AllocError>
        ensures { IfOk result (λ t. string_bytes t ≡ node_text self.now) }
    {
        let bytes = rlp::encode(alloc, self)?;
        text_of(alloc, bytes.as_slice())
    }

    /// The record of this text, read strictly: each record is read from one text only.
    ///
    /// Fails with `Custom("text does not begin with enr:")`, with `Custom("text is not base64")` if
    /// the text after `enr:` isn't URL-safe base64 without padding, with the fault that
    /// [`rlp::decode_strict`] finds in the bytes, and with `OutOfMemory` if memory is refused. Bits
    /// of the last digit that belong to no byte must be 0; some clients ignore them.
    pub fn from_text(alloc: Global, text: &str) -> Result<NodeRecord, DecoderError>
        ensures value { IfOk result (λ r. IsNodeRecord r × (text.now ≡ node_text r)) }
        ensures fault { IfErr result (λ e. IsNodeTextFault text.now e
            ⊎ ((e ≡ OutOfMemory) × HasPrefix text.now)) }
    {
        let Some(digits) = digits_of(text.as_bytes()) else {
            return Err(DecoderError::Custom("text does not begin with enr:"));
        };
        let bytes = bytes_of(alloc, digits)?;
        rlp::decode_whole(alloc, bytes.as_slice())
    }
}

/// The text of bytes.
#[tactic(auto, unfolding(crate::specs::NodeText::base64_of))]
fn text_of(alloc: Global, bytes: &[u8]) -> Result<String, AllocError>
    ensures { IfOk result (λ t. string_bytes t ≡ text_of bytes.now) }
{
    let mut text = String::new(alloc);
    text.push_str("enr:")?;
    URL_SAFE_NO_PAD.encode_string(bytes, &mut text)?;
    Ok(text)
}

/// The text after `enr:`, or `None` if the text doesn't begin with `enr:`.
fn digits_of(text: &[u8]) -> Option<&[u8]>
    ensures { MatchOption result (¬ HasPrefix text.now)
        (λ digits. text.now ≡ codes "enr:" ++ digits.now) }
{
    text.strip_prefix(b"enr:")
}

/// The bytes that have this base64.
#[tactic(auto, unfolding(crate::specs::NodeText::base64_of))]
fn bytes_of(alloc: Global, digits: &[u8]) -> Result<Vec<u8>, DecoderError>
    ensures value { IfOk result (λ b. digits.now ≡ base64_of b.items) }
    ensures bytes { IfOk result (λ b. IsBytes b.items) }
    ensures fault { IfErr result (λ e.
        (IsNotBase64 digits.now × (fault_of e ≡ custom (codes "text is not base64")))
        ⊎ (e ≡ OutOfMemory)) }
{
    match URL_SAFE_NO_PAD.decode(alloc, digits) {
        Ok(bytes) => Ok(bytes),
        Err(DecodeAllocError::OutOfMemory) => Err(DecoderError::OutOfMemory),
        Err(DecodeAllocError::DecodeError(_)) => Err(DecoderError::Custom("text is not base64")),
    }
}
