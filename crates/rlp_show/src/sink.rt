//! Sinks, which take the parts of values that are shown.

ghost use Rattle.std.specs.Prelude.{◌≡◌, OnOk};
ghost use Rattle.rlp_show.specs.Value.{Steps, bytes as shown_bytes, content_of, number as shown_number};
ghost use Rattle.rlp_show.specs.{declared.sink.NumberKind.TheVariants.Decimal, declared.sink.BytesKind.TheVariants.Any};

use rlp::Uint;
use std::alloc::AllocError;

/// How a number is shown.
#[derive(Clone, Copy)]
pub enum NumberKind {
    /// A number, which is hexadecimal in JSON.
    Decimal,
    /// A place, counted from 0, which is decimal in JSON too.
    Place,
    /// A number that is hexadecimal in lines too.
    Quantity,
    /// The number `v` in the signature of a transaction without a type.
    LegacyV,
}

/// How bytes are shown.
#[derive(Clone, Copy)]
pub enum BytesKind {
    /// Bytes.
    Any,
    /// No bytes, for which JSON has `null`.
    Null,
    /// Bytes that are mostly zero.
    Sparse,
    /// The hex-prefix encoding of a path of the trie.
    Path,
    /// Bytes that are mostly a word: lower-case letters and digits.
    Word,
    /// An IP address of 4 or 16 bytes.
    Ip,
    /// The bytes after the number of a type.
    Payload,
    /// The encoding of a list, as it is.
    Encoding,
}

/// What is shown as one text.
#[derive(Clone, Copy)]
pub enum Shown<'a> {
    /// A number.
    Number(NumberKind, Uint<32>),
    /// The number of a type of EIP-2718, which is the byte before a payload.
    TypeByte(u8),
    /// Bytes.
    Bytes(BytesKind, &'a [u8]),
    /// A text without quotes, backslashes and control characters, which JSON would escape.
    Text(&'a str),
    /// A list without items.
    EmptyList,
}

/// A number of 64 bits at most.
pub(crate) fn number(number: u64) -> Shown<'static>
    ensures { content_of result ≡ shown_number Decimal number }
{
    Shown::Number(NumberKind::Decimal, Uint::from(number))
}

/// Bytes of any kind.
pub(crate) fn bytes(bytes: &[u8]) -> Shown<'_>
    ensures { content_of result ≡ shown_bytes Any bytes.now }
{
    Shown::Bytes(BytesKind::Any, bytes)
}

/// What stands around the fields of an object, and around the items of a list that has items.
#[derive(Clone, Copy)]
pub enum Bracket {
    /// The beginning of an object.
    OpenBrace,
    /// The end of an object.
    CloseBrace,
    /// The beginning of a list.
    OpenSquare,
    /// The end of a list.
    CloseSquare,
}

/// What takes a value, part by part and in order.
pub trait Sink {
    /// What contracts see of a sink.
    ghost Seen: { Type 0 };

    /// What contracts see of a sink.
    ghost seen: { Self → Seen };

    /// What a sink does with each part.
    ghost steps: { Steps Seen };

    /// Returns whether the sink takes what is shown in JSON, and not what is shown in lines.
    fn is_json(&self) -> bool
        ensures { result ≡ steps.is_json };

    /// Takes the name in JSON of a field, whose value comes next. Words are joined by underscores, as
    /// in `gas_price`, or by capital letters, as in `gasPrice`, which JSON has for both. Fails with
    /// `AllocError` if memory is refused, as the other methods do.
    fn key(&mut self, json: &str) -> Result<(), AllocError>
        ensures { OnOk result (seen self.new ≡ steps.key json.now (seen self.old)) };

    /// Takes a content and its whole name, such as `access_list[0].address`.
    fn put(&mut self, name: &str, shown: Shown<'_>) -> Result<(), AllocError>
        ensures { OnOk result
            (seen self.new ≡ steps.put name.now (content_of shown.entry) (seen self.old)) };

    /// Takes the beginning or the end of an object or of a list that has items.
    fn bracket(&mut self, bracket: Bracket) -> Result<(), AllocError>
        ensures { OnOk result (seen self.new ≡ steps.bracket bracket (seen self.old)) };
}
