//! What C calls for records.

ghost use Rattle.std.specs.Prelude.{◌≡◌, ◌+◌, ◌<◌, ◌^◌, ◌↔◌, IsOk, length};
ghost use Rattle.rlp_format.specs.Format.Encoding.{encoding};
ghost use Rattle.rlp_reading.specs.{Format.Framing.items, Views.View.strict_view_of};
ghost use Rattle.rlp_records.specs.{Alone.bytes_alone, Eip2718.type_of};
ghost use Rattle.rlp_transactions.specs.{Transaction.{transaction, transaction_types}, declared.transaction.Transaction.Transaction};
ghost use Rattle.rlp_headers.specs.Header.{header};
ghost use Rattle.rlp_headers.specs.declared.header.Header.{Header as BlockHeader};
ghost use Rattle.rlp_c.specs.{declared.records.fields.Record.TheVariants.Header, Fields.{numbered, record_result}, Places.{IsFound, fields_in, fields_of, place_of}};
ghost use Rattle.rlp_c.specs.{Records.{IsRecordRead, IsTransactionRead, faulty_field, most_fields, record_of_type, transaction_result}, Rows.ArePlaced};

use super::fields::{Record, check_record, most_fields};
use crate::item::RlpItem;
use crate::split::split_list;
use crate::status::{RLP_UNKNOWN_TYPE, status_of};
use rlp::DecoderError;
use rlp_reading::framed::begins_as_list;
use rlp_reading::items::{ItemReader, count_items};
use std::alloc::Global;

/// Writes a row for each field of the standalone transaction that the bytes are, as in EIP-2718,
/// and its type, which is 0 for a legacy transaction. `count` gets the number of fields. If a field
/// has a fault or is missing, it gets the number of this field, counted from 1; if there are too
/// many items, the number of the first item too many; and for any other fault 0. The elements of
/// the array behind the fields stay as they were.
///
/// The transactions and their fields are the ones of `rlp_transactions`: the fields are found if
/// and only if that crate reads the bytes, and else the status is the fault of that crate. Only an
/// unknown type has a status of its own.
#[unsafe(no_mangle)]
pub extern "C" fn rlp_transaction(
    alloc: Global,
    bytes: &[u8],
    transaction_type: &mut u32,
    out: &mut [RlpItem],
    count: &mut usize,
) -> u32
    ensures answer { IsTransactionRead bytes.now out.old out.new
        transaction_type.old transaction_type.new count.new result (transaction_result bytes.now) }
    ensures exact { IsFound result ↔ IsOk (transaction_result bytes.now) }
    ensures written { (t : Transaction) → transaction.Fits t
        → bytes.now ≡ bytes_alone (transaction.item t)
        → (transaction_type.new ≡ type_of transaction_types t)
        × ArePlaced (place_of t) (encoding (fields_of t)) (fields_in (fields_of t))
        out.old out.new count.new result }
{
    read_transaction(alloc, bytes, transaction_type, out, count)
}

/// Does what [`rlp_transaction`] does.
fn read_transaction(
    alloc: Global,
    bytes: &[u8],
    transaction_type: &mut u32,
    out: &mut [RlpItem],
    count: &mut usize,
) -> u32
    ensures { IsTransactionRead bytes.now out.old out.new
        transaction_type.old transaction_type.new count.new result (transaction_result bytes.now) }
{
    let [first, payload @ ..] = bytes else {
        *count = 0;
        return status_of(&DecoderError::RlpIsTooShort);
    };
    if begins_as_list(bytes) {
        *transaction_type = 0;
        return read_record(alloc, Record::Legacy, bytes, 0, out, count);
    }
    match record_of_type(*first) {
        Some(list) => {
            *transaction_type = *first as u32;
            read_record(alloc, list, payload, 1, out, count)
        }
        None => {
            *count = 0;
            RLP_UNKNOWN_TYPE
        }
    }
}

/// Writes a row for each field of the header of a block that the bytes are, a header of
/// `rlp_headers`. Everything else is as in [`rlp_transaction`].
#[unsafe(no_mangle)]
pub extern "C" fn rlp_header_fields(
    alloc: Global,
    bytes: &[u8],
    out: &mut [RlpItem],
    count: &mut usize,
) -> u32
    ensures answer { IsRecordRead Header 0 bytes.now out.old out.new count.new result
        (numbered (header.reading.read (strict_view_of bytes.now))) }
    ensures exact { IsFound result ↔ IsOk (header.reading.read (strict_view_of bytes.now)).result }
    ensures written { (h : BlockHeader) → header.Fits h → bytes.now ≡ encoding (header.item h)
        → ArePlaced 0 (encoding (header.item h)) (fields_in (header.item h))
        out.old out.new count.new result }
{
    read_record(alloc, Record::Header, bytes, 0, out, count)
}

/// The record behind the byte of a type.
fn record_of_type(kind: u8) -> Option<Record>
    ensures { result ≡ record_of_type kind }
{
    match kind {
        1 => Some(Record::AccessListPayload),
        2 => Some(Record::FeeMarketPayload),
        3 => Some(Record::BlobPayload),
        4 => Some(Record::SetCodePayload),
        _ => None,
    }
}

/// Writes a row for each field of the record that these bytes are, which begin at `place`.
fn read_record(
    alloc: Global,
    list: Record,
    bytes: &[u8],
    place: usize,
    out: &mut [RlpItem],
    count: &mut usize,
) -> u32
    requires { place + length bytes.now < 2 ^ 64 }
    ensures { IsRecordRead list place bytes.now out.old out.new count.new result
        (record_result list (strict_view_of bytes.now)) }
{
    match check_record(alloc, list, bytes) {
        Ok(()) => split_list(bytes, place, out, count),
        Err((number, fault)) => {
            let status = status_of(&fault);
            *count = faulty_field(list, bytes, number, status);
            status
        }
    }
}

/// The number of the field that has the fault of this status, if `number` came with the fault.
#[tactic(auto, unfolding(rlp_reading::specs::Format::Framing::items))]
fn faulty_field(list: Record, bytes: &[u8], number: usize, status: u32) -> usize
    ensures { result ≡ faulty_field (most_fields list) (length (items bytes.now)) number status }
{
    if number > 0 || status != 5 {
        return number;
    }
    let mut items = ItemReader::new(bytes);
    items.enter_list();
    count_items(items.rest()).min(most_fields(list)) + 1
}
