//! Calls each law of `rlp::laws` once, to show that it can be called. What a law says is proved.

use rlp::{DecoderError, Rlp, Uint, laws};

/// The encoding of the list of 1 and 2.
const LIST: [u8; 3] = [0xc2, 0x01, 0x02];

/// The fields of a struct of two numbers.
type TwoNumbers = (u64, (u64, ()));

#[test]
fn laws_of_the_format() {
    laws::digits_are_canonical();
    laws::headers_are_prefix_free();
    laws::list_is_header_and_items();
    laws::header_is_read(&LIST);
    laws::framing_is_read(&LIST);
    laws::frame_is_of_framed(&LIST);
    laws::encoding_is_prefix_free();
    laws::encoding_in_front_is_unique(&LIST);
    laws::join_is_injective();
    laws::encoding_is_framed(&LIST);
    laws::cuts_begin_one_another(&LIST);
    laws::split_is_longest(&LIST);
    laws::split_goes_by_frames(&LIST);
    laws::parts_of_sized_are_sized();
    laws::join_splits_into_encodings();
    laws::list_gives_its_items(&LIST);
    laws::rest_is_not_framed(&LIST);
    laws::text_and_depth_go_by_items(&LIST);
    laws::what_follows_makes_no_difference();
    laws::encoding_has_its_depth(&LIST);
}

#[test]
fn laws_of_views_and_values() {
    laws::items_by_number_are_in_order(&Rlp::new(&LIST));
    laws::items_by_number_are_in_order(&Rlp::new_strict(&LIST));
    laws::iteration_reads_few_headers();
    laws::view_of_list_has_its_items(&Rlp::new(&LIST));
    laws::view_of_list_has_its_items(&Rlp::new_strict(&LIST));
    laws::string_is_read(&LIST);
    laws::one_reading::<u64>(&Rlp::new(&LIST));
    laws::number_is_read(&LIST);
    laws::bytes_are_read(&LIST);
    laws::arrays_are_read(&LIST);
    laws::raw_item_is_read(&Rlp::new(&LIST));
    laws::text_is_read(&LIST);
    laws::bool_is_read(&LIST);
    laws::option_is_read::<u64>(&LIST);
    laws::option_of_bytes_is_read(&LIST);
    laws::options_are_read(&LIST);
    laws::option_of_option_is_read::<u64>(&LIST);
    laws::strict_fault_is_read(&LIST);
    laws::lenient_views_ignore_what_follows(&LIST);
    laws::strict_values_are_read(&LIST);
    laws::strict_option_is_read::<u64>(&LIST);
    laws::whole_encoding_is_read::<u64>(&LIST);
    laws::encoding_is_read_back::<u64>(&LIST);
    laws::scalar_is_read::<u64>(&LIST);
    laws::list_is_read_back::<u64>(&LIST);
    laws::encodings_are_raw_items(&LIST);
    laws::raw_items_are_shallow();
    laws::equal_numbers_are_equal_uints(&Uint { bytes: [0, 1] }, &Uint { bytes: [0, 1] });
    laws::uints_compare_as_numbers(&Uint { bytes: [0, 1] }, &Uint { bytes: [1, 0] });
    laws::field_is_read::<u64>(&LIST);
    laws::struct_is_read::<TwoNumbers>(&Rlp::new(&LIST));
    laws::scalars_have_own_faults();
    laws::holders_have_own_faults::<u64>();
    laws::fields_have_own_faults::<u64, TwoNumbers, ()>();
}

#[test]
fn laws_of_streams() {
    laws::constants_are_encodings();
    laws::closing_keeps_what_is_closed();
    laws::closed_size_goes_by_length();
    laws::bytes_go_to_the_end();
    laws::finished_streams_gain_encodings();
    laws::finished_streams_have_their_closed_size();
    laws::growth_is_an_order();
    laws::growth_of_moves();
    laws::open_lists_await_items();
    laws::unbounded_lists_are_finalized_in_turn();
    laws::stream_joins_what_is_described();
    laws::finished_buffers_tell_items(&LIST, &LIST);
}

#[test]
fn laws_that_read(rt: HostRuntime) -> Result<(), DecoderError> {
    let alloc = rt.alloc();
    let (item, rest) = laws::joined_items_are_split_off(&LIST[1..])?;
    assert!(rt; item.as_raw() == [0x01].as_slice() && rest == [0x02].as_slice());
    assert!(rt; laws::list_is_decoded::<u64>(alloc, &LIST)?.as_slice() == [1, 2].as_slice());
    assert!(rt; laws::encoding_is_decoded::<u64>(alloc, &LIST[1..])? == 1);
    assert!(rt; laws::scalar_is_decoded::<u64>(alloc, &LIST[1..])? == 1);
    assert!(rt; laws::reading_needs_no_memory::<u64>(alloc, &Rlp::new(&LIST[1..]))? == 1);
    Ok(())
}
