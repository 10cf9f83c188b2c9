//! Laws over the definitions, as public functions. Each contract is the law, and a body that calls
//! the function may use it. Most of these functions do nothing. A function that returns a `Result`
//! makes a call and returns the result of the call, which the law is about.

mod described;
mod own_faults;
mod reading;
mod round_trip;
mod strict;
mod uints;
mod views;

pub use described::{finished_buffers_tell_items, stream_joins_what_is_described};
pub use own_faults::{
    fields_have_own_faults, holders_have_own_faults, reading_needs_no_memory,
    scalars_have_own_faults,
};
pub use reading::{
    arrays_are_read, bool_is_read, bytes_are_read, encodings_are_raw_items, field_is_read,
    number_is_read, one_reading, option_is_read, option_of_bytes_is_read, option_of_option_is_read,
    options_are_read, raw_item_is_read, raw_items_are_shallow, string_is_read, struct_is_read,
    text_is_read,
};
pub use rlp_reading::laws::{
    cuts_begin_one_another, digits_are_canonical, encoding_has_its_depth,
    encoding_in_front_is_unique, encoding_is_framed, encoding_is_prefix_free, frame_is_of_framed,
    framing_is_read, header_is_read, headers_are_prefix_free, join_is_injective,
    join_splits_into_encodings, list_gives_its_items, list_is_header_and_items,
    parts_of_sized_are_sized, rest_is_not_framed, split_goes_by_frames, split_is_longest,
    text_and_depth_go_by_items, what_follows_makes_no_difference,
};
pub use rlp_write::laws::{
    bytes_go_to_the_end, closed_size_goes_by_length, closing_keeps_what_is_closed,
    constants_are_encodings, finished_streams_gain_encodings,
    finished_streams_have_their_closed_size, growth_is_an_order, growth_of_moves,
    open_lists_await_items, unbounded_lists_are_finalized_in_turn,
};
pub use round_trip::{
    encoding_is_decoded, encoding_is_read_back, list_is_decoded, list_is_read_back,
    scalar_is_decoded, scalar_is_read,
};
pub use strict::{
    lenient_views_ignore_what_follows, strict_fault_is_read, strict_option_is_read,
    strict_values_are_read, whole_encoding_is_read,
};
pub use uints::{equal_numbers_are_equal_uints, uints_compare_as_numbers};
pub use views::{
    items_by_number_are_in_order, iteration_reads_few_headers, joined_items_are_split_off,
    view_of_list_has_its_items,
};
