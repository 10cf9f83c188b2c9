//! Fields that are a fixed number of items: groups of them at the end of a struct, one group after
//! another in the same list, and such fields before other fields.

ghost use Rattle.std.specs.{Prelude.{◌≡◌, ◌≤◌, ◌^◌, MatchOption}, Vec.vec_items};
ghost use Rattle.rlp_reading.specs.{Form.{group_before, group_fields, one_field, part_fields}, Laws.TakeWidth};
ghost use Rattle.rlp_reading.proofs.{GroupLaws.groups_possible, FieldLaws.{end_wide, group_possible, group_wide, one_wide, part_possible, part_wide}};

use crate::rlpin::Fields;
use crate::structs::DecodeFields;
use crate::traits::Decodable;
use rlp_reading::error::DecoderError;
use std::alloc::Global;

/// Fields that are a fixed number of items, such as a key and a value.
pub trait FixedFields: DecodeFields {
    /// Returns the number of items, or `None` if it is 2^64 or more.
    fn width() -> Option<usize>
        ensures { MatchOption result (2 ^ 64 ≤ Self.reading.width)
            (λ n. n ≡ Self.reading.width) };

    /// The fields take this number of items.
    ghost takes: { TakeWidth Self.reading };
}

/// The groups at the end of a struct.
#[derive(Drop)]
pub struct Groups<G>(pub Vec<G>);

impl FixedFields for () {
    fn width() -> Option<usize> {
        Some(0)
    }

    ghost takes = { end_wide };
}

impl<T: Decodable, Q: FixedFields> FixedFields for (T, Q) {
    fn width() -> Option<usize> {
        Q::width()?.checked_add(1)
    }

    ghost takes = { group_wide (λ x. x.0) (one_field T.reading) (part_fields (λ x. x.1) Q.reading)
        (one_wide T.reading) (part_wide (λ x. x.1) Q.reading Q.takes) };
}

impl<G: FixedFields + Drop> DecodeFields for Groups<G> {
    ghost reading = { group_fields (λ x. vec_items x.0) G.reading };

    #[tactic(auto, using(rlp_reading::proofs::GroupLaws::whole_groups))]
    fn accepts(len: usize) -> bool {
        match G::width() {
            Some(width) => {
                if width == 0 {
                    return len == 0;
                }
                len % width == 0
            }
            None => len == 0,
        }
    }

    #[tactic(auto, using(rlp_reading::proofs::GroupLaws::take_groups))]
    fn decode_fields(alloc: Global, fields: &mut Fields<'_>) -> Result<Groups<G>, DecoderError> {
        let mut groups = Vec::new(alloc);
        if let Some(0) = G::width() {
            return Ok(Groups(groups));
        }
        while !fields.has_ended() {
            let before = fields.clone();
            match G::decode_fields(alloc, fields) {
                Ok(group) => groups.push(group)?,
                Err(fault) => {
                    if !before.is_empty() {
                        return Err(fault);
                    }
                    *fields = before;
                    return Ok(Groups(groups));
                }
            }
        }
        Ok(Groups(groups))
    }

    ghost possible = { groups_possible (λ x. vec_items x.0) G.reading G.takes };
}

/// Fields that are a fixed number of items, and the fields after them.
#[derive(Drop)]
pub struct Joined<P, Q>(pub P, pub Q);

impl<P: FixedFields + Drop, Q: DecodeFields> DecodeFields for Joined<P, Q> {
    ghost reading = { group_before (λ x. x.0) P.reading (part_fields (λ x. x.1) Q.reading) };

    #[tactic(auto, using(rlp_reading::proofs::StructLaws::too_wide))]
    fn accepts(len: usize) -> bool {
        match P::width() {
            Some(width) => width <= len && Q::accepts(len - width),
            None => false,
        }
    }

    fn decode_fields(alloc: Global, fields: &mut Fields<'_>) -> Result<Joined<P, Q>, DecoderError> {
        match P::decode_fields(alloc, fields) {
            Ok(first) => match Q::decode_fields(alloc, fields) {
                Ok(others) => Ok(Joined(first, others)),
                Err(fault) => Err(fault),
            },
            Err(fault) => Err(fault),
        }
    }

    ghost possible = { group_possible (λ x. x.0) P.reading (part_fields (λ x. x.1) Q.reading)
        P.takes (part_possible (λ x. x.1) Q.reading Q.possible) };
}
