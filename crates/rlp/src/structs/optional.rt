//! Last fields of a struct that may be missing.

ghost use Rattle.rlp_reading.specs.Form.{one_field, optional_fields};
ghost use Rattle.rlp_reading.proofs.FieldLaws.{one_possible, optional_possible};

use crate::rlpin::Fields;
use crate::structs::DecodeFields;
use crate::traits::Decodable;
use rlp_reading::error::DecoderError;
use std::alloc::Global;

/// A last field that may be missing.
#[derive(Drop)]
pub struct OptionalField<T>(pub Option<T>);

impl<T: Decodable> DecodeFields for OptionalField<T> {
    ghost reading = { optional_fields (λ x. x.0) (one_field T.reading) };

    fn accepts(len: usize) -> bool {
        len <= 1
    }

    fn decode_fields(
        alloc: Global,
        fields: &mut Fields<'_>,
    ) -> Result<OptionalField<T>, DecoderError> {
        let Some(item) = fields.next() else {
            return Ok(OptionalField(None));
        };
        let value = T::decode(alloc, &item)?;
        Ok(OptionalField(Some(value)))
    }

    ghost possible = { optional_possible (λ x. x.0) (one_field T.reading)
        (one_possible T.reading) };
}

/// Fields that are missing together, read from the last items of a list.
#[derive(Drop)]
pub struct OptionalGroup<S>(pub Option<S>);

impl<S: DecodeFields> DecodeFields for OptionalGroup<S> {
    ghost reading = { optional_fields (λ x. x.0) S.reading };

    fn accepts(len: usize) -> bool {
        len == 0 || S::accepts(len)
    }

    fn decode_fields(
        alloc: Global,
        fields: &mut Fields<'_>,
    ) -> Result<OptionalGroup<S>, DecoderError> {
        if fields.is_empty() {
            return Ok(OptionalGroup(None));
        }
        let values = S::decode_fields(alloc, fields)?;
        Ok(OptionalGroup(Some(values)))
    }

    ghost possible = { optional_possible (λ x. x.0) S.reading S.possible };
}
