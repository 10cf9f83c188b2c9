//! Tests of values and of fields that keep nothing of what they read, and so don't allocate.

ghost use Rattle.std.specs.Prelude.{ℕ, ◌≡◌, ◌≤◌, ◌^◌, ◌⊎◌, ⊤, Err, IfErr, IsOkAnd, IsTrue, List, MatchOption, Ok, OnOk, Option, false};
ghost use Rattle.rlp_reading.specs.declared.error.DecoderError.TheVariants.{OutOfMemory};
ghost use Rattle.rlp_reading.specs.Form.{FieldsReading, Reading, fault_of, group_before, held_reading, list_reading, no_fields, one_field, optional_fields, part_fields, struct_reading, take_item};
ghost use Rattle.rlp_reading.specs.Laws.{TakePossible, TakeWidth};
ghost use Rattle.rlp.specs.Codec.{byte_string};
ghost use Rattle.rlp_c.specs.{Fields.without_value, Forgotten.{forgotten, forgotten_possible}};
ghost use Rattle.rlp_reading.proofs.FieldLaws.{end_possible, end_wide, group_possible, group_wide, one_wide, optional_possible, part_possible, part_wide};

use rlp::{Decodable, DecodeFields, DecoderError, Fields, OptionalGroup, Rlp, decode_struct};
use std::alloc::Global;
use std::marker::PhantomData;

/// A test of values.
pub trait Test {
    /// The type of the values.
    ghost Value: { Type 0 };

    /// How the values are read.
    ghost tested: { Reading Value };

    /// Tests whether the view gives a value. Fails with the fault that the view gives, or with
    /// `OutOfMemory` if the test allocates and memory is refused.
    fn test(alloc: Global, rlp: &Rlp<'_>) -> Result<(), DecoderError>
        ensures value { OnOk result (without_value (tested.read rlp.now).result ≡ Ok tt) }
        ensures fault { IfErr result (λ e.
            (without_value (tested.read rlp.now).result ≡ Err (fault_of e))
            ⊎ ((e ≡ OutOfMemory) × IsTrue tested.takes_memory)) };
}

/// A test of the fields of a struct.
pub trait TestFields {
    /// The type of the fields.
    ghost Value: { Type 0 };

    /// How the fields are read.
    ghost tested: { FieldsReading Value };

    /// Returns whether the fields may be `len` items.
    fn accepts(len: usize) -> bool
        ensures { result ≡ tested.accepts len };

    /// Tests whether the next items are the fields. If a field fails, the items after its item are
    /// left. The reader goes on over the same list.
    fn test_fields(alloc: Global, fields: &mut Fields<'_>) -> Result<(), DecoderError>
        ensures value { OnOk result (IsOkAnd (tested.read fields.old.views).result
            (λ t. t.1 ≡ fields.new.views)) }
        ensures fault { IfErr result (λ e. ((tested.read fields.old.views).result
            ≡ Err (fields.new.views, fault_of e))
            ⊎ ((e ≡ OutOfMemory) × IsTrue tested.takes_memory)) }
        ensures after { fields.new.after ≡ fields.old.after };

    /// If the fields are all of the items, [`accepts`](TestFields::accepts) returns `true` for the
    /// number of items.
    ghost possible: { TakePossible Self.tested };
}

/// A test of fields that are a fixed number of items.
pub trait TestFixed: TestFields {
    /// Returns the number of items, or `None` if it is 2^64 or more.
    fn width() -> Option<usize>
        ensures { MatchOption result (2 ^ 64 ≤ Self.tested.width) (λ n. n ≡ Self.tested.width) };

    /// The fields take this number of items.
    ghost takes: { TakeWidth Self.tested };
}

/// A value that is read and not kept.
impl<T: Decodable> Test for T {
    ghost Value = { T };

    ghost tested = { T.reading };

    fn test(alloc: Global, rlp: &Rlp<'_>) -> Result<(), DecoderError> {
        T::decode(alloc, rlp)?;
        Ok(())
    }
}

/// No more fields.
impl TestFields for () {
    ghost Value = { ⊤ };

    ghost tested = { no_fields };

    fn accepts(len: usize) -> bool {
        len == 0
    }

    fn test_fields(_alloc: Global, _fields: &mut Fields<'_>) -> Result<(), DecoderError> {
        Ok(())
    }

    ghost possible = { end_possible };
}

impl TestFixed for () {
    fn width() -> Option<usize> {
        Some(0)
    }

    ghost takes = { end_wide };
}

/// Last fields that are read and not kept.
impl<S: DecodeFields + Drop> TestFields for OptionalGroup<S> {
    ghost Value = { Option S };

    ghost tested = { optional_fields (λ o. o) S.reading };

    fn accepts(len: usize) -> bool {
        <OptionalGroup<S> as DecodeFields>::accepts(len)
    }

    fn test_fields(alloc: Global, fields: &mut Fields<'_>) -> Result<(), DecoderError> {
        OptionalGroup::<S>::decode_fields(alloc, fields)?;
        Ok(())
    }

    ghost possible = { optional_possible (λ o. o) S.reading S.possible };
}

/// Any string.
pub struct AnyString;

impl Test for AnyString {
    ghost Value = { List ℕ };

    ghost tested = { held_reading false (λ d. d) (byte_string (λ (d : List ℕ). d)).reading };

    fn test(_alloc: Global, rlp: &Rlp<'_>) -> Result<(), DecoderError> {
        rlp.decoder().string()?;
        Ok(())
    }
}

/// A list of any number of values.
pub struct EachOf<T>(PhantomData<T>);

impl<T: Test> Test for EachOf<T> {
    ghost Value = { List T.Value };

    ghost tested = { held_reading T.tested.takes_memory (λ xs. xs) (list_reading (λ xs. xs) T.tested) };

    fn test(alloc: Global, rlp: &Rlp<'_>) -> Result<(), DecoderError> {
        let mut items = Fields::of_list(rlp)?;
        while let Some(item) = items.next() {
            T::test(alloc, &item)?;
        }
        Ok(())
    }
}

/// A list of these fields.
pub struct StructOf<F>(PhantomData<F>);

impl<F: TestFields> Test for StructOf<F> {
    ghost Value = { F.Value };

    ghost tested = { struct_reading F.tested };

    #[tactic(auto, using(crate::proofs::Testing::struct_forgotten))]
    fn test(alloc: Global, rlp: &Rlp<'_>) -> Result<(), DecoderError> {
        match decode_struct::<Unkept<F>>(alloc, rlp) {
            Ok(_) => Ok(()),
            Err(fault) => Err(fault.fault),
        }
    }
}

/// The fields of a struct of which nothing is kept.
#[derive(Drop)]
pub struct Unkept<F>(PhantomData<F>);

impl<F: TestFields> DecodeFields for Unkept<F> {
    ghost reading = { forgotten F.tested };

    fn accepts(len: usize) -> bool {
        F::accepts(len)
    }

    fn decode_fields(alloc: Global, fields: &mut Fields<'_>) -> Result<Unkept<F>, DecoderError> {
        F::test_fields(alloc, fields)?;
        Ok(Unkept(PhantomData))
    }

    ghost possible = { forgotten_possible F.tested F.possible };
}

/// A field, and the fields after it.
pub struct Step<T, Q>(PhantomData<T>, PhantomData<Q>);

impl<T: Test, Q: TestFields> TestFields for Step<T, Q> {
    ghost Value = { T.Value × Q.Value };

    ghost tested = { group_before (λ s. s.0) (one_field T.tested) (part_fields (λ s. s.1) Q.tested) };

    fn accepts(len: usize) -> bool {
        0 < len && Q::accepts(len - 1)
    }

    fn test_fields(alloc: Global, fields: &mut Fields<'_>) -> Result<(), DecoderError> {
        take_field::<T>(alloc, fields)?;
        Q::test_fields(alloc, fields)
    }

    ghost possible = { group_possible (λ s. s.0) (one_field T.tested)
        (part_fields (λ s. s.1) Q.tested) (one_wide T.tested)
        (part_possible (λ s. s.1) Q.tested Q.possible) };
}

impl<T: Test, Q: TestFixed> TestFixed for Step<T, Q> {
    fn width() -> Option<usize> {
        match Q::width() {
            Some(others) => others.checked_add(1),
            None => None,
        }
    }

    ghost takes = { group_wide (λ s. s.0) (one_field T.tested) (part_fields (λ s. s.1) Q.tested)
        (one_wide T.tested) (part_wide (λ s. s.1) Q.tested Q.takes) };
}

/// Fields that are a fixed number of items, and the fields after them.
pub struct Joined<P, Q>(PhantomData<P>, PhantomData<Q>);

impl<P: TestFixed, Q: TestFields> TestFields for Joined<P, Q> {
    ghost Value = { P.Value × Q.Value };

    ghost tested = { group_before (λ s. s.0) P.tested (part_fields (λ s. s.1) Q.tested) };

    #[tactic(auto, using(rlp_reading::proofs::StructLaws::too_wide))]
    fn accepts(len: usize) -> bool {
        match P::width() {
            Some(width) => width <= len && Q::accepts(len - width),
            None => false,
        }
    }

    fn test_fields(alloc: Global, fields: &mut Fields<'_>) -> Result<(), DecoderError> {
        P::test_fields(alloc, fields)?;
        Q::test_fields(alloc, fields)
    }

    ghost possible = { group_possible (λ s. s.0) P.tested (part_fields (λ s. s.1) Q.tested) P.takes
        (part_possible (λ s. s.1) Q.tested Q.possible) };
}

/// Tests a field. It isn't inlined, so that the library stays small.
#[inline(never)]
fn take_field<T: Test>(alloc: Global, fields: &mut Fields<'_>) -> Result<(), DecoderError>
    ensures value { OnOk result (IsOkAnd (take_item T.tested.read fields.old.views).result
        (λ t. t.1 ≡ fields.new.views)) }
    ensures fault { IfErr result (λ e. ((take_item T.tested.read fields.old.views).result
        ≡ Err (fields.new.views, fault_of e))
        ⊎ ((e ≡ OutOfMemory) × IsTrue T.tested.takes_memory)) }
    ensures after { fields.new.after ≡ fields.old.after }
{
    let Some(item) = fields.next() else {
        return Err(DecoderError::RlpIncorrectListLen);
    };
    T::test(alloc, &item)
}
