//! Rows of items and values.

/// Rows of items and values, whose answers were worked out by hand. No call takes memory.
pub(crate) const ROWS: &str = "
    items: The framed items up to the first that isn't framed, and the fault behind them.
    c983636174c20102c103 | Ok(3) Ok(83636174) 1 Ok(c20102) 5 Ok(c103) 8 Err(RlpIsTooShort)
    c88363617483646f67 | Ok(2) Ok(83636174) 1 Ok(83646f67) 5 Err(RlpIsTooShort)
    c4c2010203 | Ok(2) Ok(c20102) 1 Ok(03) 4 Err(RlpIsTooShort)
    c10102 | Ok(1) Ok(01) 1 Err(RlpIsTooShort)
    c20582 | Ok(1) Ok(05) 1 Err(RlpIsTooShort)
    c3058200 | Ok(1) Ok(05) 1 Err(RlpIsTooShort)
    c305b800 | Ok(1) Ok(05) 1 Err(RlpDataLenWithZeroPrefix)
    c88363617483646f | Ok(0) Err(RlpIsTooShort)
    ffffffffffffffffff | Ok(0) Err(RlpIsTooShort)
    c5 | Ok(0) Err(RlpIsTooShort)
    none | Err(RlpExpectedToBeList) Err(RlpExpectedToBeList)
    05 | Err(RlpExpectedToBeList) Err(RlpExpectedToBeList)
    strict items: A strict view has items only if it is exactly one list of framed items, and they
    are strict.
    c101 | Ok(1) Ok(01) 1 Err(RlpIsTooShort)
    c28105 | Ok(1) Ok(8105) 1 Err(RlpIsTooShort)
    c10102 | Err(RlpIsTooBig) Err(RlpIsTooBig)
    c3058200 | Err(RlpIsTooShort) Err(RlpIsTooShort)
    c305b800 | Err(RlpDataLenWithZeroPrefix) Err(RlpDataLenWithZeroPrefix)
    payload: A value may be followed by other bytes, and needn't be canonical.
    c88363617483646f67 | 1 8 8363617483646f67 of Ok(c88363617483646f67)
    c3830102 | 1 3 830102 of Ok(c3830102)
    0506 | 0 1 05 of Ok(0506)
    8105 | 1 1 05 of Ok(8105)
    strict payload: Bytes after the value of a strict view are too much.
    8105 | 1 1 05 of Ok(8105)
    810500 | Some(RlpIsTooBig) Some(RlpIsTooBig)
    taken: An item stays after the view that it is taken from.
    c88363617483646f67 | Ok(83636174)
";
