//! Names of kinds, and a fault in JSON.

use rlp_show::{Fault, Kind, json_of};
use std::alloc::{AllocError, Global};
use std::test::Fail;

#[test]
fn kinds_have_names(rt: HostRuntime) {
    assert!(rt;
        matches!(Kind::named("header"), Some(Kind::Header))
            && matches!(Kind::named("transaction"), Some(Kind::Transaction))
            && matches!(Kind::named("block"), Some(Kind::Block))
            && matches!(Kind::named("node"), Some(Kind::Node))
            && matches!(Kind::named("record"), Some(Kind::NodeRecord))
    );
    assert!(rt; Kind::named("Header").is_none() && Kind::named("").is_none());
}

/// Returns whether a fault is this JSON.
fn is_json(
    alloc: Global,
    field: Option<u64>,
    name: &str,
    fault: &str,
    want: &str,
) -> Result<bool, AllocError> {
    let text = json_of(alloc, &Fault { field, name, fault })?;
    Ok(text.as_str() == want)
}

#[test]
fn faults_are_json(rt: HostRuntime) -> Result<(), Fail> {
    let whole = r#"{"error":{"name":"header","fault":"RlpIncorrectListLen"}}"#;
    assert!(rt; is_json(rt.alloc(), None, "header", "RlpIncorrectListLen", whole)?);
    let of_field = r#"{"error":{"field":9,"name":"gasLimit","fault":"RlpIsTooBig"}}"#;
    assert!(rt; is_json(rt.alloc(), Some(9), "gasLimit", "RlpIsTooBig", of_field)?);
    Ok(())
}
