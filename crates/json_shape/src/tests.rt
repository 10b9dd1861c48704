//! Bodies and their fields.

ghost use Rattle.std.specs.Prelude.{◌≤◌, IfOk};
ghost use Rattle.serde_json.specs.Data.{depth};
ghost use Rattle.serde_json.specs.View.{view};
ghost use Rattle.json_shape.specs.Object.{IsObject};

use crate::{
    FieldFault, MOST_DEPTH, ShapeFault, flag_field, list_field, number_field, object, object_field,
    present, read_again, render, text_field,
};
use b2_base::Or;
use serde_json::Value;
use std::alloc::Global;
use std::test::Fail;

fn read(alloc: Global, text: &str) -> Result<Value, Fail>
    ensures { IfOk result (λ v. IsObject (view v) × (depth (view v) ≤ MOST_DEPTH)) }
{
    Ok(object(alloc, text.as_bytes()).ok().ok_or("an object")?)
}

fn is_missing<T: Drop>(found: Result<T, Or<FieldFault>>) -> bool {
    match found {
        Err(Or::Fault(FieldFault::Missing(key))) => key.get() == "a",
        _ => false,
    }
}

fn is_wrong<T: Drop>(found: Result<T, Or<FieldFault>>) -> bool {
    match found {
        Err(Or::Fault(FieldFault::Wrong(key))) => key.get() == "a",
        _ => false,
    }
}

#[test]
fn shapes(rt: HostRuntime) -> Result<(), Fail> {
    let alloc = rt.alloc();
    let faults: [(&[u8], ShapeFault); 8] = [
        (b"", ShapeFault::NotJson),
        (b"{\"a\":1,}", ShapeFault::NotJson),
        (b"{\"a\":1e400}", ShapeFault::NotJson),
        (b"{\"a\":\"\xff\"}", ShapeFault::NotJson),
        (b"{} {}", ShapeFault::NotJson),
        (b"[]", ShapeFault::NotObject),
        (b"null", ShapeFault::NotObject),
        (b"7", ShapeFault::NotObject),
    ];
    for (bytes, fault) in faults {
        let Err(Or::Fault(found)) = object(alloc, bytes) else {
            return Err(Fail::from("taken"));
        };
        assert_eq!(rt; found, fault);
    }
    for (text, again) in [
        ("{\"b\":1, \"a\":2}", "{\"a\":2,\"b\":1}"),
        (" {\"a\":1,\"a\":[true,null]}\n", "{\"a\":[true,null]}"),
        ("{\"a\":\"\\u0041\\n/\"}", "{\"a\":\"A\\n/\"}"),
    ] {
        let value = read(alloc, text)?;
        let written = render(alloc, &value).ok().ok_or("memory")?;
        assert_eq!(rt; written.get(), again);
        let value = read_again(alloc, &value).ok().ok_or("memory")?;
        let written = render(alloc, &value).ok().ok_or("memory")?;
        assert_eq!(rt; written.get(), again);
    }
    Ok(())
}

#[test]
fn kinds(rt: HostRuntime) -> Result<(), Fail> {
    let alloc = rt.alloc();
    let one = read(alloc, "{\"a\":1}")?;
    assert!(rt; is_wrong(text_field(alloc, &one, "a")));
    assert!(rt; is_wrong(number_field(alloc, &one, "a", 2, 3)));
    assert!(rt; is_wrong(list_field(alloc, &one, "a")));
    assert!(rt; is_wrong(flag_field(alloc, &one, "a")));
    assert!(rt; is_wrong(object_field(alloc, &one, "a")));
    for text in ["{}", "{\"a\":null}", "{\"A\":1}"] {
        let none = read(alloc, text)?;
        assert!(rt; !present(&none, "a"));
        assert!(rt; is_missing(text_field(alloc, &none, "a")));
        assert!(rt; is_missing(number_field(alloc, &none, "a", 0, 9)));
        assert!(rt; is_missing(list_field(alloc, &none, "a")));
        assert!(rt; is_missing(flag_field(alloc, &none, "a")));
        assert!(rt; is_missing(object_field(alloc, &none, "a")));
    }
    for text in [
        "{\"a\":1.0}",
        "{\"a\":-0}",
        "{\"a\":-1}",
        "{\"a\":18446744073709551616}",
    ] {
        let other = read(alloc, text)?;
        assert!(rt; present(&other, "a"));
        assert!(rt; is_wrong(number_field(alloc, &other, "a", 0, u64::MAX)));
    }
    Ok(())
}

#[test]
fn values(rt: HostRuntime) -> Result<(), Fail> {
    let alloc = rt.alloc();
    let text =
        "{\"f\":false,\"l\":[1,\"b\"],\"n\":18446744073709551615,\"o\":{\"a\":1},\"t\":\"b\"}";
    let value = read(alloc, text)?;
    let found = text_field(alloc, &value, "t").ok().ok_or("text")?;
    assert_eq!(rt; found.get(), "b");
    assert_eq!(rt;
        number_field(alloc, &value, "n", 0, u64::MAX).ok(),
        Some(u64::MAX)
    );
    assert_eq!(rt; flag_field(alloc, &value, "f").ok(), Some(false));
    assert_eq!(rt; list_field(alloc, &value, "l").ok().ok_or("list")?.len(), 2);
    let inner = object_field(alloc, &value, "o").ok().ok_or("object")?;
    assert_eq!(rt; number_field(alloc, &inner, "a", 1, 1).ok(), Some(1));
    Ok(())
}
