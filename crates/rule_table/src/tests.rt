//! First and last rows, near misses, and sets.

use crate::{CallName, Cap, CapSet, FaultKind, FileKind, calls, caps, every_cap, faults, types};
use std::test::Fail;

#[test]
fn rows(rt: HostRuntime) -> Result<(), Fail> {
    let table = caps();
    for (name, cap) in [
        ("listKeys", Some(Cap::ListKeys)),
        ("bypassGovernance", Some(Cap::BypassGovernance)),
        ("listkeys", None),
        ("", None),
    ] {
        assert_eq!(rt; table.find(name.as_bytes()), cap);
    }
    assert_eq!(rt; table.name(Cap::ShareFiles), b"shareFiles".as_slice());
    for (name, call) in [
        ("b2_authorize_account", Some(CallName::AuthorizeAccount)),
        ("b2_upload_part", Some(CallName::UploadPart)),
        ("b2_copy_part", Some(CallName::CopyPart)),
        ("b2_copy_parts", None),
    ] {
        assert_eq!(rt; calls().find(name.as_bytes()), call);
    }
    assert_eq!(rt; calls().names().len(), 29);
    for (name, fault) in [
        ("BadHead", Some(FaultKind::BadHead)),
        ("P14", Some(FaultKind::P14)),
        ("LongCopy", Some(FaultKind::LongCopy)),
        ("P15", None),
    ] {
        assert_eq!(rt; faults().find(name.as_bytes()), fault);
    }
    assert_eq!(rt; faults().names().len(), 50);
    for (name, kind) in [("htm", FileKind::Htm), ("html", FileKind::Html)] {
        assert_eq!(rt; types().find(name.as_bytes()), Some(kind));
    }
    Ok(())
}

#[test]
fn sets(rt: HostRuntime) -> Result<(), Fail> {
    let none = CapSet::none();
    let one = none.with(Cap::ListFiles);
    let two = one.with(Cap::ReadFiles);
    assert!(rt; one.has(Cap::ListFiles));
    assert!(rt; !one.has(Cap::ReadFiles));
    assert!(rt; none.subset(&one) && one.subset(&two));
    assert!(rt; !two.subset(&one));
    assert!(rt; !none.with(Cap::BypassGovernance).subset(&two));
    assert_eq!(rt; one.with(Cap::ListFiles), one);
    Ok(())
}

#[test]
fn full_set(rt: HostRuntime) -> Result<(), Fail> {
    let mut set = CapSet::none();
    for cap in every_cap() {
        assert!(rt; CapSet::all().has(cap));
        set = set.with(cap);
    }
    assert_eq!(rt; set, CapSet::all());
    Ok(())
}
