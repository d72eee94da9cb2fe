//! What no document and no command line shows.

use crate::told::{profile_of, told};
use cap_sets::{Caps, File, execve};
use no_memory::NoMemory;
use profile_text::{DocFault, Profile, fault_text, read};
use std::test::Fail;

#[test]
fn a_bit_above_40_is_no_set(rt: HostRuntime) {
    for bits in [1 << 41, (1 << 42) - 1, 1 << 63, u64::MAX] {
        assert!(rt; Caps::from_bits(bits).is_none(), "at {bits}");
    }
}

#[test]
fn a_union_has_the_members_of_both(rt: HostRuntime) -> Result<(), Fail> {
    let admin = Caps::from_bits(0x20_0000).ok_or("a bit above 40")?;
    let chown = Caps::from_bits(1).ok_or("a bit above 40")?;
    let both = admin.union(chown);
    let none = Caps::empty();
    assert_eq!(rt; both.bits(), 0x20_0001);
    let contained = [
        both.contains(admin) && both.contains(chown) && both.contains(both),
        admin.contains(none),
        admin.contains(both),
        admin.contains(chown),
        none.contains(admin),
    ];
    assert_eq!(rt; contained, [true, true, false, false, false]);
    Ok(())
}

// No command line gives a file sets that are empty without its effective bit.
#[test]
fn a_file_with_empty_sets_clears_what_is_ambient(rt: HostRuntime) -> Result<(), Fail> {
    let before =
        r#"{"capabilities":{"effective":["CAP_NET_RAW"],"permitted":["CAP_NET_BIND_SERVICE","CAP_NET_RAW"],"inheritable":["CAP_NET_BIND_SERVICE"],"bounding":["CAP_NET_RAW"],"ambient":["CAP_NET_BIND_SERVICE"]}}"#;
    let after =
        r#"{"capabilities":{"inheritable":["CAP_NET_BIND_SERVICE"],"bounding":["CAP_NET_RAW"]}}"#;
    let file = File::WithCaps {
        permitted: Caps::empty(),
        inheritable: Caps::empty(),
        effective: false,
    };
    let before = profile_of(rt.alloc(), before)?.caps;
    let after = profile_of(rt.alloc(), after)?.caps;
    let Ok(found) = execve(&before, file) else {
        return Err(Fail::from("EPERM"));
    };
    assert!(rt; found.permitted == after.permitted && found.effective == after.effective);
    assert!(rt; found.inheritable == after.inheritable && found.bounding == after.bounding);
    assert!(rt; found.ambient == after.ambient);
    Ok(())
}

#[test]
fn texts_that_no_document_brings_about(rt: HostRuntime) -> Result<(), Fail> {
    let alloc = rt.alloc();
    assert_eq!(rt; told(alloc, b"{\"\xff\":1}")?.as_str(), "not-json");
    assert_eq!(rt;
        fault_text(alloc, &DocFault::NoMemory(NoMemory::told()))?.as_str(),
        "memory"
    );
    Ok(())
}

// Whether a profile with CAP_CHOWN, CAP_KILL and a filter is read, or out of memory is reported. That there is none with ample memory
// `documents_are_read_with_ample_memory` shows.
fn is_read_or_memory(told: &Result<Profile, DocFault>) -> bool {
    match told {
        Ok(profile) => profile.caps.permitted.bits() == 0b10_0001 && profile.filter.is_some(),
        Err(fault) => matches!(fault, DocFault::NoMemory(_)),
    }
}

// Documents with these capabilities and a filter.
const DOCUMENTS: [&str; 2] = [
    r#"{"seccomp":{"defaultAction":"SCMP_ACT_KILL","syscalls":[{"names":["clone3"],"action":"SCMP_ACT_ERRNO","args":null}]},"capabilities":{"effective":["CAP_KILL","CAP_CHOWN","CAP_KILL"],"permitted":["CAP_CHOWN","CAP_KILL"]}}"#,
    r#"{"capabilities":{"effective":["CAP_KILL"],"permitted":["CAP_CHOWN","CAP_KILL"]},"seccomp":{"architectures":["SCMP_ARCH_X86"],"defaultAction":"SCMP_ACT_LOG",
        "flags":["SECCOMP_FILTER_FLAG_LOG"],"syscalls":[{"action":"SCMP_ACT_ALLOW","args":[{"index":0,"op":"SCMP_CMP_EQ","value":1}],"names":["read"]}]}}"#,
];

#[test]
fn documents_are_read_with_ample_memory(rt: HostRuntime) -> Result<(), Fail> {
    for document in DOCUMENTS {
        let profile = profile_of(rt.alloc(), document)?;
        assert_eq!(rt; profile.caps.permitted.bits(), 0b10_0001);
    }
    Ok(())
}

// Run with each allocation refused in turn, as `rt try --test --fail-alloc N` does, it shows that a
// refused allocation is reported as out of memory and as nothing else.
#[test]
fn no_fault_but_memory_is_told_of_a_document(rt: HostRuntime) {
    for document in DOCUMENTS {
        let told = read(rt.alloc(), document.as_bytes());
        assert!(rt; is_read_or_memory(&told));
    }
}
