//! That a profile is wider than another just where there are findings.

use crate::told::profile_of;
use profile_text::Profile;
use std::alloc::Global;
use std::process::Abort;
use std::test::Fail;
use widening::{findings, is_wider};

// Documents, each on the lines down to an empty one.
const DOCUMENTS: &str = r#"{"capabilities":{}}

{"capabilities":{},"seccomp":{"defaultAction":"SCMP_ACT_KILL_PROCESS"}}

{"capabilities":{},"seccomp":{"defaultAction":"SCMP_ACT_ERRNO","syscalls":[{"names":["personality"],
"action":"SCMP_ACT_ALLOW","args":[{"index":0,"op":"SCMP_CMP_LE","value":8}]}]}}

{"capabilities":{},"seccomp":{"defaultAction":"SCMP_ACT_ERRNO","syscalls":[{"names":["personality"],
"action":"SCMP_ACT_ALLOW","args":[{"index":0,"op":"SCMP_CMP_EQ","value":8}]}]}}

{"capabilities":{},"seccomp":{"defaultAction":"SCMP_ACT_ERRNO","syscalls":[{"names":["personality"],
"action":"SCMP_ACT_ALLOW","args":[{"index":0,"op":"SCMP_CMP_LE","value":9}]}]}}

{"capabilities":{},"seccomp":{"defaultAction":"SCMP_ACT_ERRNO","syscalls":[{"names":["fcntl"],
"action":"SCMP_ACT_ALLOW","args":[{"index":1,"op":"SCMP_CMP_LE","value":8}]}]}}

{"capabilities":{},"seccomp":{"defaultAction":"SCMP_ACT_ERRNO","syscalls":[{"names":["fcntl"],
"action":"SCMP_ACT_ALLOW","args":[{"index":0,"op":"SCMP_CMP_LE","value":8}]}]}}

{"capabilities":{},"seccomp":{"defaultAction":"SCMP_ACT_ERRNO","syscalls":[{"names":["personality"],
"action":"SCMP_ACT_ALLOW","args":[{"index":0,"op":"SCMP_CMP_EQ","value":5}]}]}}

{"capabilities":{},"seccomp":{"defaultAction":"SCMP_ACT_ERRNO","syscalls":[{"names":["personality"],
"action":"SCMP_ACT_ALLOW","args":[{"index":0,"op":"SCMP_CMP_LT","value":0}]}]}}

{"capabilities":{},"seccomp":{"defaultAction":"SCMP_ACT_ERRNO","syscalls":[{"names":["read","write"],
"action":"SCMP_ACT_ALLOW","args":[{"index":0,"op":"SCMP_CMP_LE","value":4}]},{"names":["write","close"],
"action":"SCMP_ACT_ALLOW","args":[{"index":0,"op":"SCMP_CMP_GE","value":100}]},{"names":["read"],
"action":"SCMP_ACT_ALLOW","args":[{"index":0,"op":"SCMP_CMP_EQ","value":50}]}]}}

{"capabilities":{},"seccomp":{"defaultAction":"SCMP_ACT_ERRNO","syscalls":[{"names":["read","write"],
"action":"SCMP_ACT_ALLOW","args":[{"index":0,"op":"SCMP_CMP_LE","value":4}]},{"names":["read","close"],
"action":"SCMP_ACT_ALLOW","args":[{"index":0,"op":"SCMP_CMP_EQ","value":50}]},{"names":["write"],
"action":"SCMP_ACT_ALLOW","args":[{"index":0,"op":"SCMP_CMP_GE","value":120}]},{"names":["open"],
"action":"SCMP_ACT_ALLOW","args":[{"index":0,"op":"SCMP_CMP_EQ","value":0}]}]}}

{"capabilities":{},"seccomp":{"defaultAction":"SCMP_ACT_ERRNO","syscalls":[{"names":["clone"],
"action":"SCMP_ACT_ALLOW","args":[{"index":0,"op":"SCMP_CMP_MASKED_EQ","value":2114060288,"valueTwo":0}]}]}}

{"capabilities":{},"seccomp":{"defaultAction":"SCMP_ACT_ERRNO","syscalls":[{"names":["clone"],
"action":"SCMP_ACT_ALLOW","args":[{"index":0,"op":"SCMP_CMP_EQ","value":17}]}]}}

{"capabilities":{},"seccomp":{"defaultAction":"SCMP_ACT_ERRNO","syscalls":[{"names":["clone"],
"action":"SCMP_ACT_ALLOW"}]}}

{"capabilities":{},"seccomp":{"defaultAction":"SCMP_ACT_ERRNO"}}

{"capabilities":{},"seccomp":{"defaultAction":"SCMP_ACT_ERRNO","syscalls":[{"names":["ioctl"],
"action":"SCMP_ACT_ALLOW","args":[{"index":0,"op":"SCMP_CMP_LE","value":4}]},{"names":["ioctl"],
"action":"SCMP_ACT_ALLOW","args":[{"index":0,"op":"SCMP_CMP_GE","value":5}]}]}}

{"capabilities":{},"seccomp":{"defaultAction":"SCMP_ACT_ERRNO","syscalls":[{"names":["ioctl"],
"action":"SCMP_ACT_ALLOW"}]}}

{"capabilities":{},"seccomp":{"defaultAction":"SCMP_ACT_ALLOW","syscalls":[{"names":["mount"],
"action":"SCMP_ACT_ERRNO"}]}}

{"capabilities":{},"seccomp":{"defaultAction":"SCMP_ACT_ALLOW"}}

{"capabilities":{},"seccomp":{"defaultAction":"SCMP_ACT_ERRNO","syscalls":[{"names":["clone3"],
"action":"SCMP_ACT_ERRNO","errnoRet":1}]}}

{"capabilities":{},"seccomp":{"defaultAction":"SCMP_ACT_ERRNO","syscalls":[{"names":["clone3"],
"action":"SCMP_ACT_ERRNO","errnoRet":38}]}}

{"capabilities":{},"seccomp":{"defaultAction":"SCMP_ACT_ERRNO","architectures":["SCMP_ARCH_X86_64"],
"flags":["SECCOMP_FILTER_FLAG_LOG"]}}

{"capabilities":{},"seccomp":{"defaultAction":"SCMP_ACT_ERRNO","architectures":["SCMP_ARCH_ARM","SCMP_ARCH_X86_64",
"SCMP_ARCH_ARM","SCMP_ARCH_X86"],"flags":["SECCOMP_FILTER_FLAG_TSYNC"]}}

{"capabilities":{},"seccomp":{"defaultAction":"SCMP_ACT_ERRNO","flags":["SECCOMP_FILTER_FLAG_LOG"]}}

{"capabilities":{},"seccomp":{"defaultAction":"SCMP_ACT_ERRNO","architectures":["SCMP_ARCH_X86_64"],
"flags":["SECCOMP_FILTER_FLAG_LOG"],"syscalls":[{"names":["read"],"action":"SCMP_ACT_ERRNO"}]}}

{"capabilities":{"effective":["CAP_CHOWN"],"permitted":["CAP_CHOWN","CAP_DAC_READ_SEARCH"],
"inheritable":["CAP_CHOWN"],"bounding":["CAP_CHOWN","CAP_DAC_READ_SEARCH"]},"seccomp":{"defaultAction":"SCMP_ACT_LOG",
"architectures":["SCMP_ARCH_X86"],"flags":["SECCOMP_FILTER_FLAG_TSYNC"],"syscalls":[{"names":["write"],
"action":"SCMP_ACT_ALLOW"},{"names":["close"],"action":"SCMP_ACT_ALLOW"}]}}

{"capabilities":{},"seccomp":{"defaultAction":"SCMP_ACT_KILL_THREAD"}}

{"capabilities":{},"seccomp":{"defaultAction":"SCMP_ACT_TRAP"}}

{"capabilities":{},"seccomp":{"defaultAction":"SCMP_ACT_TRACE"}}

{"capabilities":{},"seccomp":{"defaultAction":"SCMP_ACT_LOG"}}

{"capabilities":{},"seccomp":{"defaultAction":"SCMP_ACT_ERRNO","syscalls":[{"names":["read"],
"action":"SCMP_ACT_ALLOW","args":[{"index":0,"op":"SCMP_CMP_EQ","value":7}]}]}}

{"capabilities":{},"seccomp":{"defaultAction":"SCMP_ACT_ERRNO","syscalls":[{"names":["read"],
"action":"SCMP_ACT_ALLOW","args":[{"index":0,"op":"SCMP_CMP_EQ","value":8}]}]}}

{"capabilities":{},"seccomp":{"defaultAction":"SCMP_ACT_ERRNO","syscalls":[{"names":["read"],
"action":"SCMP_ACT_ALLOW","args":[{"index":0,"op":"SCMP_CMP_EQ","value":0},{"index":1,"op":"SCMP_CMP_EQ",
"value":7}]}]}}

{"capabilities":{},"seccomp":{"defaultAction":"SCMP_ACT_ERRNO","syscalls":[{"names":["read"],
"action":"SCMP_ACT_ALLOW","args":[{"index":0,"op":"SCMP_CMP_EQ","value":0},{"index":1,"op":"SCMP_CMP_EQ",
"value":8}]}]}}

{"capabilities":{},"seccomp":{"defaultAction":"SCMP_ACT_ERRNO","syscalls":[{"names":["read"],
"action":"SCMP_ACT_ALLOW","args":[{"index":0,"op":"SCMP_CMP_EQ","value":0},{"index":1,"op":"SCMP_CMP_EQ","value":0},
{"index":2,"op":"SCMP_CMP_EQ","value":0},{"index":3,"op":"SCMP_CMP_EQ","value":0},{"index":4,"op":"SCMP_CMP_EQ",
"value":0},{"index":5,"op":"SCMP_CMP_EQ","value":7}]}]}}

{"capabilities":{},"seccomp":{"defaultAction":"SCMP_ACT_ERRNO","syscalls":[{"names":["read"],
"action":"SCMP_ACT_ALLOW","args":[{"index":0,"op":"SCMP_CMP_EQ","value":0},{"index":1,"op":"SCMP_CMP_EQ","value":0},
{"index":2,"op":"SCMP_CMP_EQ","value":0},{"index":3,"op":"SCMP_CMP_EQ","value":0},{"index":4,"op":"SCMP_CMP_EQ",
"value":0},{"index":5,"op":"SCMP_CMP_EQ","value":8}]}]}}"#;

// The profiles of documents.
fn profiles_of(alloc: Global, documents: &str) -> Result<Vec<Profile>, Fail> {
    let mut profiles = Vec::new(alloc);
    for document in documents.split("\n\n") {
        profiles.push(profile_of(alloc, document)?)?;
    }
    Ok(profiles)
}

// Of these profiles one is wider than another just where something is found.
fn assert_wider_where_found(
    rt: &impl Abort,
    alloc: Global,
    profiles: &[Profile],
) -> Result<(), Fail> {
    for base in profiles {
        for new in profiles {
            let found = findings(alloc, base, new)?;
            assert_eq!(rt; is_wider(base, new), !found.is_empty());
        }
    }
    Ok(())
}

#[test]
fn a_profile_is_wider_just_where_something_is_found(rt: HostRuntime) -> Result<(), Fail> {
    let profiles = profiles_of(rt.alloc(), DOCUMENTS)?;
    assert_eq!(rt; profiles.len(), 36);
    assert_wider_where_found(&rt, rt.alloc(), profiles.as_slice())
}
