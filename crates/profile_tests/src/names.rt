//! Names of architectures and of flags, as calls have them.

use seccomp_doc::{Arch, NameFault, ScmpFlag};
use std::test::Fail;

#[test]
fn architectures_and_flags_are_read_by_their_whole_names(rt: HostRuntime) -> Result<(), Fail> {
    let alloc = rt.alloc();
    let arch = Arch::read(alloc, "SCMP_ARCH_X86_64")?;
    let flag = ScmpFlag::read(alloc, "SECCOMP_FILTER_FLAG_LOG")?;
    let short_arch = Arch::read(alloc, "x86_64");
    let short_flag = ScmpFlag::read(alloc, "LOG");
    assert_eq!(rt;
        (arch.as_str(), flag.as_str()),
        ("SCMP_ARCH_X86_64", "SECCOMP_FILTER_FLAG_LOG")
    );
    assert!(rt; matches!(&short_arch, Err(NameFault::NotAWord)));
    assert!(rt; matches!(&short_flag, Err(NameFault::NotAWord)));
    Ok(())
}
