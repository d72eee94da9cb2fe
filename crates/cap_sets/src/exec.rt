//! What execve makes of a state: capabilities(7), "Transformation of capabilities during execve()".

ghost use Rattle.std.specs.Prelude.{◌≡◌, IfOk, IfErr, OnErr};
ghost use Rattle.cap_sets.specs.NumberSet.{HasExactly};
ghost use Rattle.cap_sets.specs.Execve.{file_permitted, file_inheritable, file_effective};
ghost use Rattle.cap_sets.specs.Execve.{ambient_after, permitted_after, IsAfter, IsDenied};
ghost use Rattle.cap_sets.specs.Execve.{IsAfterRoot};

use crate::caps::Caps;
use crate::state::CapState;
use std::error::Error;
use std::fmt;

/// A file that is executed, by its capabilities.
#[derive(Clone, Copy)]
pub enum File {
    /// A file without capabilities.
    Plain,
    /// A file with capabilities, also where both sets are empty.
    WithCaps {
        /// The file's permitted set.
        permitted: Caps,
        /// The file's inheritable set.
        inheritable: Caps,
        /// The file's effective bit: whether what is permitted after execve is effective too.
        effective: bool,
    },
}

/// `execve` fails with EPERM: the file's effective bit is set, and the process would not gain all
/// of the file's permitted capabilities.
#[derive(Clone, Copy, Debug)]
pub struct Eperm;

impl fmt::Display for Eperm {
    ghost use Rattle.std.specs.Prelude.{Some, codes};

    ghost output = { λ _. Some (codes "EPERM") };

    fn fmt<W: fmt::Write>(&self, f: &mut fmt::Formatter<W>) -> fmt::Result {
        write!(f, "EPERM")
    }
}

impl Error for Eperm {}

impl File {
    /// The file's permitted set, which a plain file has empty.
    fn permitted(&self) -> Caps
        ensures { HasExactly result (file_permitted self.now) }
    {
        match self {
            File::Plain => Caps::empty(),
            File::WithCaps { permitted, .. } => *permitted,
        }
    }

    /// The file's inheritable set, which a plain file has empty.
    fn inheritable(&self) -> Caps
        ensures { HasExactly result (file_inheritable self.now) }
    {
        match self {
            File::Plain => Caps::empty(),
            File::WithCaps { inheritable, .. } => *inheritable,
        }
    }

    /// Whether the file's effective bit is set, which a plain file hasn't.
    fn is_effective(&self) -> bool
        ensures { result ≡ file_effective self.now }
    {
        match self {
            File::Plain => false,
            File::WithCaps { effective, .. } => *effective,
        }
    }
}

/// The ambient set after execve: a file with capabilities clears it.
fn ambient_after(before: &CapState, file: &File) -> Caps
    ensures { HasExactly result (ambient_after before.now file.now) }
{
    match file {
        File::Plain => before.ambient,
        File::WithCaps { .. } => Caps::empty(),
    }
}

/// The permitted set after execve.
fn permitted_after(before: &CapState, file: &File, ambient: Caps) -> Caps
    requires { HasExactly ambient (ambient_after before.now file.now) }
    ensures { HasExactly result (permitted_after before.now file.now) }
{
    let inherited = before.inheritable.intersection(file.inheritable());
    let granted = file.permitted().intersection(before.bounding);
    inherited.union(granted).union(ambient)
}

/// The state of a process after it executed a file, where no user id is 0 and the file has no
/// set-id bits.
///
/// # Errors
///
/// `Eperm` where the file's effective bit is set, and the process would not gain all of its
/// permitted capabilities.
pub fn execve(before: &CapState, file: File) -> Result<CapState, Eperm>
    ensures after { IfOk result (IsAfter before.now file) }
    ensures denied { IfErr result (λ _. IsDenied before.now file) }
    ensures none { OnErr result ((after : CapState) → ¬ IsAfter before.now file after) }
{
    let ambient = ambient_after(before, &file);
    let permitted = permitted_after(before, &file, ambient);
    if file.is_effective() && !permitted.contains(file.permitted()) {
        return Err(Eperm);
    }
    let effective = if file.is_effective() {
        permitted
    } else {
        ambient
    };
    Ok(CapState {
        effective,
        permitted,
        inheritable: before.inheritable,
        bounding: before.bounding,
        ambient,
    })
}

/// The state of a process whose real and effective user ids are 0, after it executed a file that
/// has neither capabilities nor set-id bits.
pub fn execve_root(before: &CapState) -> CapState
    ensures { IsAfterRoot before.now result }
{
    let permitted = before.inheritable.union(before.bounding);
    CapState {
        effective: permitted,
        permitted,
        inheritable: before.inheritable,
        bounding: before.bounding,
        ambient: before.ambient,
    }
}
