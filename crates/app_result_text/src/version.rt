//! Refusals of a statement that names the version over which it is asked.
ghost use Rattle.std.specs.Prelude.{◌≡◌, ◌++◌, OnOk};
ghost use Rattle.app_result_text.specs.Version.{named_version, version_refusal_name};
ghost use Rattle.app_result_text.specs.Version.{version_refusal_number, version_refusal_written};

use crate::refusal::push_tagged;
use itoa::Buffer;
use std::alloc::AllocError;

/// Why a statement is not asked over the version that it names.
#[derive(Clone, Copy, Debug, PartialEq, Eq, Hash)]
pub enum VersionRefusal {
    /// The version that is named is above the one over which the statement began.
    Unknown(u64),
    /// The version that is named lies 64 or more below the one over which the statement began.
    Gone(u64),
}

impl VersionRefusal {
    /// The number that is printed, 23 or 24.
    pub fn number(self) -> u8
        ensures { result ≡ version_refusal_number self }
    {
        match self {
            VersionRefusal::Unknown(_) => 23,
            VersionRefusal::Gone(_) => 24,
        }
    }

    /// The name that is printed.
    pub fn name(self) -> &'static str
        ensures { result.now ≡ version_refusal_name self }
    {
        match self {
            VersionRefusal::Unknown(_) => "VersionUnknown",
            VersionRefusal::Gone(_) => "VersionGone",
        }
    }

    /// The version that the statement names, which is printed as an argument.
    pub fn named(self) -> u64
        ensures { result ≡ named_version self }
    {
        match self {
            VersionRefusal::Unknown(version) => version,
            VersionRefusal::Gone(version) => version,
        }
    }
}

/// Appends the word `refused`, the refusal's number and name, and the version that the statement
/// names, parted by spaces.
pub(crate) fn put_version_refusal(
    text: &mut Vec<u8>,
    refusal: VersionRefusal,
) -> Result<(), AllocError>
    ensures { OnOk result (text.new.items ≡ text.old.items ++ version_refusal_written refusal) }
{
    let mut buffer = Buffer::new();
    text.extend_from_slice(b"refused")?;
    push_tagged(text, refusal.number(), refusal.name())?;
    text.push(b' ')?;
    text.extend_from_slice(buffer.format(refusal.named()).as_bytes())
}
