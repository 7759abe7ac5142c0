//! Profiles of operators.

ghost use Rattle.std.specs.Prelude.{◌≡◌};
ghost use Rattle.desk_base.specs.Profiles.{profile_number, profile_numbered};

/// How the operators of a licence expression are written.
#[derive(Clone, Copy, PartialEq, Eq)]
pub enum Profile {
    /// Only in capitals: `AND`, `OR`, `WITH` (SPDX 2.3, Annex D.4).
    Capitals,
    /// In capitals or wholly in small letters: also `and`, `or`, `with`, as many documents write
    /// them.
    Either,
}

impl Profile {
    /// The profile's number, by which requests and the command line name it.
    pub fn number(self) -> u64
        ensures { result ≡ profile_number self }
    {
        match self {
            Profile::Capitals => 1,
            Profile::Either => 2,
        }
    }

    /// The profile with a number.
    pub fn numbered(number: u64) -> Option<Profile>
        ensures { result ≡ profile_numbered number }
    {
        match number {
            1 => Some(Profile::Capitals),
            2 => Some(Profile::Either),
            _ => None,
        }
    }
}
