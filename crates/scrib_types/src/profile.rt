//! The profiles of projection: which branches of a choice merge.

ghost use Rattle.std.specs.Prelude.{◌≡◌};
ghost use Rattle.scrib_types.specs.Texts.{profile_word};

/// Which branches of a choice merge for a role that has no part in it.
#[derive(Clone, Copy, Debug, PartialEq, Eq)]
pub enum Profile {
    /// Branches in which the role does the same.
    Plain,
    /// Also branches that begin with a reception from the same sender: it offers what each of them offers.
    Reception,
}

impl Profile {
    /// The profile's word: `plain` or `reception`.
    pub fn word(self) -> &'static str
        ensures { result.now ≡ profile_word self }
    {
        match self {
            Profile::Plain => "plain",
            Profile::Reception => "reception",
        }
    }
}
