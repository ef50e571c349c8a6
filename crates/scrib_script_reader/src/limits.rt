//! The limits of a script.

/// The most bytes of a script.
pub const MAX_SCRIPT_BYTES: u64 = 1_099_511_627_776;

/// The most lines of a script.
pub const MAX_SCRIPT_LINES: u64 = 16_777_216;

/// The limits of a script.
#[derive(Clone, Copy, Debug, PartialEq, Eq)]
pub struct Limits {
    /// The most lines. The last line counts too where no LF ends it.
    pub lines: u64,
    /// The most bytes.
    pub bytes: u64,
}

impl Limits {
    ghost use Rattle.std.specs.Prelude.{◌≡◌};
    ghost use Rattle.scrib_script_reader.specs.Limits.{endless, of_scripts};

    /// Returns the limits of the scripts that the program reads.
    pub fn of_scripts() -> Limits
        ensures { result ≡ of_scripts }
    {
        Limits {
            lines: MAX_SCRIPT_LINES,
            bytes: MAX_SCRIPT_BYTES,
        }
    }

    /// Returns the limits of a script without an end: as many lines and bytes as can be counted.
    pub fn endless() -> Limits
        ensures { result ≡ endless }
    {
        Limits {
            lines: u64::MAX - 1,
            bytes: u64::MAX,
        }
    }
}
