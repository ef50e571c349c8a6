//! A kind of refusal.

/// A kind of refusal, or a reason of an offence, as it is explained. Each text is ASCII, and ends without an LF.
#[derive(Clone, Copy, Debug)]
pub struct Kind {
    /// The word behind `refused`, or the word of the reason.
    pub name: &'static str,
    /// When it comes.
    pub meaning: &'static str,
    /// The smallest input that gives it: a module text, a script, or commands of a shell. In words where there is none.
    pub example: &'static str,
    /// The command that reads the example, as `scribmon check prints`.
    pub reader: &'static str,
    /// The last line that it prints.
    pub printed: &'static str,
    /// What to do about it.
    pub cure: &'static str,
}
