//! How a command ends that writes its answer as it goes.

/// The exit status of a command whose answer is written, and what is said of it on standard error.
#[derive(Drop)]
pub(crate) struct Ended {
    pub status: u8,
    /// A line, or nothing.
    pub line: &'static str,
    /// The lines below it.
    pub lines: Option<String>,
}
