// Where a line of a batch stands, and what it is.

/// At the start of a batch, or behind its header and so many jobs.
#[derive(Clone, Copy, Debug, PartialEq, Eq)]
pub(crate) enum Position {
    AtStart,
    Behind(usize),
}

/// The header, or the line of a job, with its choice.
#[derive(Clone, Copy, Debug, PartialEq, Eq)]
pub(crate) enum BatchItem {
    Header,
    JobLine(u32),
}
