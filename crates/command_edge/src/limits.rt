//! The limit of files.

/// The most bytes that a file of a job, a table, a Click configuration or a packet may have.
pub const FILE_LIMIT: u64 = 67_108_864;
