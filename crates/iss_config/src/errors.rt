//! Why a configuration could not be read.

/// Why bytes were not read as a configuration.
#[derive(Clone, Copy, Debug, PartialEq, Eq)]
pub enum ConfigError {
    /// They are the text of no configuration.
    BadConfig,
    /// Out of memory.
    NoMemory,
}
