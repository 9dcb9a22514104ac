//! Why a command line is refused.
use std::alloc::AllocError;
use thiserror::Error;

/// The required form of an option's value.
#[derive(Clone, Copy, Debug, PartialEq, Eq, Error)]
pub enum Wanted {
    /// A number in this range, in decimal digits, without a sign or a leading zero.
    #[error("a number from {least} to {most}")]
    Number {
        /// The least number.
        least: u64,
        /// The greatest number.
        most: u64,
    },
    /// A percentage, or the word `none`.
    #[error("a number from 1 to 99, or none,")]
    Percentage,
    /// An IP address with a port: an IPv6 address is in brackets, and the port is in decimal digits without a leading zero.
    #[error("an address with a port, as 192.0.2.1:3323 or [2001:db8::1]:3323,")]
    Address,
    /// The path of a file or of a directory, which is not empty.
    #[error("a path")]
    Path,
    /// The path of a file or of a directory. The value given is a URL, which is not fetched.
    #[error("a path, not a URL (see \"A list from another machine, over HTTPS\" in OPERATING.md),")]
    PathNotUrl,
    /// A format of the log.
    #[error("text, json or systemd")]
    LogFormat,
    /// A level of the log.
    #[error("error, warning, notice or info")]
    LogLevel,
    /// The name of a host.
    #[error("a host name, as cache.example.net,")]
    HostName,
}

/// Why a command line is refused. The text names the option, quotes its value, and says what is required.
#[derive(Debug, Drop, Error)]
pub enum OptionFault {
    /// An unknown option, an option without its value, or an option that occurs too often.
    #[error("{0}")]
    Unclear(String),
    /// The value of an option does not have the required form.
    #[error("--{option} {value:?}: {wanted} is required")]
    Value {
        /// The option's name.
        option: &'static str,
        /// Its value.
        value: String,
        /// The required form.
        wanted: Wanted,
    },
    /// The expire interval is not longer than both others (RFC 8210 section 6).
    #[error("--expire {expire} must be greater than --refresh ({refresh}) and --retry ({retry})")]
    Expire {
        /// The expire interval in seconds.
        expire: u32,
        /// The refresh interval in seconds.
        refresh: u32,
        /// The retry interval in seconds.
        retry: u32,
    },
    /// Neither `--vrps` nor `--points` is given.
    #[error("nothing to serve: give --vrps or --points")]
    NoSource,
    /// `--stop-when-old` is given without `--max-age`.
    #[error("--stop-when-old needs --max-age")]
    NoAge,
    /// `--shrink-hold` is given with `--max-shrink none`.
    #[error("--shrink-hold needs a --max-shrink other than none")]
    NoShrink,
    /// `--status-name` is given without `--status`.
    #[error("--status-name needs --status")]
    NoStatus,
    /// Out of memory.
    #[error("out of memory")]
    Memory,
}

impl From<AllocError> for OptionFault {
    fn from(_error: AllocError) -> OptionFault {
        OptionFault::Memory
    }
}
