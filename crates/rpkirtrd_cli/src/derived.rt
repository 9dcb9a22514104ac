//! Values that are derived from the settings.
ghost use Rattle.std.specs.Prelude.{◌≡◌, ◌++◌, IfOk, OnOk, option_copied};
ghost use Rattle.std.specs.List.{flat_map};
ghost use Rattle.std.specs.String.{string_bytes};
ghost use Rattle.rpkirtrd_cli.specs.Derived.{address_line, millis_of, notify_warning, path_line, path_lines, session_warning, sources_text};

use crate::settings::Settings;
use std::alloc::{AllocError, Global};
use std::net::SocketAddr;

/// The least number of seconds between two notifies (RFC 8210 section 8.2).
const NOTIFY_SECONDS: u32 = 60;

/// Returns the warning that the session is random at each start, if `is_random` is true. Otherwise returns `None`.
pub fn session_warning(is_random: bool) -> Option<&'static str>
    ensures { option_copied result ≡ session_warning is_random }
{
    if !is_random {
        return None;
    }
    Some(
        "/etc/machine-id has no machine ID: the session ID is random at each start (set --session)",
    )
}

impl Settings {
    /// Returns the interval between two polls of the files, in milliseconds. The setting is in seconds.
    pub fn check_millis(&self) -> u64
        ensures { result ≡ millis_of self.now.check }
    {
        u64::from(self.check) * 1000
    }

    /// Returns after how many milliseconds without progress a client is closed that is blocked on writing. The setting is in seconds.
    pub fn stall_millis(&self) -> u64
        ensures { result ≡ millis_of self.now.stall }
    {
        u64::from(self.stall) * 1000
    }

    /// Returns how many milliseconds after a query its client is closed, if it has not accepted the whole answer by then. The setting is in seconds.
    pub fn slow_millis(&self) -> u64
        ensures { result ≡ millis_of self.now.slow }
    {
        u64::from(self.slow) * 1000
    }

    /// Returns the warning that routers may be notified more than once a minute (RFC 8210 section 8.2), if `check` is below 60 seconds. Otherwise
    /// returns `None`.
    pub fn notify_warning(&self) -> Option<&'static str>
        ensures { option_copied result ≡ notify_warning self.now.check }
    {
        if self.check >= NOTIFY_SECONDS {
            return None;
        }
        Some(
            "with --check below 60 routers may be notified more than once a minute (RFC 8210 section 8.2)",
        )
    }

    /// The listening addresses for routers as text, in the order given. Each is a line that ends with a newline. `Err`: memory ran out.
    pub fn listen_text(&self, alloc: Global) -> Result<String, AllocError>
        ensures { IfOk result (λ text. string_bytes text ≡ flat_map address_line self.now.listen.items) }
    {
        let mut text = String::new(alloc);
        add_addresses(&mut text, self.listen.as_slice())?;
        Ok(text)
    }

    /// All sources as text, from which the session ID is derived: lines `--vrps PATH`, then `--points PATH`, then `--slurm PATH`. Those of one
    /// option are in the order given, and each line ends with a newline. `Err`: memory ran out.
    pub fn sources_text(&self, alloc: Global) -> Result<String, AllocError>
        ensures { IfOk result (λ text. string_bytes text ≡ sources_text self.now) }
    {
        let mut text = String::new(alloc);
        add_paths(&mut text, "--vrps", self.vrps.as_slice())?;
        add_paths(&mut text, "--points", self.points.as_slice())?;
        add_paths(&mut text, "--slurm", self.slurm.as_slice())?;
        Ok(text)
    }
}

/// Adds addresses.
fn add_addresses(text: &mut String, addresses: &[SocketAddr]) -> Result<(), AllocError>
    ensures { OnOk result (string_bytes text.new ≡ string_bytes text.old ++ flat_map address_line addresses.now) }
{
    for address in addresses {
        add_address(text, address)?;
    }
    Ok(())
}

fn add_address(text: &mut String, address: &SocketAddr) -> Result<(), AllocError>
    ensures { OnOk result (string_bytes text.new ≡ string_bytes text.old ++ address_line address.now) }
{
    write!(text, "{address}\n")
}

/// Adds the paths of an option.
fn add_paths(text: &mut String, option: &str, paths: &[String]) -> Result<(), AllocError>
    ensures { OnOk result (string_bytes text.new ≡ string_bytes text.old ++ path_lines option.now paths.now) }
{
    for path in paths {
        add_path(text, option, path.as_str())?;
    }
    Ok(())
}

fn add_path(text: &mut String, option: &str, path: &str) -> Result<(), AllocError>
    ensures { OnOk result (string_bytes text.new ≡ string_bytes text.old ++ path_line option.now path.now) }
{
    write!(text, "{option} {path}\n")
}
