//! The own process.

ghost use Rattle.std.specs.Prelude.{◌≡◌};
ghost use Rattle.bz_symq.specs.OwnPid.{own_pid_in};

use bz_base::read_decimal;

/// The greatest id of a process.
const GREATEST_ID: u64 = 4_294_967_295;

/// The id of the own process: the digits that begin the text of `/proc/self/stat`; 0 where the text
/// begins with no id.
pub fn own_pid(stat: &[u8]) -> u32
    ensures { result ≡ own_pid_in stat.now }
{
    match read_decimal(stat, 10, GREATEST_ID) {
        Some((id, _)) => id as u32,
        None => 0,
    }
}
