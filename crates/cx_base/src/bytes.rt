ghost use Rattle.std.specs.Prelude.{◌≡◌, ◌≤◌, ◌-◌, length};
ghost use Rattle.std.specs.List.{splice};
ghost use Rattle.cx_base.specs.Bytes.{number_of, bytes_of};

use crate::list::List;

/// The number that at most eight bytes write, the least significant byte first.
pub(crate) fn number_of(bytes: &[u8]) -> u64
    requires { length bytes.now ≤ 8 }
    ensures { result ≡ number_of bytes.now }
{
    let mut n = 0;
    for i in 0..bytes.len() {
        n = 256 * n + u64::from(bytes[bytes.len() - 1 - i]);
    }
    n
}

/// Writes the low bytes of the number into the list, from the place `from` on and before the place
/// `to`, the least significant byte first.
pub(crate) fn put_number(bytes: &mut List<u8>, from: usize, to: usize, n: u64)
    requires order { from ≤ to }
    requires inside { to ≤ length bytes.old }
    ensures { bytes.new ≡ splice bytes.old from to (bytes_of (to - from) n) }
{
    let mut rest = n;
    for i in from..to {
        bytes.set(i, (rest % 256) as u8);
        rest /= 256;
    }
}
