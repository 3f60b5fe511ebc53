//! The call that tells the library's version. It needs no client.

ghost use Rattle.std.specs.Prelude.{Some};
ghost use Rattle.mqtt5_c.specs.Told.{TellsBytes};
ghost use Rattle.mqtt5_c.specs.Version.{version};

use crate::told::copy_if_fits;

/// Copies the version of the library, as the header's MQTT5_VERSION, and tells how many bytes it has. 0; 203 where the
/// buffer is too small: it is then as before.
#[unsafe(no_mangle)]
pub extern "C" fn mqtt5_version(buffer: &mut [u8], count: &mut usize) -> u32
    ensures { TellsBytes (Some version) buffer.old count.old result buffer.new count.new }
{
    copy_if_fits(buffer, count, b"0.1.0")
}
