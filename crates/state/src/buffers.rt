// Bytes of a lent buffer.
ghost use Rattle.std.specs.Prelude.{◌≡◌, ◌<◌, length, set};

use plan::Place;

pub fn put(block: &mut [u8], c: Place, v: u8)
    requires { c.0 < length block.old }
    ensures { block.new ≡ set block.old c.0 v }
{
    let at = c.0 as usize;
    block[at] = v;
}
