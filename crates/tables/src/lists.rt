// Tables and lists hold raw numbers: a C caller lends them so, and the witness list, lent for its answer, serves as the queue too. Here alone one is read as a row
// or as a place, and a row or a place is stored as one.
ghost use Rattle.std.specs.Prelude.{◌≡◌, ◌<◌, length, get_or, set};

use plan::{Place, Row};

pub fn row_at(list: &[u16], i: usize) -> Row
    requires { i < length list.now }
    ensures { result.0 ≡ get_or list.now i 0 }
{
    Row(list[i])
}

pub fn put_row(list: &mut [u16], i: usize, r: Row)
    requires { i < length list.old }
    ensures { list.new ≡ set list.old i r.0 }
{
    list[i] = r.0;
}

pub fn place_at(list: &[u16], i: usize) -> Place
    requires { i < length list.now }
    ensures { result.0 ≡ get_or list.now i 0 }
{
    Place(list[i])
}

pub fn put_place(list: &mut [u16], i: usize, c: Place)
    requires { i < length list.old }
    ensures { list.new ≡ set list.old i c.0 }
{
    list[i] = c.0;
}
