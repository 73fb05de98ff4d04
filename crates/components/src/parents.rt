// Rows as a forest of parents that never rise: the root of a row is the lowest of the rows joined to it.
ghost use Rattle.std.specs.Prelude.{◌≡◌, ◌≤◌, ◌<◌, length};
ghost use Rattle.components.specs.Parents.{Falls, Found, Unites, Own, Settled};

use plan::Row;
use tables::lists::{put_row, row_at};

// The root of row x; the rows on the way are hung higher.
fn find(parent: &mut [u16], x: Row) -> Row
    requires { Falls parent.old × (x.0 < length parent.old) }
    ensures { Found parent.old x.0 parent.new result.0 }
{
    let mut r = x;
    let mut up = row_at(&parent[..], r.0 as usize);
    while up.0 < r.0 {
        let over = row_at(&parent[..], up.0 as usize);
        put_row(&mut parent[..], r.0 as usize, over);
        r = over;
        up = row_at(&parent[..], r.0 as usize);
    }
    r
}

// Rows x and y are joined. The answer: they were joined before.
pub(crate) fn unite(parent: &mut [u16], x: Row, y: Row) -> bool
    requires { Falls parent.old × (x.0 < length parent.old) × (y.0 < length parent.old) }
    ensures { Unites parent.old x.0 y.0 parent.new result }
{
    let a = find(&mut parent[..], x);
    let b = find(&mut parent[..], y);
    if a.0 < b.0 {
        put_row(&mut parent[..], b.0 as usize, a);
        return false;
    }
    if b.0 < a.0 {
        put_row(&mut parent[..], a.0 as usize, b);
        return false;
    }
    true
}

// Every row is its own parent.
pub fn own(parent: &mut [u16])
    requires { length parent.old ≤ 65536 }
    ensures { Own parent.old parent.new (length parent.old) }
{
    for r in 0..parent.len() {
        put_row(&mut parent[..], r, Row(r as u16));
    }
}

// Every row is hung from its root.
pub(crate) fn settle(parent: &mut [u16])
    requires { Falls parent.old }
    ensures { Settled parent.old parent.new (length parent.old) }
{
    for r in 0..parent.len() {
        let up = row_at(&parent[..], r);
        let root = row_at(&parent[..], up.0 as usize);
        put_row(&mut parent[..], r, root);
    }
}
