// A vertex brought to degree 6: the neighbours that this asks for are subdivided, each brought to degree 6 first where it is not.
//
// `bring_to_six` and `subdivide_neighbour` call each other, and the level falls at each turn, so at most twelve vertices are under way at once. A
// refusal is handed up with the table as it then stands: the request puts it back. Each vertex is searched for once: no subdivision moves a record, so
// it stands in the slot where it was found.
ghost use Rattle.std.specs.Prelude.{◌≡◌, ◌+◌, ◌*◌, ◌≤◌, length};
ghost use Rattle.table.specs.Slots.{slot_width, slot_at};
ghost use Rattle.table.specs.Entries.{held_in};
ghost use Rattle.mesh.specs.Met.{InSlot};
ghost use Rattle.mesh.specs.WriteLaws.{Standing};
ghost use Rattle.mesh.specs.Subdivide.{subdivide_vertex};
ghost use Rattle.mesh.specs.StepLaws.{Given, Leaves};
ghost use Rattle.bring.specs.Bring.{raised_at, near_of, is_six, bring_of};
ghost use Rattle.bring.specs.ChainLaws.{Taken};

use crate::locate::locate;
use lattice::{Level, Point, Record, Refusal, adjacent_of};
use mesh::subdivide_vertex;
use table::held_in;

// The subdivision of the vertex u, which stands in slot i: how many slots are free after.
fn subdivide_held(
    t: &mut [u8],
    u: Record,
    i: usize,
    n: usize,
    free: usize,
) -> Result<usize, Refusal>
    requires { Given t.old n free × (Standing t.old u × InSlot t.old u i) }
    ensures { Leaves t.old (subdivide_vertex t.old u) result t.new }
{
    subdivide_vertex(t, u, i, n, free)?;
    Ok(free - 6)
}

// The subdivision of what stands in slot i, once it has been brought to degree 6.
fn subdivide_raised(t: &mut [u8], i: usize, n: usize, free: usize) -> Result<usize, Refusal>
    requires { Given t.old n free × Taken t.old i }
    ensures { Leaves t.old (raised_at t.old (held_in (slot_at t.old i))) result t.new }
{
    let Some(u) = held_in(t, i) else {
        return Err(Refusal::Torn);
    };
    subdivide_held(t, u, i, n, free)
}

// Whether the vertex in slot i has degree 6: of one that was brought there.
fn ends_six(t: &[u8], i: usize) -> bool
    requires { slot_width * i + slot_width ≤ length t.now }
    ensures { result ≡ is_six (held_in (slot_at t.now i)) }
{
    match held_in(t, i) {
        None => false,
        Some(w) => w.d == 6,
    }
}

// "it first subdivides, at the vertex's own level, each neighbour across an edge that has no 60 degree angle at the vertex": of a vertex of degree 3,
// 4 or 5 these are the first 6 - d places of its star. It stands in slot i.
#[cycle(bring_to_six_subdivide_neighbour)]
pub fn bring_to_six(
    t: &mut [u8],
    v: Record,
    i: usize,
    n: usize,
    free: usize,
) -> Result<usize, Refusal>
    requires { Given t.old n free × (Standing t.old v × (InSlot t.old v i × (3 ≤ v.d))) }
    ensures { Leaves t.old (bring_of v.n.0 t.old v) result t.new }
{
    let level = v.n;
    let count = 6 - v.d;
    let mut left = free;
    for j in 0..count {
        left = subdivide_neighbour(t, adjacent_of(v, j), level, n, left)?;
    }
    if ends_six(t, i) {
        return Ok(left);
    }
    Err(Refusal::Torn)
}

// "a neighbour not yet of degree 6 is itself brought to degree 6 before it is subdivided, one level lower"
#[cycle(bring_to_six_subdivide_neighbour)]
fn subdivide_neighbour(
    t: &mut [u8],
    p: Point,
    level: Level,
    n: usize,
    free: usize,
) -> Result<usize, Refusal>
    requires { Given t.old n free }
    ensures { Leaves t.old (near_of level.0 t.old p) result t.new }
{
    let Some((u, i)) = locate(t, p, n) else {
        return Err(Refusal::Torn);
    };
    let d = u.d;
    let own = u.n.0;
    if d == 0 {
        return Err(Refusal::AtTheRim);
    }
    if d == 6 {
        if own != level.0 {
            return Err(Refusal::Torn);
        }
        return subdivide_held(t, u, i, n, free);
    }
    if own + 1 != level.0 {
        return Err(Refusal::Torn);
    }
    let left = bring_to_six(t, u, i, n, free)?;
    subdivide_raised(t, i, n, left)
}
