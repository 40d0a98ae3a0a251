// The request, on a table and a scratch table of the same length: all or nothing.
ghost use Rattle.std.specs.Prelude.{◌≡◌, ◌≤◌, length};
ghost use Rattle.lattice.specs.Refusals.{number_told};
ghost use Rattle.table.specs.Slots.{Table};
ghost use Rattle.mesh.specs.Met.{InSlot};
ghost use Rattle.mesh.specs.WriteLaws.{Standing};
ghost use Rattle.mesh.specs.Subdivide.{all_or};
ghost use Rattle.mesh.specs.StepLaws.{Given};
ghost use Rattle.bring.specs.Bring.{bring_of, bring_vertex, request_of, bring_after, bring_to_six};
ghost use Rattle.bring.specs.CallLaws.{RequestLeaves};

use crate::chain::bring_to_six;
use crate::locate::locate;
use lattice::{Record, Refusal, normalise};
use table::{check_order, clear, copy, slots_of};

// A vertex of degree 3, 4 or 5 below level 12, which stands in slot i, brought to degree 6, or the table as it was. Scratch holds the copy meanwhile.
fn try_vertex(
    table: &mut [u8],
    scratch: &mut [u8],
    v: Record,
    i: usize,
    n: usize,
    free: usize,
) -> Result<(), Refusal>
    requires { (length scratch.old ≡ length table.old) × (Given table.old n free × (Standing table.old v × (InSlot table.old v i × (3 ≤ v.d)))) }
    ensures { RequestLeaves (all_or table.old (bring_of v.n.0 table.old v)) scratch.old
        (number_told result) table.new scratch.new }
{
    copy(table, scratch);
    if let Err(why) = bring_to_six(table, v, i, n, free) {
        copy(scratch, table);
        return Err(why);
    }
    Ok(())
}

// Of the vertex: 14; at degree 6 0, nothing done; 5; then the first met.
fn bring_vertex(
    table: &mut [u8],
    scratch: &mut [u8],
    v: Record,
    i: usize,
    n: usize,
    free: usize,
) -> Result<(), Refusal>
    requires { (length scratch.old ≡ length table.old) × (Given table.old n free × (Standing table.old v × InSlot table.old v i)) }
    ensures { RequestLeaves (bring_vertex table.old v) scratch.old (number_told result) table.new scratch.new }
{
    let d = v.d;
    let level = v.n.0;
    if d == 0 {
        return Err(Refusal::Boundary);
    }
    if d == 6 {
        return Ok(());
    }
    if level == 12 {
        return Err(Refusal::LastLevel);
    }
    try_vertex(table, scratch, v, i, n, free)
}

// 1, 3, then of the vertex. One test of the table gives the free slots too.
fn bring_request(
    table: &mut [u8],
    scratch: &mut [u8],
    a: i32,
    b: i32,
    m: u8,
    n: usize,
) -> Result<(), Refusal>
    requires { (length scratch.old ≡ length table.old) × Table table.old n }
    ensures { RequestLeaves (request_of table.old a b m) scratch.old (number_told result) table.new scratch.new }
{
    let Some(free) = check_order(table) else {
        return Err(Refusal::NotInOrder);
    };
    let Some((v, i)) = locate(table, normalise(a, b, m), n) else {
        return Err(Refusal::NoRecord);
    };
    bring_vertex(table, scratch, v, i, n, free)
}

// Brings the vertex at a point, whatever its spelling, to degree 6 by the subdivisions that this asks for, or refuses by document 02's numbers 1, 3,
// 14, 5, 7, 16, 8, with no byte of the table changed. Lengths that don't fit leave both untouched; otherwise scratch ends all 255.
pub fn bring(table: &mut [u8], scratch: &mut [u8], a: i32, b: i32, m: u8) -> Result<(), Refusal>
    ensures { bring_after (number_told result) table.new scratch.new ≡ bring_to_six table.old scratch.old a b m }
{
    let n = slots_of(table);
    if n == 0 {
        return Err(Refusal::NotInOrder);
    }
    if scratch.len() != table.len() {
        return Err(Refusal::NotInOrder);
    }
    let outcome = bring_request(table, scratch, a, b, m, n);
    clear(scratch);
    outcome
}
