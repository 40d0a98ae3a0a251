// The calls that make and change a table.
ghost use Rattle.std.specs.Prelude.{◌≡◌};
ghost use Rattle.base.specs.Base.{base_after, base_of};
ghost use Rattle.mesh.specs.Subdivide.{subdivide_of, subdivide_all_of};
ghost use Rattle.bring.specs.Bring.{bring_after, bring_to_six};
ghost use Rattle.outlines.specs.Outlines.{refine_after, refine_of};
ghost use Rattle.outlines.specs.declared.values.Outline.TheVariants.{Disc, Line};

use crate::outcomes::give_done;
use lattice::{DONE, number_told};
use outlines::Outline;

// Lays hexagons into a cleared table, or 1, 2, 8; place: the first bad centre, else 0.
#[unsafe(no_mangle)]
pub extern "C" fn fb_base(table: &mut [u8], centres: &[i32], place: &mut u64) -> u8
    ensures { base_after result place.new table.new ≡ base_of table.old centres.now }
{
    match base::base(table, centres) {
        Ok(()) => {
            *place = 0;
            DONE
        }
        Err(bad) => {
            *place = bad.place as u64;
            bad.why.number()
        }
    }
}

// Subdivides the vertex at [a, b, m], or 1, 3, 4, 5, 7, 8.
#[unsafe(no_mangle)]
pub extern "C" fn fb_subdivide(table: &mut [u8], a: i32, b: i32, m: u8) -> u8
    ensures value { result ≡ (subdivide_of table.old a b m).number }
    ensures table_after { table.new ≡ (subdivide_of table.old a b m).bytes }
{
    number_told(mesh::subdivide(table, a, b, m))
}

// Subdivides the vertices at a, b, m, a, b, m, .. in turn, up to the first refusal; done: how many were.
#[unsafe(no_mangle)]
pub extern "C" fn fb_subdivide_all(table: &mut [u8], points: &[i32], done: &mut u64) -> u8
    ensures value { result ≡ (subdivide_all_of table.old points.now).number }
    ensures done_after { done.new ≡ (subdivide_all_of table.old points.now).done }
    ensures table_after { table.new ≡ (subdivide_all_of table.old points.now).bytes }
{
    give_done(mesh::subdivide_all(table, points), done)
}

// Brings the vertex at [a, b, m] to degree 6 by the subdivisions that this asks for, or 1, 3, 14, 5, 7, 16, 8, the table then as it was.
#[unsafe(no_mangle)]
pub extern "C" fn fb_bring_to_six(table: &mut [u8], scratch: &mut [u8], a: i32, b: i32, m: u8) -> u8
    ensures { bring_after result table.new scratch.new ≡ bring_to_six table.old scratch.old a b m }
{
    number_told(bring::bring(table, scratch, a, b, m))
}

// Refines round a disc with centre x, y and radius, or 1, 17, 7, 8; done: how many passes were made, which stand.
#[unsafe(no_mangle)]
pub extern "C" fn fb_refine_disc(
    table: &mut [u8],
    scratch: &mut [u8],
    x: f64,
    y: f64,
    radius: f64,
    passes: u8,
    level: u8,
    done: &mut u64,
) -> u8
    ensures { refine_after result done.new table.new scratch.new
        ≡ refine_of table.old scratch.old (Disc x y radius) passes level }
{
    let o = Outline::Disc(x, y, radius);
    give_done(outlines::refine(table, scratch, o, passes, level), done)
}

// Refines along the line p*x + q*y = s, in the same way.
#[unsafe(no_mangle)]
pub extern "C" fn fb_refine_line(
    table: &mut [u8],
    scratch: &mut [u8],
    p: f64,
    q: f64,
    s: f64,
    passes: u8,
    level: u8,
    done: &mut u64,
) -> u8
    ensures { refine_after result done.new table.new scratch.new
        ≡ refine_of table.old scratch.old (Line p q s) passes level }
{
    let o = Outline::Line(p, q, s);
    give_done(outlines::refine(table, scratch, o, passes, level), done)
}
