// The links of the mesh, where the removals have left it.
ghost use Rattle.polymesh.specs.Linking.{LinkableReady, LinkedTo};

use crate::layout::{edge_tables, links_at, site};
use links::adjacency::build_mesh_adjacency;
use links::portals::mark_portals;
use records::counts::Counts;
use records::run::Run;
use rules::Grid;

// The sides of the mesh's polygons are linked, and with a border the open ones on the edge of the grid become
// portals.
pub fn link_mesh(work: &mut [u32], v: usize, t: usize, n: Counts, grid: Grid)
    requires { LinkableReady work.old v t n }
    ensures { LinkedTo work.old work.new v t n grid.w grid.h grid.border }
{
    let s = site(v, t);
    let tables = edge_tables(v, t);
    let lo = links_at(v, t);
    build_mesh_adjacency(
        work,
        Run {
            at: s.polygons,
            n: n.polygons,
        },
        n.vertices,
        tables,
        lo,
    );
    mark_portals(
        work,
        Run {
            at: s.vertices,
            n: n.vertices,
        },
        Run {
            at: s.polygons,
            n: n.polygons,
        },
        lo,
        grid,
    );
}
