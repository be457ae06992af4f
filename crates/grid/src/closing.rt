// Closing a grid: the walks of each named label, and the mixes with walks before and after them.
ghost use Rattle.std.specs.Prelude.{◌<◌};
ghost use Rattle.rules.specs.Label.{unknown};
ghost use Rattle.rules.specs.Number.{number, labels};
ghost use Rattle.grid.specs.Rows.{Edge};
ghost use Rattle.grid.specs.Grid.{Proper};
ghost use Rattle.grid.specs.Planes.{PlanesOf, PlaneIn, Grown, InPlane, InWalks, InPlanes, Follows};

use crate::masks::{has, one};
use crate::planes::{Labels, Planes};
use crate::rows::Rows;
use crate::{Grid, planes, rows};
use rules::{SEVERAL, UNKNOWN};

// Adds the pairs that q relates to the grid, with label l.
pub fn put_plane(g: &mut Grid, q: &Rows, l: usize)
    requires { (l < labels) × Proper g.old }
    ensures grown { Grown g.old (InPlane q.now l) g.new }
    ensures proper { Proper g.new }
{
    let c = rows::any(q);
    if c == 0 {
        return;
    }
    for (i, row) in g.iter_mut().enumerate() {
        if has(c, i) {
            *row = rows::spread(*row, *q, i, one(l));
        }
    }
}

// Adds the walks of r, pairs of the grid with label l, to the grid with that label.
pub fn put_walks(g: &mut Grid, r: &Rows, l: usize)
    requires { (l < labels) × Proper g.old × PlaneIn g.old r.now l }
    ensures grown { Grown g.old (InWalks (Edge r.now) l) g.new }
    ensures proper { Proper g.new }
{
    let walks = rows::close_rows(*r);
    let apart = rows::apart(&walks);
    put_plane(g, &rows::less(&apart, r), l);
}

impl Planes {
    // Adds the walks of own and of each fork to the grid, whose pairs these are.
    pub fn put_named(&self, g: &mut Grid)
        requires { Proper g.old × PlanesOf g.old self.now.planes }
        ensures grown { Grown g.old (InPlanes (number unknown) self.now.planes) g.new }
        ensures proper { Proper g.new }
    {
        for (l, pairs) in self.planes[..UNKNOWN].iter().enumerate() {
            if has(self.some, l) {
                put_walks(g, pairs, l);
            }
        }
    }
}

// Closes a grid.
pub fn close_in(g: &mut Grid)
    requires { Proper g.old }
    ensures grown { Grown g.old (Follows g.old) g.new }
    ensures proper { Proper g.new }
{
    let t = Labels::of(g);
    if t.some == 0 {
        return;
    }
    match planes::sole(t.some) {
        Some(l) => {
            let pairs = t.plane(l);
            put_walks(g, &pairs, l);
        }
        None => {
            let p = t.planes();
            let mixes = p.several();
            p.put_named(g);
            put_plane(g, &mixes, SEVERAL);
        }
    }
}
