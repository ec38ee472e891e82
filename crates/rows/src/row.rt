// A row of the table that a user lends.
ghost use Rattle.std.specs.Prelude.{◌≡◌, ◌≤◌};
ghost use Rattle.rows.specs.Shapes.{root};

use metrics::metric::Metric;

// What a row says of its context: the path is read along the parents up to a row with the empty path. A table has at most 65,535
// rows, so 16 bits hold each of these numbers.
#[derive(Clone, Copy)]
pub struct Shape {
    pub level: u16,
    // the last function of the path, 0 where it is empty
    pub function: u16,
    // the row of the path without its last function, the row itself where the path is empty
    pub parent: u16,
    // the length of the path
    pub depth: u16,
}

impl Shape {
    // The row n with the empty path, of a level.
    pub fn root(level: usize, n: usize) -> Shape
        requires { (level ≤ 65535) × (n ≤ 65535) }
        ensures { result ≡ root level n }
    {
        Shape {
            level: level as u16,
            function: 0,
            parent: n as u16,
            depth: 0,
        }
    }
}

// A row stands for a context, and holds its value.
#[derive(Clone, Copy)]
pub struct Row<M> {
    pub(crate) shape: Shape,
    // where the row went, while rows are moved
    pub(crate) mark: u16,
    // The first row of the chain that belongs to this place, plus 1; 0 is none. It has nothing to do with the row that stands here.
    pub(crate) head: u16,
    // the next row of the chain that this row is in, plus 1; 0 is none
    pub(crate) next: u16,
    pub(crate) value: M,
}

impl<M: Metric> Row<M> {
    // A row to make a table of: it stands for nothing yet.
    pub fn empty() -> Row<M>
        ensures { M.means result.value ≡ M.measure.none }
    {
        Row {
            shape: Shape::root(0, 0),
            mark: 0,
            head: 0,
            next: 0,
            value: M::unit(),
        }
    }
}
